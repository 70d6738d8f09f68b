use super::*;
use dual_bounds::{Vector, bound};
use int_model::{ColumnPart, Direction, Model, Name, Parts, PointBox, Row, RowSense, Terms};
use scenario_changes::{Changes, Problem};
use std::alloc::{AllocError, Global};
use std::test::Fail;

fn name(alloc: Global, letter: u8) -> Result<Name, AllocError> {
    let mut bytes = Vec::new(alloc);
    bytes.push(letter)?;
    Ok(Name::from_vec(bytes))
}

fn column(alloc: Global, letter: u8, cost: i64) -> Result<ColumnPart, AllocError> {
    Ok(ColumnPart {
        name: name(alloc, letter)?,
        cost,
        low: Some(0),
        high: Some(3),
        implied: false,
    })
}

// Two columns from 0 to 3, and a row 2x + y.
fn parts(alloc: Global, costs: (i64, i64), sense: RowSense, rhs: i64) -> Result<Parts, AllocError> {
    let row = Row {
        name: name(alloc, b'a')?,
        sense,
        rhs,
        range: None,
        terms: Terms::from_vec(vec![in alloc; (0, 2), (1, 1)]?),
    };
    Ok(Parts {
        columns: vec![in alloc;
            column(alloc, b'x', costs.0)?,
            column(alloc, b'y', costs.1)?,
        ]?,
        rows: vec![in alloc; row]?,
        constant: 0,
        direction: Direction::Min,
    })
}

// The bound that a climb reaches in so many passes from the vector without entries, 0 where none is tried.
fn reached(alloc: Global, parts: Parts, passes: u32, cut: Option<i64>) -> Result<i64, Fail> {
    let model = Model::build(alloc, parts)?;
    let changes = Changes::new(alloc, &model)?;
    let problem = Problem::new(alloc, model, changes)?;
    let bounds = PointBox::from_ends(alloc, &[0, 0], &[3, 3])?;
    if bounds.is_empty() || problem.count() == 0 || problem.model().columns() != 2 {
        return Ok(0);
    }
    let start = Vector::new(alloc, 4096, &[])?;
    let (vector, _) = climb(alloc, &problem, 0, &bounds, &start, None, passes, cut)?;
    if vector.scale() == 0 {
        return Ok(0);
    }
    Ok(bound(
        problem.model(),
        problem.costs(0),
        problem.constant(),
        problem.ends(0),
        &vector,
        &bounds,
    ))
}

#[test]
fn reaches_relaxed_values(rt: HostRuntime) -> Result<(), Fail> {
    let alloc = rt.alloc();
    for &(x, y, sense, rhs, passes, cut, least) in &[
        (-3, -2, RowSense::L, 4, 100, None, -7),
        (3, 2, RowSense::G, 7, 100, None, 11),
        (1, -1, RowSense::E, 3, 100, None, -3),
        (-3, -2, RowSense::L, 4, 0, None, -15),
        (-3, -2, RowSense::L, 4, 100, Some(-15), -15),
    ] {
        let value = reached(alloc, parts(alloc, (x, y), sense, rhs)?, passes, cut)?;
        assert_eq!(rt; value, least);
    }
    Ok(())
}

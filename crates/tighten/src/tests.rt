ghost use Rattle.std.specs.Prelude.{◌≡◌};
ghost use Rattle.tighten.specs.declared.step.RowEnd.TheVariants.{Upper};

use super::*;
use int_model::{ColumnPart, Direction, Ends, Model, Name, Parts, PointBox, Row, RowSense, Terms};
use std::alloc::{AllocError, Global};
use std::test::Fail;

fn name(alloc: Global, letter: u8) -> Result<Name, AllocError> {
    let mut bytes = Vec::new(alloc);
    bytes.push(letter)?;
    Ok(Name::from_vec(bytes))
}

fn column(alloc: Global, letter: u8) -> Result<ColumnPart, AllocError> {
    Ok(ColumnPart {
        name: name(alloc, letter)?,
        cost: 1,
        low: Some(0),
        high: Some(3),
        implied: false,
    })
}

// 2x + y <= 4, x and y in 0..3.
fn cap(alloc: Global) -> Result<Parts, AllocError> {
    let row = Row {
        name: name(alloc, b'c')?,
        sense: RowSense::L,
        rhs: 4,
        range: None,
        terms: Terms::from_vec(vec![in alloc; (0, 2), (1, 1)]?),
    };
    Ok(Parts {
        columns: vec![in alloc; column(alloc, b'x')?, column(alloc, b'y')?]?,
        rows: vec![in alloc; row]?,
        constant: 0,
        direction: Direction::Min,
    })
}

const AT_MOST_FOUR: Ends = Ends {
    lower: None,
    upper: Some(4),
};

const BELOW: Ends = Ends {
    lower: None,
    upper: Some(-1),
};

fn upper(row: u32, column: u32) -> Step
    ensures { result ≡ record { row = row; column = column; side = Upper } }
{
    Step {
        row,
        column,
        side: RowEnd::Upper,
    }
}

// x_(j+1) <= x_j - 1 for each two neighbours of so many columns in 0..9.
fn chain(alloc: Global, columns: u32) -> Result<Parts, AllocError> {
    let mut parts = Parts {
        columns: Vec::new(alloc),
        rows: Vec::new(alloc),
        constant: 0,
        direction: Direction::Min,
    };
    for j in 0..columns {
        let letter = (j % 100) as u8;
        parts.columns.push(ColumnPart {
            high: Some(9),
            ..column(alloc, letter)?
        })?;
        if j > 0 {
            parts.rows.push(Row {
                name: name(alloc, letter)?,
                sense: RowSense::L,
                rhs: -1,
                range: None,
                terms: Terms::from_vec(vec![in alloc; (j - 1, -1), (j, 1)]?),
            })?;
        }
    }
    Ok(parts)
}

#[test]
fn narrows_along_a_chain(rt: HostRuntime) -> Result<(), Fail> {
    let model = Model::build(rt.alloc(), chain(rt.alloc(), 4)?)?;
    let bounds = PointBox::from_ends(rt.alloc(), &[0, 0, 0, 0], &[9, 9, 9, 9])?;
    assert_eq!(rt; model.rows(), 3);
    assert_eq!(rt; model.columns(), 4);
    let ends = [BELOW, BELOW, BELOW];
    let mut engine = Engine::new(rt.alloc(), &model)?;
    engine.load(&model, &bounds);
    assert!(rt; engine.propagate(&model, &ends, 100, 100)?);
    assert_eq!(rt; engine.lows(), [3, 2, 1, 0].as_slice());
    assert_eq!(rt; engine.highs(), [9, 8, 7, 6].as_slice());
    let mark = engine.mark();
    engine.set(&model, 0, 3, 3)?;
    assert!(rt; engine.propagate(&model, &ends, 100, 100)?);
    assert_eq!(rt; engine.highs(), [3, 2, 1, 0].as_slice());
    engine.undo(&model, mark);
    assert_eq!(rt; engine.highs(), [9, 8, 7, 6].as_slice());
    Ok(())
}

#[test]
fn proposes_at_a_root_box(rt: HostRuntime) -> Result<(), Fail> {
    let model = Model::build(rt.alloc(), cap(rt.alloc())?)?;
    let bounds = PointBox::from_ends(rt.alloc(), &[0, 0], &[3, 3])?;
    assert_eq!(rt; model.rows(), 1);
    assert_eq!(rt; model.columns(), 2);
    let mut steps = Vec::new(rt.alloc());
    propose(rt.alloc(), &model, &[AT_MOST_FOUR], &bounds, &mut steps)?;
    assert_eq!(rt; steps.as_slice(), [upper(0, 0)].as_slice());
    Ok(())
}

#[test]
fn applies_a_step(rt: HostRuntime) -> Result<(), Fail> {
    let model = Model::build(rt.alloc(), cap(rt.alloc())?)?;
    let mut bounds = PointBox::from_ends(rt.alloc(), &[0, 0], &[3, 3])?;
    assert_eq!(rt; model.rows(), 1);
    assert_eq!(rt; model.columns(), 2);
    assert!(rt; apply(&model, &[AT_MOST_FOUR], &upper(0, 0), &mut bounds));
    assert_eq!(rt; bounds.highs(), [2, 3].as_slice());
    Ok(())
}

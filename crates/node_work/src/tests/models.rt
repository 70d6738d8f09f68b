// Small models and their scenarios.
use int_model::{ColumnPart, Direction, Model, Name, Parts, Rhs, Row, RowSense, Terms};
use scenario_changes::{Changes, Problem};
use std::alloc::{AllocError, Global};
use std::process::Abort;
use std::test::Fail;

fn name_of(alloc: Global, letter: u8) -> Result<Name, AllocError> {
    Ok(Name::from_vec(vec![in alloc; letter]?))
}

fn column(alloc: Global, letter: u8, cost: i64, high: i64) -> Result<ColumnPart, AllocError> {
    Ok(ColumnPart {
        name: name_of(alloc, letter)?,
        cost,
        low: Some(0),
        high: Some(high),
        implied: false,
    })
}

fn row(
    alloc: Global,
    letter: u8,
    sense: RowSense,
    rhs: i64,
    terms: Vec<(u32, i64)>,
) -> Result<Row, AllocError> {
    Ok(Row {
        name: name_of(alloc, letter)?,
        sense,
        rhs,
        range: None,
        terms: Terms::from_vec(terms),
    })
}

fn model_of(alloc: Global, columns: Vec<ColumnPart>, rows: Vec<Row>) -> Result<Model, Fail> {
    let parts = Parts {
        columns,
        rows,
        constant: 0,
        direction: Direction::Min,
    };
    Ok(Model::build(alloc, parts)?)
}

// The least -3x - 2y for x and y in 0..3 with 2x + y at most 4.
fn capacity(alloc: Global) -> Result<Model, Fail> {
    let columns = vec![in alloc; column(alloc, b'x', -3, 3)?, column(alloc, b'y', -2, 3)?]?;
    let terms = vec![in alloc; (0, 2), (1, 1)]?;
    let rows = vec![in alloc; row(alloc, b'r', RowSense::L, 4, terms)?]?;
    model_of(alloc, columns, rows)
}

/// The base, and scenarios with the right-hand side 2, the cost -5 of x, and x at least 3. The least values
/// are -7, -4 and -10, and scenario 3 has no point.
pub(super) fn capacities(rt: &impl Abort, alloc: Global) -> Result<Problem, Fail> {
    let model = capacity(alloc)?;
    let mut changes = Changes::new(alloc, &model)?;
    changes.set_num_scenarios(4)?;
    changes.select(1)?;
    changes.set_rhs(0, Some(Rhs::Value(2)))?;
    changes.select(2)?;
    changes.set_obj(0, Some(-5))?;
    changes.select(3)?;
    changes.set_lb(0, Some(3))?;
    assert!(rt; changes.fits(&model));
    Ok(Problem::new(alloc, model, changes)?)
}

// Three columns of 0 or 1.
fn binaries(alloc: Global, cost: i64) -> Result<Vec<ColumnPart>, AllocError> {
    let mut columns = Vec::new(alloc);
    for letter in [b'x', b'y', b'z'] {
        columns.push(column(alloc, letter, cost, 1)?)?;
    }
    Ok(columns)
}

/// An even sum of three numbers 0 or 1 that is to be 3.
pub(super) fn odd_sum(alloc: Global) -> Result<Problem, Fail> {
    let terms = vec![in alloc; (0, 2), (1, 2), (2, 2)]?;
    let rows = vec![in alloc; row(alloc, b'r', RowSense::E, 3, terms)?]?;
    let model = model_of(alloc, binaries(alloc, 0)?, rows)?;
    let changes = Changes::new(alloc, &model)?;
    Ok(Problem::new(alloc, model, changes)?)
}

// Two of three columns have at most 1 together.
fn pair(alloc: Global, letter: u8, first: u32, second: u32) -> Result<Row, AllocError> {
    let terms = vec![in alloc; (first, 1), (second, 1)]?;
    row(alloc, letter, RowSense::L, 1, terms)
}

/// Three numbers 0 or 1, of which each two have at most 1 together, and all three at least 2. Twice the sum
/// of all is at most 3, so the rows together leave no point, but no row alone excludes one.
pub(super) fn crowded(alloc: Global) -> Result<Problem, Fail> {
    let all = vec![in alloc; (0, 1), (1, 1), (2, 1)]?;
    let rows = vec![in alloc;
        pair(alloc, b'a', 0, 1)?,
        pair(alloc, b'b', 1, 2)?,
        pair(alloc, b'c', 0, 2)?,
        row(alloc, b'd', RowSense::G, 2, all)?,
    ]?;
    let model = model_of(alloc, binaries(alloc, 1)?, rows)?;
    let changes = Changes::new(alloc, &model)?;
    Ok(Problem::new(alloc, model, changes)?)
}

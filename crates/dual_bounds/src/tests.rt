use super::*;
use int_model::{ColumnPart, Direction, Ends, Model, Name, Parts, PointBox, Row, RowSense, Terms};
use std::alloc::{AllocError, Global};
use std::test::Fail;

fn name(alloc: Global, letter: u8) -> Result<Name, AllocError> {
    let mut bytes = Vec::new(alloc);
    bytes.push(letter)?;
    Ok(Name::from_vec(bytes))
}

fn column(alloc: Global, letter: u8) -> Result<ColumnPart, AllocError> {
    Ok(ColumnPart {
        name: name(alloc, letter)?,
        cost: 1,
        low: Some(0),
        high: Some(3),
        implied: false,
    })
}

fn row(
    alloc: Global,
    letter: u8,
    first: (u32, i64),
    second: (u32, i64),
) -> Result<Row, AllocError> {
    Ok(Row {
        name: name(alloc, letter)?,
        sense: RowSense::L,
        rhs: 4,
        range: None,
        terms: Terms::from_vec(vec![in alloc; first, second]?),
    })
}

// Two columns, and 2x + y as the row.
fn cap(alloc: Global) -> Result<Parts, AllocError> {
    Ok(Parts {
        columns: vec![in alloc; column(alloc, b'x')?, column(alloc, b'y')?]?,
        rows: vec![in alloc; row(alloc, b'a', (0, 2), (1, 1))?]?,
        constant: 0,
        direction: Direction::Min,
    })
}

// Three columns, and x + y, y - z and x + z as the rows.
fn ring(alloc: Global) -> Result<Parts, AllocError> {
    let columns = vec![in alloc;
        column(alloc, b'x')?,
        column(alloc, b'y')?,
        column(alloc, b'z')?,
    ]?;
    let rows = vec![in alloc;
        row(alloc, b'a', (0, 1), (1, 1))?,
        row(alloc, b'b', (1, 1), (2, -1))?,
        row(alloc, b'c', (0, 1), (2, 1))?,
    ]?;
    Ok(Parts {
        columns,
        rows,
        constant: 0,
        direction: Direction::Min,
    })
}

const fn ends(lower: Option<i64>, upper: Option<i64>) -> Ends {
    Ends { lower, upper }
}

#[test]
fn sums_of_one_row(rt: HostRuntime) -> Result<(), Fail> {
    let model = Model::build(rt.alloc(), cap(rt.alloc())?)?;
    let bounds = PointBox::from_ends(rt.alloc(), &[0, 0], &[3, 3])?;
    assert_eq!(rt; model.rows(), 1);
    assert_eq!(rt; model.columns(), 2);
    let ends = [ends(None, Some(4))];
    for &(scale, multiplier, sum, least) in &[
        (2, -3, -15, -2),
        (1, -1, -10, -5),
        (2, 3, -30, -10),
    ] {
        let vector = Vector::new(rt.alloc(), scale, &[(0, multiplier)])?;
        assert_eq!(rt; evaluate(&model, &[-3, -2], &ends, &vector, &bounds), sum);
        assert!(rt; vector.scale() > 0);
        assert_eq!(rt; bound(&model, &[-3, -2], 5, &ends, &vector, &bounds), least);
    }
    let costs_alone = Vector::new(rt.alloc(), 1, &[])?;
    assert_eq!(rt;
        evaluate(&model, &[-3, -2], &ends, &costs_alone, &bounds),
        -15
    );
    Ok(())
}

#[test]
fn sums_of_some_rows(rt: HostRuntime) -> Result<(), Fail> {
    let model = Model::build(rt.alloc(), ring(rt.alloc())?)?;
    let bounds = PointBox::from_ends(rt.alloc(), &[0, 0, 0], &[5, 5, 5])?;
    assert_eq!(rt; model.rows(), 3);
    assert_eq!(rt; model.columns(), 3);
    let ends = [
        ends(Some(2), None),
        ends(None, Some(1)),
        ends(Some(3), Some(3)),
    ];
    let costs = [1, 2, 3];
    let first = Vector::new(rt.alloc(), 1, &[(0, 2), (2, -1)])?;
    assert_eq!(rt; evaluate(&model, &costs, &ends, &first, &bounds), 1);
    let second = Vector::new(rt.alloc(), 1, &[(1, -1), (2, 2)])?;
    assert_eq!(rt; evaluate(&model, &costs, &ends, &second, &bounds), 0);
    let absent = Vector::new(rt.alloc(), 1, &[(1, 3), (2, 2)])?;
    assert_eq!(rt; evaluate(&model, &costs, &ends, &absent, &bounds), 1);
    let shares = Shares::of(&model, &first);
    let sum = evaluate_with(&shares, &model, &costs, &ends, &first, &bounds);
    assert_eq!(rt; sum, 1);
    let shares = Shares::of(&model, &absent);
    let sum = evaluate_with(&shares, &model, &costs, &ends, &absent, &bounds);
    assert_eq!(rt; sum, 1);
    Ok(())
}

#[test]
fn refuses_in_order(rt: HostRuntime) -> Result<(), Fail> {
    for &(scale, multiplier, error) in &[
        (1_048_577, 0, VectorError::BadScale),
        (1_048_576, 0, VectorError::BadEntry(1)),
        (0, 1_099_511_627_777, VectorError::BadEntry(1)),
    ] {
        let refused = Vector::new(rt.alloc(), scale, &[(3, 1), (4, multiplier)]);
        assert!(rt; matches!(refused, Err(found) if found == error));
    }
    let falling = Vector::new(rt.alloc(), 1, &[(3, 1), (3, 1)]);
    assert!(rt; matches!(falling, Err(VectorError::BadEntry(1))));
    let many = Vector::new(rt.alloc(), 1, &[(0, 0); 129]);
    assert!(rt; matches!(many, Err(VectorError::TooMany)));
    let kept = Vector::new(rt.alloc(), 1_048_576, &[(3, 1_099_511_627_776)])?;
    assert_eq!(rt; kept.entries(), [(3, 1_099_511_627_776)].as_slice());
    assert_eq!(rt; kept.scale(), 1_048_576);
    Ok(())
}

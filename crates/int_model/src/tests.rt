use super::*;
use std::alloc::{AllocError, Global};
use std::test::Fail;

fn name(alloc: Global, letter: u8) -> Result<Name, AllocError> {
    let mut bytes = Vec::new(alloc);
    bytes.push(letter)?;
    Ok(Name::from_vec(bytes))
}

fn column(
    alloc: Global,
    letter: u8,
    cost: i64,
    high: Option<i64>,
) -> Result<ColumnPart, AllocError> {
    Ok(ColumnPart {
        name: name(alloc, letter)?,
        cost,
        low: Some(0),
        high,
        implied: false,
    })
}

// min -3x - 2y, 2x + y <= 4, x and y in 0..3, with another high of y and another second term.
fn parts(alloc: Global, high: Option<i64>, second: (u32, i64)) -> Result<Parts, AllocError> {
    let columns = vec![in alloc;
        column(alloc, b'x', -3, Some(3))?,
        column(alloc, b'y', -2, high)?,
    ]?;
    let terms = Terms::from_vec(vec![in alloc; (0, 2), second]?);
    let cap = Row {
        name: name(alloc, b'c')?,
        sense: RowSense::L,
        rhs: 4,
        range: None,
        terms,
    };
    Ok(Parts {
        columns,
        rows: vec![in alloc; cap]?,
        constant: 0,
        direction: Direction::Min,
    })
}

#[test]
fn builds_and_reads(rt: HostRuntime) -> Result<(), Fail> {
    let model = Model::build(rt.alloc(), parts(rt.alloc(), Some(3), (1, 1))?)?;
    assert_eq!(rt; model.columns(), 2);
    assert_eq!(rt; model.rows(), 1);
    assert_eq!(rt; model.column(1).cost, -2);
    assert_eq!(rt; model.column(1).name.as_slice(), b"y".as_slice());
    assert_eq!(rt; model.column_terms(1), [(0, 1)].as_slice());
    assert_eq!(rt; model.constant(), 0);
    assert_eq!(rt; model.direction(), Direction::Min);
    assert_eq!(rt; model.implied(), 0);
    let row = model.row(0);
    assert_eq!(rt; row.terms.len(), 2);
    assert!(rt; removable(row, Rhs::Inf));
    assert!(rt; !removable(row, Rhs::MinusInf));
    assert!(rt; removable(row, Rhs::Value(7)));
    let ends = ends_of(row, Rhs::Value(7));
    assert_eq!(rt;
        ends,
        Ends {
            lower: None,
            upper: Some(7)
        }
    );
    Ok(())
}

#[test]
fn refuses_the_first_fault(rt: HostRuntime) -> Result<(), Fail> {
    let cases = [
        (None, (1, 1), ModelError::Unbounded(1)),
        (
            Some(1_000_001),
            (1, 1),
            ModelError::Magnitude(Place::High(1)),
        ),
        (Some(3), (0, 1), ModelError::BadTerm(0)),
        (Some(3), (2, 1), ModelError::BadTerm(0)),
        (Some(3), (1, 0), ModelError::BadTerm(0)),
        (
            Some(3),
            (1, 1_000_000_001),
            ModelError::Magnitude(Place::Entry(0, 1)),
        ),
    ];
    for (high, second, wanted) in cases {
        match Model::build(rt.alloc(), parts(rt.alloc(), high, second)?) {
            Ok(_) => panic!(rt; "accepted {second:?}"),
            Err(error) => assert_eq!(rt; error, wanted),
        }
    }
    Ok(())
}

#[test]
fn cuts_the_root_box(rt: HostRuntime) -> Result<(), Fail> {
    let root = PointBox::from_ends(rt.alloc(), &[0, 0], &[3, 3])?;
    assert!(rt; !root.is_empty());
    assert!(rt; !root.is_single());
    assert!(rt; root.contains(&[1, 2]));
    assert!(rt; !root.contains(&[4, 2]));
    let (mut below, above) = root.cut(rt.alloc(), 0, 1)?;
    assert_eq!(rt; below.highs(), [1, 3].as_slice());
    assert_eq!(rt; above.lows(), [2, 0].as_slice());
    below.set(1, 2, 1);
    assert!(rt; below.is_empty());
    let point = Point::from_vec(vec![in rt.alloc(); 1, 2]?);
    assert_eq!(rt; point.get(1).copied(), Some(2));
    assert_eq!(rt; point.get(2).copied(), None);
    assert!(rt; above.contains(&[2, 0]));
    Ok(())
}

#[test]
fn copies_widens_and_narrows(rt: HostRuntime) -> Result<(), Fail> {
    let root = PointBox::from_ends(rt.alloc(), &[0, -2, 5], &[3, 1, 5])?;
    let other = PointBox::from_ends(rt.alloc(), &[-1, 0, 7], &[2, 4, 9])?;
    let mut wide = root.copy(rt.alloc())?;
    assert_eq!(rt; wide.lows(), root.lows());
    assert_eq!(rt; wide.highs(), root.highs());
    wide.hull(&other);
    assert_eq!(rt; wide.lows(), [-1, -2, 5].as_slice());
    assert_eq!(rt; wide.highs(), [3, 4, 9].as_slice());
    wide.copy_from(&root);
    assert_eq!(rt; wide.lows(), root.lows());
    assert_eq!(rt; wide.highs(), root.highs());
    wide.meet(&[1, -3, 6], &[2, 0, 9]);
    assert_eq!(rt; wide.lows(), [1, -2, 6].as_slice());
    assert_eq!(rt; wide.highs(), [2, 0, 5].as_slice());
    assert!(rt; wide.is_empty());
    Ok(())
}

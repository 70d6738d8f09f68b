// What no clause says: worked values, and one call of each public function.
use crate::{Answer, Answers, ChangeError, Changes, Problem};
use int_model::{ColumnPart, Direction, Model, Name, Parts, Point, Rhs, Row, RowSense, Terms};
use std::alloc::{AllocError, Global};
use std::process::Abort;
use std::test::Fail;

fn name_of(alloc: Global, byte: u8) -> Result<Name, AllocError> {
    let mut bytes = Vec::new(alloc);
    bytes.push(byte)?;
    Ok(Name::from_vec(bytes))
}

fn column(alloc: Global, byte: u8, cost: i64, high: i64) -> Result<ColumnPart, AllocError> {
    Ok(ColumnPart {
        name: name_of(alloc, byte)?,
        cost,
        low: Some(0),
        high: Some(high),
        implied: false,
    })
}

// x and y in 0..3 with the row 2x + y at most 4.
fn two_columns(alloc: Global, costs: [i64; 2], direction: Direction) -> Result<Model, Fail> {
    let columns = vec![in alloc;
        column(alloc, b'x', costs[0], 3)?,
        column(alloc, b'y', costs[1], 3)?,
    ]?;
    let terms = Terms::from_vec(vec![in alloc; (0, 2), (1, 1)]?);
    let row = Row {
        name: name_of(alloc, b'c')?,
        sense: RowSense::L,
        rhs: 4,
        range: None,
        terms,
    };
    let rows = vec![in alloc; row]?;
    Ok(Model::build(
        alloc,
        Parts {
            columns,
            rows,
            constant: 0,
            direction,
        },
    )?)
}

// x in 0..9 with the row x = 5 and a range.
fn one_column(alloc: Global, range: i64) -> Result<Model, Fail> {
    let columns = vec![in alloc; column(alloc, b'x', 1, 9)?]?;
    let terms = Terms::from_vec(vec![in alloc; (0, 1)]?);
    let row = Row {
        name: name_of(alloc, b'r')?,
        sense: RowSense::E,
        rhs: 5,
        range: Some(range),
        terms,
    };
    let rows = vec![in alloc; row]?;
    Ok(Model::build(
        alloc,
        Parts {
            columns,
            rows,
            constant: 0,
            direction: Direction::Min,
        },
    )?)
}

fn lesser(best: Option<i64>, value: i64) -> Option<i64> {
    match best {
        Some(other) => Some(other.min(value)),
        None => Some(value),
    }
}

// The least value of a feasible point of x and y in 0..3.
fn least_of_two(rt: &impl Abort, problem: &Problem, s: u32) -> Option<i64> {
    let mut best = None;
    for x in 0..4u8 {
        for y in 0..4u8 {
            let point = [i32::from(x), i32::from(y)];
            assert!(rt; s < problem.count());
            assert!(rt; problem.model().columns() == 2);
            if problem.meets(s, &point) {
                best = lesser(best, problem.value(s, &point));
            }
        }
    }
    best
}

// The least value of a feasible point of x in 0..9.
fn least_of_one(rt: &impl Abort, problem: &Problem, s: u32) -> Option<i64> {
    let mut best = None;
    for x in 0..10u8 {
        let point = [i32::from(x)];
        assert!(rt; s < problem.count());
        assert!(rt; problem.model().columns() == 1);
        if problem.meets(s, &point) {
            best = lesser(best, problem.value(s, &point));
        }
    }
    best
}

// Scenarios 1 to 3: a smaller side, another cost, x fixed at 3.
fn set_first(changes: &mut Changes) -> Result<(), ChangeError> {
    changes.select(1)?;
    changes.set_rhs(0, Some(Rhs::Value(2)))?;
    changes.select(2)?;
    changes.set_obj(0, Some(-5))?;
    changes.select(3)?;
    changes.set_lb(0, Some(3))?;
    Ok(())
}

// Scenarios 4 to 6: the row removed, crossed bounds, a bound that is set and unset.
fn set_last(changes: &mut Changes) -> Result<(), ChangeError> {
    changes.select(4)?;
    changes.set_rhs(0, Some(Rhs::Inf))?;
    changes.select(5)?;
    changes.set_lb(0, Some(2))?;
    changes.set_ub(0, Some(1))?;
    changes.select(6)?;
    changes.set_ub(0, Some(0))?;
    changes.set_ub(0, None)?;
    changes.set_name(Some(b"last"))?;
    Ok(())
}

#[test]
fn worked_values(rt: HostRuntime) -> Result<(), Fail> {
    let model = two_columns(rt.alloc(), [-3, -2], Direction::Min)?;
    let mut changes = Changes::new(rt.alloc(), &model)?;
    changes.set_num_scenarios(7)?;
    set_first(&mut changes)?;
    set_last(&mut changes)?;
    assert!(rt; changes.fits(&model));
    assert_eq!(rt; changes.num_scenarios(), 7);
    assert_eq!(rt; changes.selected(), 6);
    let problem = Problem::new(rt.alloc(), model, changes)?;
    assert_eq!(rt; problem.num_scenarios(), 7);
    let wanted = [
        Some(-7),
        Some(-4),
        Some(-10),
        None,
        Some(-15),
        None,
        Some(-7),
    ];
    for (s, least) in wanted.iter().enumerate() {
        assert_eq!(rt;
            least_of_two(&rt, &problem, s as u32),
            *least,
            "scenario {s}"
        );
    }
    assert!(rt; 6 < problem.count());
    assert!(rt; problem.name(0).is_none());
    assert!(rt; problem.name(6) == Some(b"last".as_slice()));
    Ok(())
}

#[test]
fn base_alone(rt: HostRuntime) -> Result<(), Fail> {
    let model = two_columns(rt.alloc(), [3, 2], Direction::Max)?;
    let changes = Changes::new(rt.alloc(), &model)?;
    assert!(rt; changes.fits(&model));
    let problem = Problem::new(rt.alloc(), model, changes)?;
    assert_eq!(rt; problem.count(), 1);
    assert_eq!(rt; problem.num_scenarios(), 0);
    assert_eq!(rt; least_of_two(&rt, &problem, 0), Some(-7));
    assert!(rt; 0 < problem.count());
    assert!(rt; problem.name(0).is_none());
    assert_eq!(rt; problem.costs(0), [-3, -2].as_slice());
    assert_eq!(rt; problem.constant(), 0);
    Ok(())
}

#[test]
fn ranges(rt: HostRuntime) -> Result<(), Fail> {
    for (range, first, second) in [(-2, 3, 5), (2, 5, 7)] {
        let model = one_column(rt.alloc(), range)?;
        let mut changes = Changes::new(rt.alloc(), &model)?;
        changes.set_num_scenarios(2)?;
        changes.select(1)?;
        changes.set_rhs(0, Some(Rhs::Value(7)))?;
        assert!(rt; changes.fits(&model));
        let problem = Problem::new(rt.alloc(), model, changes)?;
        assert_eq!(rt;
            least_of_one(&rt, &problem, 0),
            Some(first),
            "range {range}"
        );
        assert_eq!(rt;
            least_of_one(&rt, &problem, 1),
            Some(second),
            "range {range} at 7"
        );
    }
    Ok(())
}

#[test]
fn no_scenario_first(rt: HostRuntime) -> Result<(), Fail> {
    let model = two_columns(rt.alloc(), [-3, -2], Direction::Min)?;
    let mut changes = Changes::new(rt.alloc(), &model)?;
    assert_eq!(rt;
        changes.set_obj(9, Some(i64::MAX)),
        Err(ChangeError::NoScenario)
    );
    assert_eq!(rt; changes.set_rhs(9, None), Err(ChangeError::NoScenario));
    assert_eq!(rt; changes.set_name(Some(b"")), Err(ChangeError::NoScenario));
    Ok(())
}

#[test]
fn columns_refused(rt: HostRuntime) -> Result<(), Fail> {
    let model = two_columns(rt.alloc(), [-3, -2], Direction::Min)?;
    let mut changes = Changes::new(rt.alloc(), &model)?;
    changes.set_num_scenarios(1)?;
    let large = Err(ChangeError::Magnitude);
    let unknown = Err(ChangeError::UnknownColumn);
    for (column, value, want) in [
        (2, 1_000_000_001, unknown),
        (1, 1_000_000_001, large),
        (1, -1_000_000_000, Ok(())),
    ] {
        assert_eq!(rt;
            changes.set_obj(column, Some(value)),
            want,
            "cost {value} of column {column}"
        );
    }
    for (column, value, want) in [
        (2, 1_000_001, unknown),
        (0, 1_000_001, large),
        (0, -1_000_001, large),
        (0, 1_000_000, Ok(())),
    ] {
        assert_eq!(rt;
            changes.set_lb(column, Some(value)),
            want,
            "lower bound {value} of column {column}"
        );
        assert_eq!(rt;
            changes.set_ub(column, Some(value)),
            want,
            "upper bound {value} of column {column}"
        );
    }
    assert_eq!(rt; changes.set_lb(2, None), unknown);
    Ok(())
}

#[test]
fn rows_and_names_refused(rt: HostRuntime) -> Result<(), Fail> {
    let model = two_columns(rt.alloc(), [-3, -2], Direction::Min)?;
    let mut changes = Changes::new(rt.alloc(), &model)?;
    changes.set_num_scenarios(1)?;
    let bad = Err(ChangeError::BadRemoval);
    let large = Err(ChangeError::Magnitude);
    let unknown = Err(ChangeError::UnknownRow);
    for (row, side, want) in [
        (1, Rhs::MinusInf, unknown),
        (0, Rhs::MinusInf, bad),
        (0, Rhs::Value(i64::MIN), large),
        (0, Rhs::Inf, Ok(())),
    ] {
        assert_eq!(rt; changes.set_rhs(row, Some(side)), want, "row {row}");
    }
    assert_eq!(rt; changes.set_name(Some(b"a b")), Err(ChangeError::BadName));
    assert_eq!(rt; changes.select(1), Err(ChangeError::NoScenario));
    Ok(())
}

#[test]
fn counts(rt: HostRuntime) -> Result<(), Fail> {
    let model = two_columns(rt.alloc(), [-3, -2], Direction::Min)?;
    let mut changes = Changes::new(rt.alloc(), &model)?;
    assert_eq!(rt; changes.set_num_scenarios(65), Err(ChangeError::TooMany));
    assert_eq!(rt; changes.set_num_scenarios(64), Ok(()));
    assert_eq!(rt; changes.num_scenarios(), 64);
    Ok(())
}

#[test]
fn made_again(rt: HostRuntime) -> Result<(), Fail> {
    let model = two_columns(rt.alloc(), [-3, -2], Direction::Min)?;
    let mut changes = Changes::new(rt.alloc(), &model)?;
    changes.set_num_scenarios(2)?;
    changes.set_ub(0, Some(7))?;
    changes.select(1)?;
    changes.set_lb(0, Some(-4))?;
    changes.set_num_scenarios(1)?;
    changes.set_num_scenarios(2)?;
    assert_eq!(rt; changes.selected(), 0);
    assert!(rt; changes.fits(&model));
    let problem = Problem::new(rt.alloc(), model, changes)?;
    assert_eq!(rt; problem.count(), 2);
    assert_eq!(rt; problem.lows(1), [0, 0].as_slice());
    assert_eq!(rt; problem.highs(0), [7, 3].as_slice());
    assert_eq!(rt; problem.ends(1).len(), 1);
    let root = problem.root(rt.alloc())?;
    assert_eq!(rt; root.lows(), [0, 0].as_slice());
    assert_eq!(rt; root.highs(), [7, 3].as_slice());
    Ok(())
}

#[test]
fn answers(rt: HostRuntime) -> Result<(), Fail> {
    let point = Point::from_vec(vec![in rt.alloc(); 1, 2]?);
    let items = vec![in rt.alloc(); Answer::Infeasible, Answer::Optimal { point, value: -7 }]?;
    let answers = Answers::from_vec(items);
    assert_eq!(rt; answers.len(), 2);
    assert_eq!(rt; answers.as_slice().len(), 2);
    assert!(rt; answers.get(1).is_some());
    assert!(rt; answers.get(2).is_none());
    Ok(())
}

// What no clause says: which column and which number are chosen. The weights were worked out by hand.
use crate::{Branch, choose};
use int_model::{ColumnPart, Direction, Model, Name, Parts, PointBox, Row, RowSense, Terms};
use live_sets::LiveSet;
use scenario_changes::{Changes, Problem};
use std::alloc::{AllocError, Global};
use std::process::Abort;
use std::test::Fail;

fn name_of(alloc: Global, byte: u8) -> Result<Name, AllocError> {
    let mut bytes = Vec::new(alloc);
    bytes.push(byte)?;
    Ok(Name::from_vec(bytes))
}

fn column(alloc: Global, byte: u8, cost: i64) -> Result<ColumnPart, AllocError> {
    Ok(ColumnPart {
        name: name_of(alloc, byte)?,
        cost,
        low: Some(0),
        high: Some(3),
        implied: false,
    })
}

// Costs of -3 and -2, and 2x + y at most 4.
fn two_columns(alloc: Global) -> Result<Model, Fail> {
    let columns = vec![in alloc; column(alloc, b'x', -3)?, column(alloc, b'y', -2)?]?;
    let row = Row {
        name: name_of(alloc, b'c')?,
        sense: RowSense::L,
        rhs: 4,
        range: None,
        terms: Terms::from_vec(vec![in alloc; (0, 2), (1, 1)]?),
    };
    let rows = vec![in alloc; row]?;
    Ok(Model::build(
        alloc,
        Parts {
            columns,
            rows,
            constant: 0,
            direction: Direction::Min,
        },
    )?)
}

// Scenario 0 is the base, and in scenario 1 the cost of y is -9.
fn two_scenarios(rt: &impl Abort, alloc: Global) -> Result<Problem, Fail> {
    let model = two_columns(alloc)?;
    let mut changes = Changes::new(alloc, &model)?;
    changes.set_num_scenarios(2)?;
    changes.select(1)?;
    changes.set_obj(1, Some(-9))?;
    assert!(rt; changes.fits(&model));
    Ok(Problem::new(alloc, model, changes)?)
}

fn choice(rt: &impl Abort, problem: &Problem, bounds: &PointBox, live: LiveSet) -> Branch {
    assert!(rt; bounds.lows().len() == problem.model().columns() as usize);
    assert!(rt; !bounds.is_empty());
    assert!(rt; !bounds.is_single());
    choose(problem, bounds, live)
}

#[test]
fn choices_in_boxes(rt: HostRuntime) -> Result<(), Fail> {
    let problem = two_scenarios(&rt, rt.alloc())?;
    // Weights in scenario 0: the width of x times 4 times 3, the width of y times 3 times 2.
    for (low, high, column, value) in [
        ([0, 0], [3, 3], 0, 1),
        ([0, 0], [1, 3], 1, 1),
        ([0, 0], [2, 4], 0, 1),
        ([1, 0], [1, 1], 1, 0),
        ([-3, 5], [-2, 5], 0, -3),
        ([-1_000_000, 0], [1_000_000, 1], 0, 0),
    ] {
        let bounds = PointBox::from_ends(rt.alloc(), &low, &high)?;
        let branch = choice(&rt, &problem, &bounds, LiveSet::full(1));
        assert_eq!(rt; branch, Branch { column, value });
    }
    Ok(())
}

#[test]
fn choices_for_live_scenarios(rt: HostRuntime) -> Result<(), Fail> {
    let problem = two_scenarios(&rt, rt.alloc())?;
    let bounds = PointBox::from_ends(rt.alloc(), &[0, 0], &[3, 3])?;
    let mut second = LiveSet::none();
    second.insert(1);
    // The weight of y is 60 where scenario 1 lives. Without any scenario the weights are 9 and 6.
    for (live, column) in [
        (LiveSet::none(), 0),
        (LiveSet::full(1), 0),
        (second, 1),
        (LiveSet::full(2), 1),
        (LiveSet::full(64), 1),
    ] {
        let branch = choice(&rt, &problem, &bounds, live);
        assert_eq!(rt; branch, Branch { column, value: 1 });
    }
    Ok(())
}

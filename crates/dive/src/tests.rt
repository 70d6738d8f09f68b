// What no clause says: which points are found, and how good they are.
ghost use Rattle.std.specs.Prelude.{◌≡◌, ◌<◌, length, true};
ghost use Rattle.scenario_changes.specs.Problems.{program_at};
ghost use Rattle.scenario_changes.specs.Problems as problems;
ghost use Rattle.dive.specs.Dives.{LiesIn};

use crate::{Dive, dive, dive_near};
use int_model::{
    ColumnPart, Direction, Model, Name, NearPoint, Parts, PointBox, Row, RowSense, Terms,
};
use scenario_changes::{Changes, Problem};
use std::alloc::{AllocError, Global};
use std::process::Abort;
use std::test::Fail;

fn name_of(alloc: Global, number: usize) -> Result<Name, AllocError> {
    let mut bytes = Vec::new(alloc);
    bytes.push(b'a')?;
    bytes.push((number % 256) as u8)?;
    Ok(Name::from_vec(bytes))
}

// Columns with these costs, and numbers from 0 to these.
fn columns_of(alloc: Global, parts: &[(i64, i32)]) -> Result<Vec<ColumnPart>, AllocError> {
    let mut columns = Vec::new(alloc);
    for (j, (cost, high)) in parts.iter().enumerate() {
        columns.push(ColumnPart {
            name: name_of(alloc, j)?,
            cost: *cost,
            low: Some(0),
            high: Some(i64::from(*high)),
            implied: false,
        })?;
    }
    Ok(columns)
}

// A row with these coefficients, of which those that are 0 are left out.
fn row_of(
    alloc: Global,
    number: usize,
    sense: RowSense,
    rhs: i64,
    coefficients: &[i64],
) -> Result<Row, AllocError> {
    let mut terms = Vec::new(alloc);
    for (j, coefficient) in coefficients.iter().enumerate() {
        if *coefficient != 0 && j < 1_000 {
            terms.push((j as u32, *coefficient))?;
        }
    }
    Ok(Row {
        name: name_of(alloc, number)?,
        sense,
        rhs,
        range: None,
        terms: Terms::from_vec(terms),
    })
}

// The only scenario of a model to be minimised.
fn problem_of(alloc: Global, columns: Vec<ColumnPart>, rows: Vec<Row>) -> Result<Problem, Fail> {
    let parts = Parts {
        columns,
        rows,
        constant: 0,
        direction: Direction::Min,
    };
    let model = Model::build(alloc, parts)?;
    let changes = Changes::new(alloc, &model)?;
    Ok(Problem::new(alloc, model, changes)?)
}

// Costs of -3 and -2, numbers from 0 to 3, and 2x + y at most 4.
fn two_products(alloc: Global) -> Result<Problem, Fail> {
    let columns = columns_of(alloc, &[(-3, 3), (-2, 3)])?;
    let rows = vec![in alloc; row_of(alloc, 0, RowSense::L, 4, &[2, 1])?]?;
    problem_of(alloc, columns, rows)
}

// Whether each interval of a box lies in the scenario's bounds.
fn lies_in_bounds(problem: &Problem, s: u32, bounds: &PointBox) -> bool
    requires { s < length (problems.problem problem.now).scenarios }
    ensures { result ≡ true → LiesIn bounds.now (program_at (problems.problem problem.now) s).bounds }
{
    let lows = problem.lows(s);
    let highs = problem.highs(s);
    let box_lows = bounds.lows();
    let box_highs = bounds.highs();
    if box_lows.len() != lows.len() {
        return false;
    }
    for j in 0..lows.len() {
        if box_lows[j] < lows[j] {
            return false;
        }
        if highs[j] < box_highs[j] {
            return false;
        }
    }
    true
}

// A dive of the only scenario into a box, near a point where there is one.
fn dived(
    rt: &impl Abort,
    alloc: Global,
    problem: &Problem,
    bounds: &PointBox,
    near: Option<&NearPoint>,
) -> Result<Dive, Fail> {
    assert!(rt; problem.count() == 1);
    assert!(rt; !bounds.is_empty());
    assert!(rt; lies_in_bounds(problem, 0, bounds));
    let found = match near {
        Some(near) => dive_near(alloc, problem, 0, bounds, near, 40)?,
        None => dive(alloc, problem, 0, bounds)?,
    };
    Ok(found)
}

// The sum of the costs times the numbers of a point.
fn value_at(costs: &[i64], x: &[i32]) -> i64 {
    let mut value: i64 = 0;
    for (j, number) in x.iter().enumerate() {
        let cost = costs.get(j).copied().unwrap_or(0);
        value = value.saturating_add(cost.saturating_mul(i64::from(*number)));
    }
    value
}

// The value of the point that a dive into the whole bounds finds, which is feasible, and 0 where it finds
// none.
fn found_value(
    rt: &impl Abort,
    alloc: Global,
    problem: &Problem,
    near: Option<&NearPoint>,
) -> Result<i64, Fail> {
    assert!(rt; problem.count() == 1);
    let bounds = PointBox::from_ends(alloc, problem.lows(0), problem.highs(0))?;
    match dived(rt, alloc, problem, &bounds, near)? {
        Dive::Point(point) => {
            assert!(rt; problem.meets(0, point.as_slice()));
            Ok(value_at(problem.costs(0), point.as_slice()))
        }
        Dive::Stuck { .. } => Ok(0),
    }
}

// Three columns of at most 1, with the same coefficients 1 in each pair of them.
fn pairs(alloc: Global, costs: [i64; 3], sense: RowSense) -> Result<Problem, Fail> {
    let columns = columns_of(alloc, &[(costs[0], 1), (costs[1], 1), (costs[2], 1)])?;
    let rows = vec![in alloc;
        row_of(alloc, 0, sense, 1, &[1, 1, 0])?,
        row_of(alloc, 1, sense, 1, &[0, 1, 1])?,
        row_of(alloc, 2, sense, 1, &[1, 0, 1])?,
    ]?;
    problem_of(alloc, columns, rows)
}

// Which of four things to take, of at most 5 in weight.
fn knapsack(alloc: Global) -> Result<Problem, Fail> {
    let columns = columns_of(alloc, &[(-5, 1), (-4, 1), (-3, 1), (-1, 1)])?;
    let rows = vec![in alloc; row_of(alloc, 0, RowSense::L, 5, &[4, 2, 3, 1])?]?;
    problem_of(alloc, columns, rows)
}

// Two tasks for two people, each with one.
fn assignment(alloc: Global) -> Result<Problem, Fail> {
    let columns = columns_of(alloc, &[(1, 1), (3, 1), (2, 1), (7, 1)])?;
    let rows = vec![in alloc;
        row_of(alloc, 0, RowSense::E, 1, &[1, 1, 0, 0])?,
        row_of(alloc, 1, RowSense::E, 1, &[0, 0, 1, 1])?,
        row_of(alloc, 2, RowSense::E, 1, &[1, 0, 1, 0])?,
        row_of(alloc, 3, RowSense::E, 1, &[0, 1, 0, 1])?,
    ]?;
    problem_of(alloc, columns, rows)
}

// A near point of whole numbers.
fn near_of(alloc: Global, numbers: &[i32]) -> Result<NearPoint, AllocError> {
    let mut items = Vec::new(alloc);
    for number in numbers {
        items.push(i64::from(*number) << 14)?;
    }
    Ok(NearPoint::from_vec(items))
}

#[test]
fn feasible_single_point(rt: HostRuntime) -> Result<(), Fail> {
    let alloc = rt.alloc();
    let problem = two_products(alloc)?;
    let bounds = PointBox::from_ends(alloc, &[1, 2], &[1, 2])?;
    match dived(&rt, alloc, &problem, &bounds, None)? {
        Dive::Point(point) => assert!(rt; point.as_slice() == [1, 2].as_slice()),
        Dive::Stuck { .. } => assert!(rt; false),
    }
    Ok(())
}

#[test]
fn infeasible_single_point(rt: HostRuntime) -> Result<(), Fail> {
    let alloc = rt.alloc();
    let problem = two_products(alloc)?;
    let bounds = PointBox::from_ends(alloc, &[3, 3], &[3, 3])?;
    match dived(&rt, alloc, &problem, &bounds, None)? {
        Dive::Point(_) => assert!(rt; false),
        Dive::Stuck { bounds, row } => {
            assert_eq!(rt; row, 0);
            assert!(rt; bounds.is_single());
        }
    }
    Ok(())
}

// Best values were found by trying all points. Here the best one is 5, and the dive finds it.
#[test]
fn covering(rt: HostRuntime) -> Result<(), Fail> {
    let problem = pairs(rt.alloc(), [3, 2, 4], RowSense::G)?;
    assert_eq!(rt; found_value(&rt, rt.alloc(), &problem, None)?, 5);
    Ok(())
}

// The best value is -5, and the dive finds it.
#[test]
fn packing(rt: HostRuntime) -> Result<(), Fail> {
    let problem = pairs(rt.alloc(), [-5, -4, -3], RowSense::L)?;
    assert_eq!(rt; found_value(&rt, rt.alloc(), &problem, None)?, -5);
    Ok(())
}

// The best value is 5, and the dive finds it.
#[test]
fn tasks(rt: HostRuntime) -> Result<(), Fail> {
    let problem = assignment(rt.alloc())?;
    assert_eq!(rt; found_value(&rt, rt.alloc(), &problem, None)?, 5);
    Ok(())
}

// The best value is -7. It is found near the best point. By costs, near a point outside the bounds whose
// nearest point is too heavy, and near one of another length, which counts as none, -6 is found.
#[test]
fn things(rt: HostRuntime) -> Result<(), Fail> {
    let alloc = rt.alloc();
    let problem = knapsack(alloc)?;
    let best = near_of(alloc, &[0, 1, 1, 0])?;
    assert_eq!(rt; found_value(&rt, alloc, &problem, Some(&best))?, -7);
    assert_eq!(rt; found_value(&rt, alloc, &problem, None)?, -6);
    let heavy = near_of(alloc, &[9, -9, 9, -9])?;
    assert_eq!(rt; found_value(&rt, alloc, &problem, Some(&heavy))?, -6);
    let short = near_of(alloc, &[0, 1, 1])?;
    assert_eq!(rt; found_value(&rt, alloc, &problem, Some(&short))?, -6);
    Ok(())
}

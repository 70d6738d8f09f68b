// Small problems, whose answers are compared with those that trying all points of the box gives.
use crate::answer_of;
use int_model::{ColumnPart, Direction, Model, Name, Parts, Row, RowSense, Terms};
use scenario_changes::{Answer, Changes, Problem};
use std::alloc::{AllocError, Global};
use std::test::Fail;

// A row of the table, with the sides that its sums have to lie between.
#[derive(Clone, Copy, Debug)]
struct Side {
    sense: RowSense,
    rhs: i64,
    range: Option<i64>,
    least: i64,
    most: i64,
}

fn sides() -> [Side; 8] {
    [
        make_side(RowSense::L, 4, None, i64::MIN, 4),
        make_side(RowSense::L, -5, None, i64::MIN, -5),
        make_side(RowSense::G, -1, None, -1, i64::MAX),
        make_side(RowSense::E, 2, None, 2, 2),
        make_side(RowSense::L, 3, Some(-2), 1, 3),
        make_side(RowSense::G, 0, Some(3), 0, 3),
        make_side(RowSense::E, 1, Some(-2), -1, 1),
        make_side(RowSense::E, 5, Some(2), 5, 7),
    ]
}

fn make_side(sense: RowSense, rhs: i64, range: Option<i64>, least: i64, most: i64) -> Side {
    Side {
        sense,
        rhs,
        range,
        least,
        most,
    }
}

const COSTS: [(i64, i64); 4] = [(1, 2), (-3, 2), (0, -1), (2, 2)];

const TERMS: [(i64, i64); 3] = [(2, 3), (-1, 2), (3, -3)];

fn column(alloc: Global, letter: u8, cost: i64) -> Result<ColumnPart, AllocError> {
    Ok(ColumnPart {
        name: Name::from_vec(vec![in alloc; letter]?),
        cost,
        low: Some(-2),
        high: Some(3),
        implied: false,
    })
}

// Two columns between -2 and 3, and one row.
fn problem_of(
    alloc: Global,
    direction: Direction,
    costs: (i64, i64),
    terms: (i64, i64),
    side: Side,
) -> Result<Problem, Fail> {
    let row = Row {
        name: Name::from_vec(vec![in alloc; b'r']?),
        sense: side.sense,
        rhs: side.rhs,
        range: side.range,
        terms: Terms::from_vec(vec![in alloc; (0, terms.0), (1, terms.1)]?),
    };
    let parts = Parts {
        columns: vec![in alloc;
            column(alloc, b'x', costs.0)?,
            column(alloc, b'y', costs.1)?,
        ]?,
        rows: vec![in alloc; row]?,
        constant: 0,
        direction,
    };
    let model = Model::build(alloc, parts)?;
    let changes = Changes::new(alloc, &model)?;
    Ok(Problem::new(alloc, model, changes)?)
}

fn dot(factors: (i64, i64), x: i64, y: i64) -> i64 {
    factors
        .0
        .saturating_mul(x)
        .saturating_add(factors.1.saturating_mul(y))
}

// The least value of a point whose row sum lies between the sides.
fn least_value(costs: (i64, i64), terms: (i64, i64), side: Side) -> Option<i64> {
    let mut best = None;
    for x in -2..=3 {
        for y in -2..=3 {
            let sum = dot(terms, x, y);
            let value = dot(costs, x, y);
            if sum < side.least || sum > side.most || best.is_some_and(|kept| kept <= value) {
                continue;
            }
            best = Some(value);
        }
    }
    best
}

// The value that the search finds, None where it finds the problem infeasible.
fn found_value(alloc: Global, problem: &Problem) -> Result<Option<i64>, AllocError> {
    let mut found = None;
    for s in 0..problem.count() {
        if let Answer::Optimal { value, .. } = answer_of(alloc, problem, s)? {
            found = Some(value);
        }
    }
    Ok(found)
}

#[test]
fn finds_what_trying_all_points_finds(rt: HostRuntime) -> Result<(), Fail> {
    let alloc = rt.alloc();
    for side in sides() {
        for terms in TERMS {
            for costs in COSTS {
                let problem = problem_of(alloc, Direction::Min, costs, terms, side)?;
                let best = least_value(costs, terms, side);
                assert_eq!(rt; found_value(alloc, &problem)?, best, "at {side:?}");
                let negated = (costs.0.saturating_neg(), costs.1.saturating_neg());
                let problem = problem_of(alloc, Direction::Max, negated, terms, side)?;
                assert_eq!(rt; found_value(alloc, &problem)?, best, "at {side:?}");
            }
        }
    }
    Ok(())
}

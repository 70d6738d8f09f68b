// A split at a wide column, next to the number near which a relaxation is least.
ghost use Rattle.std.specs.Prelude.{◌≡◌, ◌<◌, length};
ghost use Rattle.scenario_changes.specs.Problems.{problem as posed};

use crate::climbs::Climb;
use crate::remaining::Remaining;
use crate::splits::ONE;
use crate::standings::Standings;
use branching::Branch;
use int_model::{Model, PointBox};
use scenario_changes::Problem;
use std::alloc::{AllocError, Global};

// Widens intervals by those of a box.
fn widen(hull: &mut [(i32, i32)], part: &PointBox) {
    let lows = part.lows();
    let highs = part.highs();
    for j in 0..hull.len() {
        if j >= lows.len() || j >= highs.len() {
            return;
        }
        hull[j] = (hull[j].0.min(lows[j]), hull[j].1.max(highs[j]));
    }
}

// The hull of the boxes of the scenarios that are open.
fn open_hull(
    alloc: Global,
    problem: &Problem,
    remaining: &Remaining,
    standings: &Standings,
) -> Result<Vec<(i32, i32)>, AllocError> {
    let columns = problem.model().columns() as usize;
    let mut hull = vec![in alloc; (i32::MAX, i32::MIN); columns]?;
    let mut k = 0;
    for s in 0..problem.count() {
        if remaining.scenarios.contains(s) && k < remaining.boxes.len() {
            if standings.is_open(s) {
                widen(&mut hull, &remaining.boxes[k]);
            }
            k += 1;
        }
    }
    Ok(hull)
}

// The sum of a column's coefficients without signs.
fn size(model: &Model, column: u32) -> u128
    requires { column < length model.now.columns }
{
    let mut sum: u128 = 0;
    for &(_, coefficient) in model.column_terms(column) {
        sum = sum.saturating_add(u128::from(coefficient.unsigned_abs()));
    }
    sum
}

// How much a column weighs: its width times its cost and its coefficients. None where it is fixed.
fn weight(model: &Model, column: u32, cost: i64, interval: (i32, i32)) -> Option<u128>
    requires { column < length model.now.columns }
{
    if interval.0 >= interval.1 {
        return None;
    }
    let width = i64::from(interval.1).saturating_sub(i64::from(interval.0));
    let cost = u128::from(cost.unsigned_abs()).saturating_add(1);
    let size = size(model, column).saturating_add(1);
    let product = u128::from(width.unsigned_abs()).saturating_mul(cost);
    Some(product.saturating_mul(size))
}

// The whole number next to a near number, or the one below it where the column is cheaper there, such that
// both parts of the interval have numbers.
fn value_near(near: i64, cost: i64, interval: (i32, i32)) -> Option<i32> {
    let whole = near.saturating_add(ONE / 2).div_euclid(ONE);
    let value = if cost < 0 {
        whole.saturating_sub(1)
    } else {
        whole
    };
    let most = i64::from(interval.1).saturating_sub(1);
    match i32::try_from(value.min(most).max(i64::from(interval.0))) {
        Ok(value) => Some(value),
        Err(_) => None,
    }
}

/// A split at the column of the greatest weight, next to the near number of a climb.
pub(crate) fn split_wide(
    alloc: Global,
    problem: &Problem,
    remaining: &Remaining,
    standings: &Standings,
    climb: &Climb,
) -> Result<Option<Branch>, AllocError> {
    if climb.scenario >= problem.count() {
        return Ok(None);
    }
    let model = problem.model();
    let costs = problem.costs(climb.scenario);
    let hull = open_hull(alloc, problem, remaining, standings)?;
    let mut best = None;
    let mut greatest: u128 = 0;
    for column in 0..model.columns() {
        let j = column as usize;
        let Some(near) = climb.near.get(j) else {
            break;
        };
        if j >= costs.len() || j >= hull.len() {
            break;
        }
        if let Some(weight) = weight(model, column, costs[j], hull[j]) {
            if weight > greatest {
                if let Some(value) = value_near(*near, costs[j], hull[j]) {
                    best = Some(Branch { column, value });
                    greatest = weight;
                }
            }
        }
    }
    Ok(best)
}

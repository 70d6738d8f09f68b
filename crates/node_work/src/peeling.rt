// A split whose one part is dear for every scenario that is open.
ghost use Rattle.std.specs.Prelude.{◌≡◌, ◌<◌, length};
ghost use Rattle.scenario_changes.specs.Problems.{problem as posed};

use crate::multipliers::SCALE;
use crate::remaining::Remaining;
use crate::splits::multipliers;
use crate::standings::Standings;
use branching::Branch;
use dual_bounds::Vector;
use int_model::{Model, PointBox};
use scenario_changes::Problem;
use std::alloc::{AllocError, Global};

// The hull of a column's intervals, and the least and the greatest of its reduced costs.
#[derive(Clone, Copy)]
struct Range {
    low: i32,
    high: i32,
    least: i128,
    most: i128,
}

// The range of no scenario.
const NONE: Range = Range {
    low: i32::MAX,
    high: i32::MIN,
    least: i128::MAX,
    most: i128::MIN,
};

impl Range {
    fn with(self, low: i32, high: i32, reduced: i128) -> Range {
        Range {
            low: self.low.min(low),
            high: self.high.max(high),
            least: self.least.min(reduced),
            most: self.most.max(reduced),
        }
    }

    // What a unit of the column costs every scenario on the dear side, and the split next to the cheap
    // end. None where no side is dear for all.
    fn gain(self) -> Option<(i128, i32)> {
        if self.low >= self.high {
            return None;
        }
        let width = i128::from(self.high) - i128::from(self.low);
        if self.least > 0 {
            Some((self.least.saturating_mul(width), self.high - 1))
        } else if self.most < 0 {
            Some((self.most.saturating_neg().saturating_mul(width), self.low))
        } else {
            None
        }
    }
}

// The sum of a column's coefficients times the multipliers of their rows. It stops at the type's ends.
fn share(model: &Model, column: u32, multipliers: &[i64]) -> i128
    requires { column < length model.now.columns }
{
    let mut sum: i128 = 0;
    for &(row, coefficient) in model.column_terms(column) {
        if let Some(multiplier) = multipliers.get(row as usize) {
            let product = i128::from(coefficient).saturating_mul(i128::from(*multiplier));
            sum = sum.saturating_add(product);
        }
    }
    sum
}

// The share of each column.
fn shares(alloc: Global, model: &Model, vector: &Vector) -> Result<Vec<i128>, AllocError> {
    let multipliers = multipliers(alloc, model.rows(), vector)?;
    let mut shares = Vec::new(alloc);
    for column in 0..model.columns() {
        shares.push(share(model, column, &multipliers))?;
    }
    Ok(shares)
}

// Widens the ranges by the box and the reduced costs of a scenario.
fn widen(ranges: &mut [Range], part: &PointBox, costs: &[i64], shares: &[i128]) {
    let lows = part.lows();
    let highs = part.highs();
    for j in 0..ranges.len() {
        if j >= lows.len() || j >= highs.len() || j >= costs.len() || j >= shares.len() {
            return;
        }
        let cost = i128::from(costs[j]).saturating_mul(i128::from(SCALE));
        let reduced = cost.saturating_sub(shares[j]);
        ranges[j] = ranges[j].with(lows[j], highs[j], reduced);
    }
}

// The ranges over the scenarios that are open.
fn ranges(
    alloc: Global,
    problem: &Problem,
    remaining: &Remaining,
    standings: &Standings,
    shares: &[i128],
) -> Result<Vec<Range>, AllocError> {
    let mut ranges = vec![in alloc; NONE; shares.len()]?;
    let mut k = 0;
    for s in 0..problem.count() {
        if remaining.scenarios.contains(s) && k < remaining.boxes.len() {
            if standings.is_open(s) {
                widen(&mut ranges, &remaining.boxes[k], problem.costs(s), shares);
            }
            k += 1;
        }
    }
    Ok(ranges)
}

/// The split of the greatest gain: the one part has all numbers of a column but the cheapest, and every open
/// scenario pays the column's reduced cost there. None where no column costs all of them something.
pub(crate) fn peel(
    alloc: Global,
    problem: &Problem,
    remaining: &Remaining,
    standings: &Standings,
    vector: &Vector,
) -> Result<Option<Branch>, AllocError> {
    let shares = shares(alloc, problem.model(), vector)?;
    let ranges = ranges(alloc, problem, remaining, standings, &shares)?;
    let mut best = None;
    let mut greatest = 0;
    for column in 0..problem.model().columns() {
        let Some(range) = ranges.get(column as usize) else {
            break;
        };
        if let Some((gain, value)) = range.gain() {
            if gain > greatest {
                best = Some(Branch { column, value });
                greatest = gain;
            }
        }
    }
    Ok(best)
}

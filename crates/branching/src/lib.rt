//! Branching: where a box is split into two.
//!
//! What is promised of the choice is that both parts hold a point. `weight` has the rule by which it is
//! made, of which the proof says nothing.
#![tactic(auto)]

ghost use Rattle.std.specs.Prelude.{◌≡◌, ◌<◌, ◌≤◌, ◌≤ℤ◌, ◌<ℤ◌, length, false};
ghost use Rattle.int_model.specs.Limits.{IsBound};
ghost use Rattle.int_model.specs.Boxes.{interval_at, is_empty, is_single};

mod weight;

use crate::weight::{ends, weight};
use int_model::PointBox;
use live_sets::LiveSet;
use scenario_changes::Problem;

/// A split of a box: one part has the numbers up to `value` at `column`, the other the greater ones.
#[derive(Clone, Copy, Debug, PartialEq, Eq)]
pub struct Branch {
    pub column: u32,
    pub value: i32,
}

// The middle of an interval, rounded towards its low end.
fn middle(low: i32, high: i32) -> i32
    requires low { IsBound low }
    requires high { IsBound high }
    requires wide { low <ℤ high }
    ensures low { low ≤ℤ result }
    ensures high { result <ℤ high }
{
    low + (high - low) / 2
}

// The first column whose interval holds more than one number.
fn first_wide(bounds: &PointBox) -> u32
    requires few { length bounds.now ≤ 1000 }
    requires occupied { is_empty bounds.now ≡ false }
    requires several { is_single bounds.now ≡ false }
    ensures column { result < length bounds.now }
    ensures wide { (interval_at bounds.now result).low <ℤ (interval_at bounds.now result).high }
{
    for column in 0..bounds.lows().len() as u32 {
        let (low, high) = ends(bounds, column);
        if low < high {
            return column;
        }
    }
    unreachable!()
}

/// Chooses where a box that is neither empty nor a single point is split, so that both parts hold a
/// point: at the column of the greatest weight, the first of these, at the middle of its interval. A
/// column weighs more the wider its interval is, the greater its costs in the live scenarios are and
/// the greater its coefficients are. Members of `live` that are no scenarios count for nothing.
///
/// The same arguments give the same answer. It takes no memory. Its time is in proportion to the
/// columns times the scenarios and the model's terms.
pub fn choose(problem: &Problem, bounds: &PointBox, live: LiveSet) -> Branch
    requires columns { length bounds.now ≡ length problem.now.model.columns }
    requires occupied { is_empty bounds.now ≡ false }
    requires several { is_single bounds.now ≡ false }
    ensures column { result.column < length bounds.now }
    ensures low { (interval_at bounds.now result.column).low ≤ℤ result.value }
    ensures high { result.value <ℤ (interval_at bounds.now result.column).high }
{
    let columns = problem.model().columns();
    let first = first_wide(bounds);
    let mut column = first;
    let mut greatest = weight(problem, bounds, live, first);
    for other in first + 1..columns {
        let found = weight(problem, bounds, live, other);
        if found > greatest {
            column = other;
            greatest = found;
        }
    }
    let (low, high) = ends(bounds, column);
    Branch {
        column,
        value: middle(low, high),
    }
}

#[cfg(test)]
mod tests;

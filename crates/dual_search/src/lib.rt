//! A search for good vectors of multipliers: coordinate ascent of the dual function, in whole numbers.
//!
//! `specs/Totals.antt` defines the total of a vector over the boxes of several scenarios and the
//! neighbours of a vector. How much more is gained than the contract says is claimed by nothing.
#![tactic(auto)]

ghost use Rattle.std.specs.Prelude.{◌≡◌, ◌<◌, ◌≤◌, ◌≤ℤ◌, length, All, IfOk};
ghost use Rattle.scenario_changes.specs.Problems.{problem as posed};
ghost use Rattle.dual_bounds.specs.Vectors.{RowsBelow};
ghost use Rattle.dual_search.specs.Totals.{total, IsAscended};

mod ascent;
mod breakpoints;
mod reduced_costs;

use crate::ascent::Ascent;
use crate::breakpoints::Breakpoints;
use dual_bounds::Vector;
use int_model::{Model, PointBox};
use live_sets::LiveSet;
use scenario_changes::Problem;
use std::alloc::{AllocError, Global};

// The most terms of a row.
fn longest_row(model: &Model) -> usize
    ensures { result ≤ 1000 }
{
    let mut longest = 0;
    for row in 0..model.rows() {
        longest = model.row(row).terms.len().max(longest);
    }
    longest
}

/// Ascends from a vector by moving the multiplier of one row at a time, to a vector whose total over
/// the live scenarios, each on its box, is no less. It is greater where some neighbour of the start has
/// a greater total. The boxes stand in the order of the scenarios.
///
/// A row costs its terms times the live scenarios, and where its multiplier moves the sorting of as
/// many breakpoints. Memory is in proportion to the rows, and to the columns times the live scenarios.
pub fn search(
    alloc: Global,
    problem: &Problem,
    live: LiveSet,
    boxes: &[PointBox],
    start: &Vector,
) -> Result<Vector, AllocError>
    requires live { All (λ s. s < length (posed problem.now).scenarios) live }
    requires boxes { length boxes.now ≡ length live }
    requires columns { All (λ b. length b ≡ length problem.now.model.columns) boxes.now }
    requires rows { RowsBelow (length problem.now.model.rows) start.now.entries }
    ensures scale { IfOk result (λ v. v.scale ≡ start.now.scale) }
    ensures rows { IfOk result (λ v. RowsBelow (length problem.now.model.rows) v.entries) }
    ensures least { IfOk result (λ v. total (posed problem.now) live boxes.now start.now ≤ℤ total (posed problem.now) live boxes.now v) }
    ensures greater { IfOk result (λ v. IsAscended (posed problem.now) live boxes.now start.now v) }
{
    let mut ascent = Ascent::new(alloc, problem, live, start)?;
    let room = longest_row(problem.model()) * boxes.len();
    let mut breakpoints = Breakpoints::new(alloc, room)?;
    ascent.ascend(problem, boxes, &mut breakpoints)?;
    let vector = ascent.vector(alloc)?;
    Ok(vector)
}

#[cfg(test)]
mod tests;

// Vectors of multipliers for the scenarios that remain.
ghost use Rattle.std.specs.Prelude.{◌≡◌, ◌<◌, ◌≤◌, ◌^◌, length, unsigned_abs, All, IfOk};
ghost use Rattle.scenario_changes.specs.Problems.{problem as posed, program_at};
ghost use Rattle.dual_bounds.specs.Shared.{AreShares};
ghost use Rattle.dual_bounds.specs.Vectors.{RowsBelow, program_sum};
ghost use Rattle.dual_search.specs.Totals.{total};
ghost use Rattle.node_work.specs.Probes.{IsAscent, no_entries};

use crate::remaining::Remaining;
use dual_bounds::{Shares, Vector, evaluate_with};
use dual_search::search;
use int_model::PointBox;
use scenario_changes::Problem;
use std::alloc::{AllocError, Global};

/// The scale of all vectors of multipliers that are made here.
pub(crate) const SCALE: u32 = 1 << 12;

/// The vector without entries.
pub(crate) fn without_entries(alloc: Global) -> Result<Vector, AllocError>
    ensures { IfOk result (λ v. v ≡ no_entries 4096) }
{
    match Vector::new(alloc, SCALE, &[]) {
        Ok(vector) => Ok(vector),
        Err(_) => Err(AllocError),
    }
}

/// The sum of a vector for a scenario in a box.
pub(crate) fn sum_of(
    problem: &Problem,
    s: u32,
    part: &PointBox,
    vector: &Vector,
    shares: &Shares,
) -> i128
    requires shares { AreShares problem.now.model vector.now.entries shares.now }
    requires scenario { s < length (posed problem.now).scenarios }
    requires columns { length part.now ≡ length problem.now.model.columns }
    requires rows { RowsBelow (length problem.now.model.rows) vector.now.entries }
    ensures value { result ≡ program_sum (program_at (posed problem.now) s) vector.now part.now }
    ensures limit { unsigned_abs result ≤ 2 ^ 115 }
{
    evaluate_with(
        shares,
        problem.model(),
        problem.costs(s),
        problem.ends(s),
        vector,
        part,
    )
}

// The total of a vector over the remaining scenarios.
fn total_of(problem: &Problem, remaining: &Remaining, vector: &Vector) -> i128
    requires count { length remaining.now.boxes.items ≡ length remaining.now.scenarios }
    requires scenarios { All (λ s. s < length (posed problem.now).scenarios) remaining.now.scenarios }
    requires columns { All (λ b. length b ≡ length problem.now.model.columns) remaining.now.boxes.items }
    requires rows { RowsBelow (length problem.now.model.rows) vector.now.entries }
    ensures { result ≡ total (posed problem.now) remaining.now.scenarios remaining.now.boxes.items vector.now }
{
    let _few = remaining.scenarios.count();
    let shares = Shares::of(problem.model(), vector);
    let mut sum = 0;
    let mut k = 0;
    for s in remaining.scenarios.iter() {
        sum += sum_of(problem, s, &remaining.boxes[k], vector, &shares);
        k += 1;
    }
    sum
}

/// A vector whose total over the remaining scenarios is at least that of the vector without entries, and
/// greater where some neighbour of that has a greater one: the candidate, if its own total is greater,
/// else what a search finds.
pub(crate) fn first_vector(
    alloc: Global,
    problem: &Problem,
    remaining: &Remaining,
    candidate: Vector,
) -> Result<Vector, AllocError>
    requires count { length remaining.now.boxes.items ≡ length remaining.now.scenarios }
    requires scenarios { All (λ s. s < length (posed problem.now).scenarios) remaining.now.scenarios }
    requires columns { All (λ b. length b ≡ length problem.now.model.columns) remaining.now.boxes.items }
    requires scale { candidate.scale ≡ 4096 }
    requires rows { RowsBelow (length problem.now.model.rows) candidate.entries }
    ensures rows { IfOk result (λ v. RowsBelow (length problem.now.model.rows) v.entries) }
    ensures ascent { IfOk result (IsAscent (posed problem.now) remaining.now.scenarios remaining.now.boxes.items) }
{
    let start = without_entries(alloc)?;
    let least = total_of(problem, remaining, &start);
    if total_of(problem, remaining, &candidate) > least {
        return Ok(candidate);
    }
    search(
        alloc,
        problem,
        remaining.scenarios,
        &remaining.boxes,
        &start,
    )
}

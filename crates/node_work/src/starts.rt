// The vector that a climb starts from.
ghost use Rattle.std.specs.Prelude.{◌≡◌, ◌<◌, true, length, IfOk, IfSome};
ghost use Rattle.scenario_changes.specs.Problems.{problem as posed};
ghost use Rattle.dual_bounds.specs.Vectors.{RowsBelow};
ghost use Rattle.certs.specs.Trees.{vector_within};

use crate::multipliers::{SCALE, sum_of, without_entries};
use bb_core::Work;
use certs::Vectors;
use dual_bounds::{Shares, Vector};
use int_model::PointBox;
use scenario_changes::Problem;
use std::alloc::{AllocError, Global};

// Whether the entries have rows of the model.
fn has_rows(vector: &Vector, rows: u32) -> bool
    ensures { result ≡ vector_within rows vector.now }
{
    vector.entries().iter().all(|entry| entry.0 < rows)
}

// Whether a vector has the scale that is used here and rows of the model.
#[tactic(auto, using(crate::proofs::FitLaws::vector_rows))]
fn is_fit(problem: &Problem, vector: &Vector) -> bool
    ensures scale { result ≡ true → vector.now.scale ≡ 4096 }
    ensures rows { result ≡ true → RowsBelow (length problem.now.model.rows) vector.now.entries }
{
    if vector.scale() != SCALE {
        return false;
    }
    has_rows(vector, problem.model().rows())
}

/// A vector with the same scale and entries.
pub(crate) fn copy_of(alloc: Global, vector: &Vector) -> Result<Vector, AllocError>
    ensures { IfOk result (λ v. v ≡ vector.now) }
{
    match Vector::new(alloc, vector.scale(), vector.entries()) {
        Ok(copy) => Ok(copy),
        Err(_) => Err(AllocError),
    }
}

// The sum of a vector for a scenario in a box, None where the vector doesn't fit.
fn fit_sum(problem: &Problem, s: u32, part: &PointBox, vector: &Vector) -> Option<i128>
    requires scenario { s < length (posed problem.now).scenarios }
    requires columns { length part.now ≡ length problem.now.model.columns }
    ensures { IfSome result (λ sum. vector.now.scale ≡ 4096) }
{
    if is_fit(problem, vector) {
        let shares = Shares::of(problem.model(), vector);
        Some(sum_of(problem, s, part, vector, &shares))
    } else {
        None
    }
}

/// The vector among these that fits and has the greatest sum for a scenario in a box, if that is greater
/// than the sum of the start, else the start. The later one of two with the same sum.
pub(crate) fn better_start<'a>(
    problem: &Problem,
    s: u32,
    part: &PointBox,
    vectors: &'a Vectors,
    start: &'a Vector,
) -> &'a Vector
    requires scenario { s < length (posed problem.now).scenarios }
    requires columns { length part.now ≡ length problem.now.model.columns }
    requires scale { start.now.scale ≡ 4096 }
    ensures { result.now.scale ≡ 4096 }
{
    let mut best = start;
    let mut greatest = fit_sum(problem, s, part, start).unwrap_or(i128::MIN);
    for k in 0..vectors.len() {
        if let Some(vector) = vectors.get(k) {
            if let Some(sum) = fit_sum(problem, s, part, vector) {
                if sum >= greatest {
                    best = vector;
                    greatest = sum;
                }
            }
        }
    }
    best
}

/// The first vector of the work's hint, if it fits, else the one without entries.
pub(crate) fn hinted(alloc: Global, problem: &Problem, work: &Work) -> Result<Vector, AllocError>
    ensures scale { IfOk result (λ v. v.scale ≡ 4096) }
    ensures rows { IfOk result (λ v. RowsBelow (length problem.now.model.rows) v.entries) }
{
    if let Some(hint) = &work.hint {
        if let Some(vector) = hint.vectors.get(0) {
            if is_fit(problem, vector) {
                return copy_of(alloc, vector);
            }
        }
    }
    without_entries(alloc)
}

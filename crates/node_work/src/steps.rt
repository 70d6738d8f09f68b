// Steps of bound tightening for the live scenarios of a node.
ghost use Rattle.std.specs.Prelude.{◌≡◌, ◌≤◌, ◌<◌, ◌*◌, ◌^◌, length, All, IfOk, IfSome, unsigned_abs};
ghost use Rattle.int_model.specs.Ends.{EndsWithin};
ghost use Rattle.tighten.specs.Steps.{AreEnds, IsStep};
ghost use Rattle.scenario_changes.specs.Problems.{problem as posed};

use int_model::{Ends, PointBox};
use live_sets::LiveSet;
use scenario_changes::Problem;
use std::alloc::{AllocError, Global};
use tighten::{Step, propose};

// The greater of two upper ends, None where one is absent.
fn greater_end(first: Option<i64>, second: Option<i64>) -> Option<i64>
    requires first { IfSome first (λ z. unsigned_abs z ≤ 2 * 10 ^ 18) }
    requires second { IfSome second (λ z. unsigned_abs z ≤ 2 * 10 ^ 18) }
    ensures { IfSome result (λ z. unsigned_abs z ≤ 2 * 10 ^ 18) }
{
    match (first, second) {
        (Some(first), Some(second)) => Some(first.max(second)),
        _ => None,
    }
}

// The lesser of two lower ends, None where one is absent.
fn lesser_end(first: Option<i64>, second: Option<i64>) -> Option<i64>
    requires first { IfSome first (λ z. unsigned_abs z ≤ 2 * 10 ^ 18) }
    requires second { IfSome second (λ z. unsigned_abs z ≤ 2 * 10 ^ 18) }
    ensures { IfSome result (λ z. unsigned_abs z ≤ 2 * 10 ^ 18) }
{
    match (first, second) {
        (Some(first), Some(second)) => Some(first.min(second)),
        _ => None,
    }
}

// The narrowest ends that two rows' ends lie between.
fn both_ends(first: Ends, second: Ends) -> Ends
    requires first { EndsWithin (2 * 10 ^ 18) first }
    requires second { EndsWithin (2 * 10 ^ 18) second }
    ensures { EndsWithin (2 * 10 ^ 18) result }
{
    Ends {
        lower: lesser_end(first.lower, second.lower),
        upper: greater_end(first.upper, second.upper),
    }
}

// Widens the ends of each row so that they allow what a scenario's do.
fn widen(problem: &Problem, s: u32, ends: &mut [Ends])
    requires scenario { s < length (posed problem.now).scenarios }
    requires ends { AreEnds problem.now.model ends.old }
    ensures { AreEnds problem.now.model ends.new }
{
    let others = problem.ends(s);
    for i in 0..ends.len() {
        ends[i] = both_ends(ends[i], others[i]);
    }
}

// For each row the narrowest ends that allow what some live scenario's do.
fn hull_ends(alloc: Global, problem: &Problem, live: LiveSet) -> Result<Vec<Ends>, AllocError>
    requires { All (λ s. s < length (posed problem.now).scenarios) live }
    ensures { IfOk result (λ ends. AreEnds problem.now.model ends.items) }
{
    let _count = problem.count();
    let first = live.iter().next().unwrap_or(0);
    let mut ends = problem.ends(first).to_vec(alloc)?;
    for s in live.iter() {
        widen(problem, s, &mut ends);
    }
    Ok(ends)
}

/// Steps that narrow the box for all live scenarios.
pub(crate) fn steps_over(
    alloc: Global,
    problem: &Problem,
    live: LiveSet,
    bounds: &PointBox,
) -> Result<Vec<Step>, AllocError>
    requires live { All (λ s. s < length (posed problem.now).scenarios) live }
    requires columns { length bounds.now ≡ length problem.now.model.columns }
    ensures steps { IfOk result (λ steps. All (IsStep problem.now.model) steps.items) }
    ensures few { IfOk result (λ steps. length steps.items ≤ 128) }
{
    let ends = hull_ends(alloc, problem, live)?;
    let mut steps = Vec::new(alloc);
    propose(alloc, problem.model(), &ends, bounds, &mut steps)?;
    Ok(steps)
}

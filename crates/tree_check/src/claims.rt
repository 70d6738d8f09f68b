// The claims of a log.
ghost use Rattle.std.specs.Prelude.{◌≡◌, ◌<◌, true, false, length, Some, IfSome, None};
ghost use Rattle.scenario_changes.specs.Answers.{HasValue};
ghost use Rattle.scenario_changes.specs.Problems.{problem as posed, program_at};
ghost use Rattle.certs.specs.Claims as spec;
ghost use Rattle.tree_check.specs.Checks.{AllHold, BoundHolds, IsFirstFault, PointHolds};

use certs::Level;
use int_model::Point;
use scenario_changes::{Answer, Problem};

/// The level that an answer claims.
pub(crate) fn claimed_level(answer: &Answer) -> Level
    ensures { result ≡ spec.claimed_level answer.now }
{
    match answer {
        Answer::Infeasible => Level::Inf,
        Answer::Optimal { value, .. } => Level::Value(*value),
        Answer::Limit { bound, .. } => Level::Value(*bound),
    }
}

// Whether a point is feasible in a scenario and has this value.
fn has_value(problem: &Problem, s: u32, point: &Point, value: i64) -> bool
    requires { s < length (posed problem.now).scenarios }
    ensures yes { result ≡ true → HasValue (program_at (posed problem.now) s) point.now value }
    ensures no { result ≡ false → HasValue (program_at (posed problem.now) s) point.now value → ⊥ }
{
    let _count = problem.count();
    let x = point.as_slice();
    problem.meets(s, x) && problem.value(s, x) == value
}

// Whether the point that is claimed, if any, is feasible and has the claimed value.
fn point_holds(problem: &Problem, s: u32, answer: &Answer) -> bool
    requires { s < length (posed problem.now).scenarios }
    ensures yes { result ≡ true → PointHolds (posed problem.now) s answer.now }
    ensures no { result ≡ false → PointHolds (posed problem.now) s answer.now → ⊥ }
{
    match answer {
        Answer::Infeasible => true,
        Answer::Optimal { point, value } => has_value(problem, s, point, *value),
        Answer::Limit { best: None, .. } => true,
        Answer::Limit {
            best: Some((point, value)),
            ..
        } => has_value(problem, s, point, *value),
    }
}

// Whether the bound that is claimed beside a point lies below the point's value.
fn bound_holds(answer: &Answer) -> bool
    ensures yes { result ≡ true → BoundHolds answer.now }
    ensures no { result ≡ false → BoundHolds answer.now → ⊥ }
{
    match answer {
        Answer::Infeasible => true,
        Answer::Optimal { .. } => true,
        Answer::Limit { best: None, .. } => true,
        Answer::Limit {
            best: Some((_, value)),
            bound,
        } => bound < value,
    }
}

/// The first scenario whose claimed point isn't feasible or hasn't the claimed value.
pub(crate) fn wrong_point(problem: &Problem, answers: &[Answer]) -> Option<u32>
    requires { length answers.now ≡ length (posed problem.now).scenarios }
    ensures some { IfSome result (IsFirstFault answers.now (PointHolds (posed problem.now))) }
    ensures none { result ≡ None → AllHold answers.now (PointHolds (posed problem.now)) }
{
    for s in 0..problem.count() {
        if !point_holds(problem, s, &answers[s as usize]) {
            return Some(s);
        }
    }
    None
}

/// The first scenario whose claimed bound isn't below the claimed value.
pub(crate) fn wrong_bound(problem: &Problem, answers: &[Answer]) -> Option<u32>
    requires { length answers.now ≡ length (posed problem.now).scenarios }
    ensures some { IfSome result (IsFirstFault answers.now (λ j a. BoundHolds a)) }
    ensures none { result ≡ None → AllHold answers.now (λ j a. BoundHolds a) }
{
    for s in 0..problem.count() {
        if !bound_holds(&answers[s as usize]) {
            return Some(s);
        }
    }
    None
}

// Whether cuts are at most the values of points.
ghost use Rattle.std.specs.Prelude.{◌≡◌, true, IsTrue, IfSome, slice_index_or, None};
ghost use Rattle.int_model.specs.Programs.{value};
ghost use Rattle.scenario_changes.specs.Problems.{problem as posed, program_at};
ghost use Rattle.certs.specs.Levels.{cap_level, level_le};
ghost use Rattle.certs.specs.declared.level.Level.TheVariants.{Value};
ghost use Rattle.node_work.specs.Stayers.{CutsAreReached};

use certs::Level;
use int_model::Point;
use scenario_changes::Problem;

// Whether a scenario's cut is at most a value.
fn is_at_most(cuts: &[Option<i64>], s: u32, value: i64) -> bool
    ensures { result ≡ true → IsTrue (level_le (cap_level (slice_index_or cuts.now s None)) (Value value)) }
{
    let k = s as usize;
    if k >= cuts.len() {
        return false;
    }
    Level::Value(value).reaches(cuts[k])
}

// The value of a point, None where it isn't one of the scenario.
fn value_of(problem: &Problem, s: u32, x: &[i32]) -> Option<i64>
    ensures { IfSome result (λ v. v ≡ value (program_at (posed problem.now) s) x.now) }
{
    if s >= problem.count() {
        return None;
    }
    if !problem.meets(s, x) {
        return None;
    }
    Some(problem.value(s, x))
}

// Whether a point is one of the scenario, with a value of at least the scenario's cut.
fn is_reached(problem: &Problem, cuts: &[Option<i64>], s: u32, x: &[i32]) -> bool
    ensures { result ≡ true → IsTrue (level_le (cap_level (slice_index_or cuts.now s None)) (Value (value (program_at (posed problem.now) s) x.now))) }
{
    match value_of(problem, s, x) {
        Some(value) => is_at_most(cuts, s, value),
        None => false,
    }
}

/// Whether each cut is at most the values of the points that were found for its scenario.
pub(super) fn are_reached(problem: &Problem, found: &[(u32, Point)], cuts: &[Option<i64>]) -> bool
    ensures { result ≡ true → CutsAreReached (posed problem.now) found.now cuts.now }
{
    for i in 0..found.len() {
        let entry = &found[i];
        if !is_reached(problem, cuts, entry.0, entry.1.as_slice()) {
            return false;
        }
    }
    true
}

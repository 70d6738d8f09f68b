// The level where a search begins.
ghost use Rattle.std.specs.Prelude.{◌≡◌, ◌≤◌, ◌<◌, ◌^◌, length, All, unsigned_abs};
ghost use Rattle.int_model.specs.Limits.{IsBound};
ghost use Rattle.int_model.specs.Boxes.{box_of, is_empty};
ghost use Rattle.int_model.specs.Programs.{CostsWithin};
ghost use Rattle.scenario_changes.specs.Problems.{program_at, root_box};
ghost use Rattle.scenario_changes.specs.Problems as problems;
ghost use Rattle.certs.specs.Costs.{least_cost};
ghost use Rattle.certs.specs.Verdicts as spec;

use crate::Level;
use activity::least_of;
use scenario_changes::Problem;

// Whether some high is below its low.
fn has_empty(lows: &[i32], highs: &[i32]) -> bool
    requires { length lows.now ≡ length highs.now }
    ensures { result ≡ is_empty (box_of lows.now highs.now) }
{
    for j in 0..lows.len() {
        if highs[j] < lows[j] {
            return true;
        }
    }
    false
}

// The least sum of the costs times numbers of the box with these ends.
fn least_cost(costs: &[i64], lows: &[i32], highs: &[i32]) -> i64
    requires few { length costs.now ≤ 1000 }
    requires low_count { length lows.now ≡ length costs.now }
    requires high_count { length highs.now ≡ length costs.now }
    requires costs { CostsWithin (10 ^ 9) costs.now }
    requires lows { All IsBound lows.now }
    requires highs { All IsBound highs.now }
    ensures value { result ≡ least_cost costs.now (box_of lows.now highs.now) }
    ensures limit { unsigned_abs result ≤ 10 ^ 18 }
{
    let mut sum = 0;
    for j in 0..costs.len() {
        sum += least_of(costs[j], lows[j], highs[j]);
    }
    sum
}

/// The level that scenario s begins a search with: the least value that its bounds alone allow, or `Inf`
/// where they leave no point. It takes no memory.
pub fn start_level(problem: &Problem, s: u32) -> Level
    requires { s < length (problems.problem problem.now).scenarios }
    ensures { result ≡ spec.start_level (root_box (problems.problem problem.now).scenarios) (program_at (problems.problem problem.now) s) }
{
    let _count = problem.count();
    let lows = problem.lows(s);
    let highs = problem.highs(s);
    if has_empty(lows, highs) {
        return Level::Inf;
    }
    Level::Value(least_cost(problem.costs(s), lows, highs) + problem.constant())
}

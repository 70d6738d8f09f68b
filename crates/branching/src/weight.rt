// How promising a split at a column is.
ghost use Rattle.std.specs.Prelude.{◌≡◌, ◌<◌, ◌≤◌, ◌*◌, ◌+◌, ◌^◌, ◌<ℤ◌, length};
ghost use Rattle.int_model.specs.Limits.{IsBound};
ghost use Rattle.int_model.specs.Boxes.{interval_at};
ghost use Rattle.scenario_changes.specs.Problems as spec;

use int_model::{Model, PointBox};
use live_sets::LiveSet;
use scenario_changes::Problem;

/// The low and the high end of a column's interval.
pub(crate) fn ends(bounds: &PointBox, column: u32) -> (i32, i32)
    requires { column < length bounds.now }
    ensures low { result.0 ≡ (interval_at bounds.now column).low }
    ensures high { result.1 ≡ (interval_at bounds.now column).high }
    ensures low_limit { IsBound result.0 }
    ensures high_limit { IsBound result.1 }
{
    let place = column as usize;
    (bounds.lows()[place], bounds.highs()[place])
}

// The absolute cost of a column in a scenario.
fn absolute_cost(problem: &Problem, s: u32, column: u32) -> u64
    requires scenario { s < length (spec.problem problem.now).scenarios }
    requires column { column < length problem.now.model.columns }
    ensures { result ≤ 10 ^ 9 }
{
    problem.costs(s)[column as usize].unsigned_abs()
}

// The greatest absolute cost of a column in the live scenarios, 0 where there are none.
fn greatest_cost(problem: &Problem, live: LiveSet, column: u32) -> u64
    requires { column < length problem.now.model.columns }
    ensures { result ≤ 10 ^ 9 }
{
    let mut greatest = 0;
    for s in 0..problem.count() {
        if live.contains(s) {
            greatest = absolute_cost(problem, s, column).max(greatest);
        }
    }
    greatest
}

// The sum of the absolute coefficients of a column.
fn coefficient_sum(model: &Model, column: u32) -> u64
    requires { column < length model.now.columns }
    ensures { result ≤ 10 ^ 12 }
{
    // This call tells that the model keeps the limits.
    let _rows = model.rows();
    let mut sum = 0;
    for &(_, coefficient) in model.column_terms(column) {
        sum += coefficient.unsigned_abs();
    }
    sum
}

// The product of a width, a cost and a sum of coefficients. A column without costs or terms counts too.
fn product(width: u32, cost: u64, coefficients: u64) -> u128
    requires width { width ≤ 2 * 10 ^ 6 }
    requires cost { cost ≤ 10 ^ 9 }
    requires coefficients { coefficients ≤ 10 ^ 12 }
    ensures { result ≡ width * (cost + 1) * (coefficients + 1) }
{
    u128::from(width) * (u128::from(cost) + 1) * (u128::from(coefficients) + 1)
}

/// The weight of a split at a column, 0 where its interval doesn't hold two numbers.
pub(crate) fn weight(problem: &Problem, bounds: &PointBox, live: LiveSet, column: u32) -> u128
    requires columns { length bounds.now ≡ length problem.now.model.columns }
    requires column { column < length bounds.now }
    ensures { 0 < result → (interval_at bounds.now column).low <ℤ (interval_at bounds.now column).high }
{
    let (low, high) = ends(bounds, column);
    if high <= low {
        return 0;
    }
    let cost = greatest_cost(problem, live, column);
    let coefficients = coefficient_sum(problem.model(), column);
    product(high.abs_diff(low), cost, coefficients)
}

// The reduced costs of one scenario, kept while multipliers move.
ghost use Rattle.std.specs.Prelude.{◌≡◌, ◌^◌, ◌<◌, ◌≤◌, ◌+◌, ◌-ℤ◌, ◌*ℤ◌, ℕ, pos, unsigned_abs, length, IfOk};
ghost use Rattle.int_model.specs.Integers.{int_at, int_sum_by};
ghost use Rattle.int_model.specs.Limits.{IsBound, IsEntry};
ghost use Rattle.int_model.specs.Programs.{AreTerms, CostsWithin};
ghost use Rattle.int_model.specs.RowSums as sums;
ghost use Rattle.dual_bounds.specs.Vectors as vectors;
ghost use Rattle.dual_bounds.specs.Counting.{IsMultiplier};
ghost use Rattle.dual_bounds.specs.Counting as merging;
ghost use Rattle.dual_search.specs.Gains.{AreSmall};
ghost use Rattle.dual_search.specs.Gains as gains;

use dual_bounds::{counting_multiplier, end_product, least_product};
use int_model::{Ends, PointBox};
use std::alloc::{AllocError, Global};

/// The reduced cost of each column in one scenario: the cost times the scale, less what the multipliers
/// times the coefficients are.
#[derive(Drop)]
pub struct ReducedCosts {
    costs: Vec<i128>,
}

// By how much the multiplier that counts grows.
fn counting_step(ends: &[Ends], row: u32, from: i64, to: i64) -> i64
    requires row { row < length ends.now }
    requires start { IsMultiplier from }
    requires end { IsMultiplier to }
    ensures value { result ≡ merging.counting ends.now (row, to) -ℤ merging.counting ends.now (row, from) }
    ensures limit { unsigned_abs result ≤ 2 ^ 41 }
{
    counting_multiplier(ends, row, to) - counting_multiplier(ends, row, from)
}

// A reduced cost where the multiplier of a row with this coefficient has grown by a step.
fn moved(cost: i128, step: i64, coefficient: i64) -> i128
    requires cost { unsigned_abs cost ≤ 2 ^ 83 }
    requires step { unsigned_abs step ≤ 2 ^ 41 }
    requires coefficient { IsEntry coefficient }
    ensures value { result ≡ cost -ℤ step *ℤ coefficient }
    ensures limit { unsigned_abs result ≤ 2 ^ 84 }
{
    cost - i128::from(step) * i128::from(coefficient)
}

// By how much the least product of one column grows.
fn column_gain(cost: i128, step: i64, coefficient: i64, low: i32, high: i32) -> i128
    requires cost { unsigned_abs cost ≤ 2 ^ 80 }
    requires step { unsigned_abs step ≤ 2 ^ 41 }
    requires coefficient { IsEntry coefficient }
    requires low { IsBound low }
    requires high { IsBound high }
    ensures value { result ≡ sums.least_product (cost -ℤ step *ℤ coefficient) (record { low = low; high = high }) -ℤ sums.least_product cost (record { low = low; high = high }) }
    ensures limit { unsigned_abs result ≤ 2 ^ 105 }
{
    least_product(moved(cost, step, coefficient), low, high) - least_product(cost, low, high)
}

// A cost times the scale.
fn scaled(scale: u32, cost: i64) -> i128
    requires { IsEntry cost }
    ensures { result ≡ pos scale *ℤ cost }
{
    i128::from(scale) * i128::from(cost)
}

// By how much the columns' part of a sum grows, where the row's multiplier that counts grows by a step.
fn columns_gain(costs: &[i128], terms: &[(u32, i64)], step: i64, bounds: &PointBox) -> i128
    requires terms { AreTerms 0 (length costs.now) terms.now }
    requires few { length terms.now ≤ 1000 }
    requires small { AreSmall costs.now }
    requires columns { length bounds.now ≡ length costs.now }
    requires step { unsigned_abs step ≤ 2 ^ 41 }
    ensures value { result ≡ int_sum_by (gains.column_gain step costs.now bounds.now) terms.now }
    ensures limit { unsigned_abs result ≤ 2 ^ 115 }
{
    if step == 0 {
        return 0;
    }
    let lows = bounds.lows();
    let highs = bounds.highs();
    let mut gain = 0;
    for &(column, coefficient) in terms {
        let place = column as usize;
        gain += column_gain(costs[place], step, coefficient, lows[place], highs[place]);
    }
    gain
}

// Lets the row's multiplier that counts grow by a step.
fn shift_columns(costs: &mut [i128], terms: &[(u32, i64)], step: i64)
    requires terms { AreTerms 0 (length costs.old) terms.now }
    requires few { length terms.now ≤ 1000 }
    requires small { AreSmall costs.old }
    requires step { unsigned_abs step ≤ 2 ^ 41 }
    ensures { (j : ℕ) → int_at costs.new j ≡ int_at costs.old j -ℤ step *ℤ sums.coefficient j terms.now }
{
    for &(column, coefficient) in terms {
        let place = column as usize;
        costs[place] = moved(costs[place], step, coefficient);
    }
}

impl ReducedCosts {
    /// The costs times the scale, where no multiplier counts.
    pub fn new(alloc: Global, scale: u32, costs: &[i64]) -> Result<ReducedCosts, AllocError>
        requires { CostsWithin (10 ^ 9) costs.now }
        ensures count { IfOk result (λ r. length r.costs.items ≡ length costs.now) }
        ensures values { IfOk result (λ r. (j : ℕ) → j < length costs.now → int_at r.costs.items j ≡ pos scale *ℤ int_at costs.now j) }
    {
        let mut reduced = Vec::with_capacity(alloc, costs.len())?;
        for &cost in costs {
            reduced.push(scaled(scale, cost))?;
        }
        Ok(ReducedCosts { costs: reduced })
    }

    /// The reduced costs by column.
    pub fn costs(&self) -> &[i128]
        ensures { result.now ≡ self.now.costs.items }
    {
        &self.costs
    }

    /// By how much the scenario's sum over a box grows where a row's multiplier becomes another.
    pub fn gain(
        &self,
        terms: &[(u32, i64)],
        ends: &[Ends],
        bounds: &PointBox,
        row: u32,
        from: i64,
        to: i64,
    ) -> i128
        requires terms { AreTerms 0 (length self.now.costs.items) terms.now }
        requires few { length terms.now ≤ 1000 }
        requires small { AreSmall self.now.costs.items }
        requires columns { length bounds.now ≡ length self.now.costs.items }
        requires row { row < length ends.now }
        requires start { IsMultiplier from }
        requires end { IsMultiplier to }
        ensures value { result ≡ gains.gain terms.now ends.now self.now.costs.items bounds.now row from to }
        ensures limit { unsigned_abs result ≤ 2 ^ 116 }
    {
        let of_ends = end_product(ends, row, to) - end_product(ends, row, from);
        let step = counting_step(ends, row, from, to);
        of_ends + columns_gain(&self.costs, terms, step, bounds)
    }

    /// Makes a row's multiplier another one.
    pub fn shift(&mut self, terms: &[(u32, i64)], ends: &[Ends], row: u32, from: i64, to: i64)
        requires terms { AreTerms 0 (length self.old.costs.items) terms.now }
        requires few { length terms.now ≤ 1000 }
        requires small { AreSmall self.old.costs.items }
        requires row { row < length ends.now }
        requires start { IsMultiplier from }
        requires end { IsMultiplier to }
        ensures count { length self.new.costs.items ≡ length self.old.costs.items }
        ensures values { (j : ℕ) → int_at self.new.costs.items j ≡ int_at self.old.costs.items j -ℤ (merging.counting ends.now (row, to) -ℤ merging.counting ends.now (row, from)) *ℤ sums.coefficient j terms.now }
    {
        let step = counting_step(ends, row, from, to);
        shift_columns(&mut self.costs, terms, step);
    }
}

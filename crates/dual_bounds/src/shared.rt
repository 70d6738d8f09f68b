// Shares of a vector that serve many scenarios.
ghost use Rattle.std.specs.Prelude.{◌≡◌, ◌<◌, ◌≤◌, ◌^◌, ◌-ℤ◌, ◌*ℤ◌, ℕ, ℤ, List, Some, None, true, pos, unsigned_abs, length, slice_index_or, IfSome, MatchOption, ⊤};
ghost use Rattle.int_model.specs.Limits.{IsBound, IsEntry};
ghost use Rattle.int_model.specs.Programs.{CostsWithin};
ghost use Rattle.int_model.specs.RowSums as sums;
ghost use Rattle.dual_bounds.specs.Shared as spec;
ghost use Rattle.dual_bounds.specs.Shared.{AreShares};
ghost use Rattle.dual_bounds.specs.SharedParts.{AreSmall};
ghost use Rattle.dual_bounds.specs.Vectors.{AreEntries, RowsBelow, counted, end_sum};

use crate::Vector;
use crate::parts::{end_times, side};
use crate::shares::{MAX_COLUMNS, take_narrow};
use int_model::{Ends, Model as IntegerModel, PointBox};
use std::marker::Model;

/// For each column of a model the multipliers of a vector times the column's coefficients, summed once for
/// all scenarios. There are none where one is too large for a narrow number.
#[derive(Drop)]
pub struct Shares {
    of_columns: Option<[i64; MAX_COLUMNS]>,
}

impl Model for Shares {
    ghost use Rattle.std.specs.Prelude.{ℤ, List, Option};
    ghost use Rattle.dual_bounds.specs.SharedParts.{AreNarrow};

    ghost Value = { Option (List ℤ) };

    ghost view = { λ s. s.of_columns };

    ghost invariant = { λ s. AreNarrow s.of_columns };
}

impl Shares {
    /// No shares: a sum with these takes the time of one without.
    pub fn none() -> Shares
        ensures { result ≡ None }
    {
        Shares { of_columns: None }
    }

    /// The shares of a vector, from one pass over the rows of its entries. It takes no memory.
    pub fn of(model: &IntegerModel, vector: &Vector) -> Shares
        requires { RowsBelow (length model.now.rows) vector.now.entries }
        ensures { AreShares model.now vector.now.entries result }
    {
        let _columns = model.columns();
        let mut numbers = [0; MAX_COLUMNS];
        if !take_narrow(model, vector.entries(), &mut numbers) {
            return Shares::none();
        }
        Shares {
            of_columns: Some(numbers),
        }
    }

    /// The share of each column.
    pub(crate) fn numbers(&self) -> Option<&[i64]>
        ensures value { MatchOption result (self.now ≡ None) (λ x. self.now ≡ Some x.now) }
        ensures many { MatchOption result ⊤ (λ x. length x.now ≡ 1000) }
        ensures small { MatchOption result ⊤ (λ x. AreSmall x.now) }
    {
        match &self.of_columns {
            Some(numbers) => Some(numbers),
            None => None,
        }
    }
}

/// The multipliers times the ends that they are held against, None where some row hasn't got its end.
pub(crate) fn whole_end_sum(ends: &[Ends], entries: &[(u32, i64)]) -> Option<i128>
    requires few { length entries.now ≤ 128 }
    requires entries { AreEntries 0 entries.now }
    requires rows { RowsBelow (length ends.now) entries.now }
    ensures all { IfSome result (λ z. spec.have_ends ends.now entries.now ≡ true) }
    ensures value { IfSome result (λ z. z ≡ end_sum ends.now (counted ends.now entries.now)) }
    ensures limit { IfSome result (λ z. unsigned_abs z ≤ 2 ^ 110) }
{
    let mut sum = 0;
    for &(row, multiplier) in entries {
        let end = side(ends, row, multiplier)?;
        sum += end_times(multiplier, end);
    }
    Some(sum)
}

// The end, in whichever order the two stand, at which a reduced cost times a number between them is least.
fn best_end(reduced: i64, low: i32, high: i32) -> i32
    requires low { IsBound low }
    requires high { IsBound high }
    ensures value { reduced *ℤ result ≡ sums.least_product reduced (record { low = low; high = high }) }
    ensures limit { IsBound result }
{
    if reduced < 0 {
        low.max(high)
    } else {
        low.min(high)
    }
}

// The cost of a column, times the scale, less its narrow share.
fn reduced_cost(scale: u32, cost: i64, share: i64) -> i64
    requires scale { scale ≤ 2 ^ 20 }
    requires cost { IsEntry cost }
    requires share { unsigned_abs share ≤ 2 ^ 62 }
    ensures { result ≡ pos scale *ℤ cost -ℤ share }
{
    i64::from(scale) * cost - share
}

// A narrow reduced cost times a number of an interval.
fn product(reduced: i64, number: i32) -> i128
    requires number { IsBound number }
    ensures value { result ≡ reduced *ℤ number }
    ensures limit { unsigned_abs result ≤ 2 ^ 84 }
{
    i128::from(reduced) * i128::from(number)
}

// The least of a reduced cost times a number of an interval.
fn least_product(scale: u32, cost: i64, share: i64, low: i32, high: i32) -> i128
    requires scale { scale ≤ 2 ^ 20 }
    requires cost { IsEntry cost }
    requires share { unsigned_abs share ≤ 2 ^ 62 }
    requires low { IsBound low }
    requires high { IsBound high }
    ensures value { result ≡ sums.least_product (pos scale *ℤ cost -ℤ share) (record { low = low; high = high }) }
    ensures limit { unsigned_abs result ≤ 2 ^ 84 }
{
    let reduced = reduced_cost(scale, cost, share);
    product(reduced, best_end(reduced, low, high))
}

/// Over all columns, the least of the reduced cost times a number of the interval.
pub(crate) fn least_shared(scale: u32, costs: &[i64], shares: &[i64], bounds: &PointBox) -> i128
    requires scale { scale ≤ 2 ^ 20 }
    requires few { length costs.now ≤ 1000 }
    requires costs { CostsWithin (10 ^ 9) costs.now }
    requires many { length shares.now ≡ 1000 }
    requires small { AreSmall shares.now }
    requires columns { length bounds.now ≡ length costs.now }
    ensures value { result ≡ spec.least_shared scale shares.now 0 costs.now bounds.now }
    ensures limit { unsigned_abs result ≤ 2 ^ 94 }
{
    let lows = bounds.lows();
    let highs = bounds.highs();
    let mut sum = 0;
    for (j, &cost) in costs.iter().enumerate() {
        sum += least_product(scale, cost, shares[j], lows[j], highs[j]);
    }
    sum
}

// The parts of a vector's sum.
ghost use Rattle.std.specs.Prelude.{◌≡◌, ◌^◌, ◌<◌, ◌≤◌, ◌-ℤ◌, ◌*ℤ◌, pos, unsigned_abs, length, unwrap_or};
ghost use Rattle.int_model.specs.Limits.{IsBound};
ghost use Rattle.int_model.specs.RowSums as sums;
ghost use Rattle.dual_bounds.specs.Vectors as spec;
ghost use Rattle.dual_bounds.specs.Vectors.{AreEntries, counted, RowsBelow};
ghost use Rattle.dual_bounds.specs.Counting.{IsMultiplier, counting};

use int_model::Ends;

/// The end that a multiplier is held against: the row's lower one for a multiplier above 0, else its upper
/// one.
pub fn side(ends: &[Ends], row: u32, multiplier: i64) -> Option<i64>
    requires { row < length ends.now }
    ensures { result ≡ spec.side ends.now (row, multiplier) }
{
    let of_row = ends[row as usize];
    if multiplier > 0 {
        of_row.lower
    } else {
        of_row.upper
    }
}

/// A multiplier times an end.
pub fn end_times(multiplier: i64, end: i64) -> i128
    requires { IsMultiplier multiplier }
    ensures value { result ≡ multiplier *ℤ end }
    ensures limit { unsigned_abs result ≤ 2 ^ 103 }
{
    i128::from(multiplier) * i128::from(end)
}

/// A multiplier times its end, 0 where the row hasn't got that end.
pub fn end_product(ends: &[Ends], row: u32, multiplier: i64) -> i128
    requires row { row < length ends.now }
    requires multiplier { IsMultiplier multiplier }
    ensures value { result ≡ multiplier *ℤ unwrap_or (spec.side ends.now (row, multiplier)) (pos 0) }
    ensures limit { unsigned_abs result ≤ 2 ^ 103 }
{
    end_times(multiplier, side(ends, row, multiplier).unwrap_or(0))
}

/// The multipliers times the ends that their rows have.
pub fn end_sum(ends: &[Ends], entries: &[(u32, i64)]) -> i128
    requires few { length entries.now ≤ 128 }
    requires entries { AreEntries 0 entries.now }
    requires rows { RowsBelow (length ends.now) entries.now }
    ensures value { result ≡ spec.end_sum ends.now (counted ends.now entries.now) }
    ensures limit { unsigned_abs result ≤ 2 ^ 110 }
{
    let mut sum = 0;
    for &(row, multiplier) in entries {
        sum += end_product(ends, row, multiplier);
    }
    sum
}

/// The multiplier as far as it counts: 0 where the row hasn't got its end.
pub fn counting_multiplier(ends: &[Ends], row: u32, multiplier: i64) -> i64
    requires row { row < length ends.now }
    requires multiplier { IsMultiplier multiplier }
    ensures value { result ≡ counting ends.now (row, multiplier) }
    ensures limit { IsMultiplier result }
{
    match side(ends, row, multiplier) {
        Some(_) => multiplier,
        None => 0,
    }
}

/// The cost of a column, times the scale, less its share of the rows.
pub fn reduced_cost(scale: u32, cost: i64, share: i128) -> i128
    requires scale { scale ≤ 2 ^ 20 }
    requires share { unsigned_abs share ≤ 2 ^ 77 }
    ensures value { result ≡ pos scale *ℤ cost -ℤ share }
    ensures limit { unsigned_abs result ≤ 2 ^ 84 }
{
    i128::from(scale) * i128::from(cost) - share
}

// A reduced cost times a number of an interval.
fn product(reduced: i128, number: i32) -> i128
    requires reduced { unsigned_abs reduced ≤ 2 ^ 84 }
    requires number { IsBound number }
    ensures value { result ≡ reduced *ℤ number }
    ensures limit { unsigned_abs result ≤ 2 ^ 104 }
{
    reduced * i128::from(number)
}

/// The least of a reduced cost times a number of an interval.
pub fn least_product(reduced: i128, low: i32, high: i32) -> i128
    requires reduced { unsigned_abs reduced ≤ 2 ^ 84 }
    requires low { IsBound low }
    requires high { IsBound high }
    ensures value { result ≡ sums.least_product reduced (record { low = low; high = high }) }
    ensures limit { unsigned_abs result ≤ 2 ^ 104 }
{
    product(reduced, low).min(product(reduced, high))
}

//! Row activities: the least and the greatest sum of a row over a box.
#![tactic(auto)]

ghost use Rattle.std.specs.Prelude.{◌≡◌, ◌≤◌, ◌^◌, pos, ◌-ℤ◌, ◌*ℤ◌, ◌≤ℤ◌, unsigned_abs, false};
ghost use Rattle.int_model.specs.Limits.{IsBound, IsEntry};
ghost use Rattle.int_model.specs.Boxes.{box_of, is_empty};
ghost use Rattle.int_model.specs.RowSums.{least_product, greatest_product, least_sum, greatest_sum};
ghost use Rattle.activity.specs.Sums.{AreSummed, SpreadWithin};

pub mod laws;
mod missed;

pub use missed::misses;

// A coefficient times a bound.
fn product(coefficient: i64, bound: i32) -> i64
    requires coefficient { IsEntry coefficient }
    requires bound { IsBound bound }
    ensures value { result ≡ coefficient *ℤ bound }
    ensures limit { unsigned_abs result ≤ 10 ^ 15 }
{
    coefficient * i64::from(bound)
}

/// The least product of a coefficient with a number of an interval that isn't empty.
pub fn least_of(coefficient: i64, low: i32, high: i32) -> i64
    requires coefficient { IsEntry coefficient }
    requires low { IsBound low }
    requires high { IsBound high }
    ensures value { result ≡ least_product coefficient (record { low = low; high = high }) }
    ensures limit { unsigned_abs result ≤ 10 ^ 15 }
{
    product(coefficient, low).min(product(coefficient, high))
}

/// The greatest product of a coefficient with a number of an interval that isn't empty.
pub fn greatest_of(coefficient: i64, low: i32, high: i32) -> i64
    requires coefficient { IsEntry coefficient }
    requires low { IsBound low }
    requires high { IsBound high }
    ensures value { result ≡ greatest_product coefficient (record { low = low; high = high }) }
    ensures limit { unsigned_abs result ≤ 10 ^ 15 }
{
    product(coefficient, low).max(product(coefficient, high))
}

/// The least sum of a row over the box with these ends. A row's terms are columns, which rise, and coefficients.
pub fn least(terms: &[(u32, i64)], low: &[i32], high: &[i32]) -> i64
    requires { AreSummed terms.now low.now high.now }
    ensures value { result ≡ least_sum terms.now (box_of low.now high.now) }
    ensures limit { unsigned_abs result ≤ 10 ^ 18 }
{
    let mut sum = 0;
    for &(column, coefficient) in terms {
        let column = column as usize;
        sum += least_of(coefficient, low[column], high[column]);
    }
    sum
}

/// The greatest sum of a row over the box with these ends.
pub fn most(terms: &[(u32, i64)], low: &[i32], high: &[i32]) -> i64
    requires { AreSummed terms.now low.now high.now }
    ensures value { result ≡ greatest_sum terms.now (box_of low.now high.now) }
    ensures limit { unsigned_abs result ≤ 10 ^ 18 }
{
    let mut sum = 0;
    for &(column, coefficient) in terms {
        let column = column as usize;
        sum += greatest_of(coefficient, low[column], high[column]);
    }
    sum
}

// The least and the greatest sum of a row over the box with these ends, from one pass over the row's terms.
fn sums(terms: &[(u32, i64)], low: &[i32], high: &[i32]) -> (i64, i64)
    requires { AreSummed terms.now low.now high.now }
    ensures least { result.0 ≡ least_sum terms.now (box_of low.now high.now) }
    ensures most { result.1 ≡ greatest_sum terms.now (box_of low.now high.now) }
    ensures least_limit { unsigned_abs result.0 ≤ 10 ^ 18 }
    ensures most_limit { unsigned_abs result.1 ≤ 10 ^ 18 }
{
    let mut least = 0;
    let mut most = 0;
    for &(column, coefficient) in terms {
        let column = column as usize;
        let (first, last) = (low[column], high[column]);
        least += least_of(coefficient, first, last);
        most += greatest_of(coefficient, first, last);
    }
    (least, most)
}

// The least and the greatest product of a coefficient with a number of an interval that isn't empty.
fn both_of(coefficient: i64, low: i32, high: i32) -> (i64, i64)
    requires coefficient { IsEntry coefficient }
    requires low { IsBound low }
    requires high { IsBound high }
    requires occupied { low ≤ℤ high }
    ensures least { result.0 ≡ least_product coefficient (record { low = low; high = high }) }
    ensures most { result.1 ≡ greatest_product coefficient (record { low = low; high = high }) }
    ensures least_limit { unsigned_abs result.0 ≤ 10 ^ 15 }
    ensures most_limit { unsigned_abs result.1 ≤ 10 ^ 15 }
{
    let at_low = product(coefficient, low);
    let at_high = product(coefficient, high);
    if coefficient > 0 {
        (at_low, at_high)
    } else {
        (at_high, at_low)
    }
}

// How far a least and a greatest product lie apart.
fn apart(least: i64, greatest: i64) -> u64
    requires ordered { least ≤ℤ greatest }
    requires least { unsigned_abs least ≤ 10 ^ 15 }
    requires greatest { unsigned_abs greatest ≤ 10 ^ 15 }
    ensures { pos result ≡ greatest -ℤ least }
{
    (greatest - least) as u64
}

/// The least and the greatest sum of a row over the box with these ends, which isn't empty, and a number
/// that no term's spread exceeds, from one pass over the row's terms. The spread of a term is how far its
/// least and its greatest product lie apart. The number is below twice the widest spread: a bitwise or
/// costs half of what a maximum does here.
pub fn extremes(terms: &[(u32, i64)], low: &[i32], high: &[i32]) -> (i64, i64, u64)
    requires summed { AreSummed terms.now low.now high.now }
    requires occupied { is_empty (box_of low.now high.now) ≡ false }
    ensures least { result.0 ≡ least_sum terms.now (box_of low.now high.now) }
    ensures most { result.1 ≡ greatest_sum terms.now (box_of low.now high.now) }
    ensures spread { SpreadWithin result.2 terms.now (box_of low.now high.now) }
    ensures least_limit { unsigned_abs result.0 ≤ 10 ^ 18 }
    ensures most_limit { unsigned_abs result.1 ≤ 10 ^ 18 }
{
    let mut least = 0;
    let mut most = 0;
    let mut spread = 0;
    for &(column, coefficient) in terms {
        let column = column as usize;
        let (low_part, high_part) = both_of(coefficient, low[column], high[column]);
        least += low_part;
        most += high_part;
        spread |= apart(low_part, high_part);
    }
    (least, most, spread)
}

#[cfg(test)]
mod tests;

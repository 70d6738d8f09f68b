// The coefficient of a column in a row, and the part of an interval within a limit.
ghost use Rattle.std.specs.Prelude.{◌≡◌, ◌*◌, ◌^◌, ◌≤◌, ◌≤ℤ◌, unsigned_abs};
ghost use Rattle.int_model.specs.Limits.{IsBound, IsEntry};
ghost use Rattle.int_model.specs.Boxes.{at_least, at_most};
ghost use Rattle.int_model.specs.RowSums as sums;
ghost use Rattle.tighten.specs.Replay.{narrowed};
ghost use Rattle.tighten.specs.Steps.{AreRising, IsLeft};

// The coefficient of a column, 0 where the row has no term of it.
pub fn coefficient(terms: &[(u32, i64)], column: u32) -> i64
    requires { AreRising terms.now }
    ensures value { result ≡ sums.coefficient column terms.now }
    ensures limit { IsEntry result }
{
    for &(other, coefficient) in terms {
        if other == column {
            return coefficient;
        }
    }
    0
}

// The part of an interval with coefficient * x <= limit, None where it holds no number.
pub fn narrow(coefficient: i64, limit: i64, low: i32, high: i32) -> Option<(i32, i32)>
    requires coefficient { IsEntry coefficient }
    requires limit { unsigned_abs limit ≤ 4 * 10 ^ 18 }
    requires low { IsBound low }
    requires high { IsBound high }
    requires occupied { low ≤ℤ high }
    ensures { IsLeft (narrowed coefficient limit (record { low = low; high = high })) result }
{
    if coefficient > 0 {
        cut_above(limit.div_euclid(coefficient), low, high)
    } else if coefficient < 0 {
        cut_below(limit.div_euclid(coefficient), low, high)
    } else {
        Some((low, high))
    }
}

// The numbers of an interval that are at most so large.
fn cut_above(most: i64, low: i32, high: i32) -> Option<(i32, i32)>
    requires low { IsBound low }
    requires high { IsBound high }
    requires occupied { low ≤ℤ high }
    ensures { IsLeft (at_most (record { low = low; high = high }) most) result }
{
    if most >= i64::from(high) {
        Some((low, high))
    } else if most >= i64::from(low) {
        Some((low, most as i32))
    } else {
        None
    }
}

// The numbers of an interval that are at least so large.
fn cut_below(least: i64, low: i32, high: i32) -> Option<(i32, i32)>
    requires low { IsBound low }
    requires high { IsBound high }
    requires occupied { low ≤ℤ high }
    ensures { IsLeft (at_least (record { low = low; high = high }) least) result }
{
    if least <= i64::from(low) {
        Some((low, high))
    } else if least <= i64::from(high) {
        Some((least as i32, high))
    } else {
        None
    }
}

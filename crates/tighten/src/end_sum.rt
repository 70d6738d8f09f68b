// The sum of a row over a box that one of the row's ends is compared with: the least one for the upper end,
// and the greatest one for the lower end.
ghost use Rattle.std.specs.Prelude.{◌≡◌, ◌*◌, ◌^◌, ◌≤◌, ◌≤ℤ◌, unsigned_abs, length};
ghost use Rattle.int_model.specs.Ends.{EndsWithin};
ghost use Rattle.int_model.specs.Limits.{IsBound, IsEntry};
ghost use Rattle.int_model.specs.Programs.{AreTerms};
ghost use Rattle.tighten.specs.Cuts.{IsCut, interval};
ghost use Rattle.tighten.specs.EndSums as spec;

use crate::RowEnd;
use crate::narrowing::Narrowing;
use crate::slack::{above, below};
use activity::{greatest_of, least, least_of, most};
use int_model::{Ends, PointBox};

/// The sum that an end is compared with.
pub fn end_sum(terms: &[(u32, i64)], side: RowEnd, bounds: &PointBox) -> i64
    requires few { length bounds.now ≤ 1000 }
    requires row { AreTerms 0 (length bounds.now) terms.now }
    ensures { result ≡ spec.end_sum terms.now side bounds.now }
{
    let lows = bounds.lows();
    let highs = bounds.highs();
    match side {
        RowEnd::Lower => most(terms, lows, highs),
        RowEnd::Upper => least(terms, lows, highs),
    }
}

/// The part of that sum that a column with this coefficient has.
pub fn end_product(side: RowEnd, coefficient: i64, low: i32, high: i32) -> i64
    requires coefficient { IsEntry coefficient }
    requires low { IsBound low }
    requires high { IsBound high }
    ensures value { result ≡ spec.end_product side coefficient (interval low high) }
    ensures limit { unsigned_abs result ≤ 10 ^ 15 }
{
    match side {
        RowEnd::Lower => greatest_of(coefficient, low, high),
        RowEnd::Upper => least_of(coefficient, low, high),
    }
}

/// What an end leaves of the interval of a column with this coefficient.
pub fn left_by(
    ends: Ends,
    side: RowEnd,
    sum: i64,
    coefficient: i64,
    low: i32,
    high: i32,
) -> Narrowing
    requires ends { EndsWithin (2 * 10 ^ 18) ends }
    requires sum { unsigned_abs sum ≤ 10 ^ 18 }
    requires coefficient { IsEntry coefficient }
    requires low { IsBound low }
    requires high { IsBound high }
    requires occupied { low ≤ℤ high }
    ensures { IsCut (spec.end_left ends side sum coefficient (interval low high)) (interval low high) result }
{
    match side {
        RowEnd::Lower => above(ends.lower, sum, coefficient, low, high),
        RowEnd::Upper => below(ends.upper, sum, coefficient, low, high),
    }
}

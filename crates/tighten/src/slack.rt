// How far a row's slack narrows the interval of one of its columns.
ghost use Rattle.std.specs.Prelude.{◌≡◌, ◌*◌, ◌^◌, ◌≤◌, ◌+ℤ◌, ◌-ℤ◌, ◌*ℤ◌, ◌≤ℤ◌, pos, unsigned_abs, IfSome, true};
ghost use Rattle.int_model.specs.Limits.{IsBound, IsEntry};
ghost use Rattle.int_model.specs.Ends.{EndsWithin};
ghost use Rattle.int_model.specs.RowSums.{least_product};
ghost use Rattle.tighten.specs.Replay as spec;
ghost use Rattle.tighten.specs.Cuts.{IsCut, IsSlack, above_end, below_end, interval};

use crate::narrow::narrow;
use crate::narrowing::Narrowing;
use activity::least_of;
use int_model::Ends;

/// How far the least and the greatest product with a number of the interval lie apart.
pub fn spread(coefficient: i64, low: i32, high: i32) -> i64
    requires coefficient { IsEntry coefficient }
    requires low { IsBound low }
    requires high { IsBound high }
    ensures value { result ≡ pos (unsigned_abs coefficient) *ℤ (high -ℤ low) }
    ensures limit { unsigned_abs result ≤ 2 * 10 ^ 15 }
{
    coefficient.abs() * (i64::from(high) - i64::from(low))
}

/// How many numbers an interval has, less one.
pub fn width(low: i32, high: i32) -> u64
    requires low { IsBound low }
    requires high { IsBound high }
    requires occupied { low ≤ℤ high }
    ensures value { pos result ≡ high -ℤ low }
    ensures limit { result ≤ 2 * 10 ^ 6 }
{
    (i64::from(high) - i64::from(low)) as u64
}

/// Whether a spread is within the slack.
pub fn allows(slack: i64, spread: u64) -> bool
    ensures { result ≡ true → pos spread ≤ℤ slack }
{
    slack >= 0 && spread <= slack as u64
}

/// A slack that neither end of a row exceeds: how far its sum may rise above the least one, or fall below
/// the greatest one.
pub fn slack(ends: Ends, least: i64, most: i64) -> i64
    requires ends { EndsWithin (2 * 10 ^ 18) ends }
    requires least { unsigned_abs least ≤ 10 ^ 18 }
    requires most { unsigned_abs most ≤ 10 ^ 18 }
    ensures { IsSlack ends least most result }
{
    below_upper(ends.upper, least).min(above_lower(ends.lower, most))
}

// How far a sum may rise to an upper end.
fn below_upper(end: Option<i64>, least: i64) -> i64
    requires end { IfSome end (λ u. unsigned_abs u ≤ 2 * 10 ^ 18) }
    requires least { unsigned_abs least ≤ 10 ^ 18 }
    ensures { IfSome end (λ u. result ≡ u -ℤ least) }
{
    match end {
        Some(end) => end - least,
        None => i64::MAX,
    }
}

// How far a sum may fall to a lower end.
fn above_lower(end: Option<i64>, most: i64) -> i64
    requires end { IfSome end (λ w. unsigned_abs w ≤ 2 * 10 ^ 18) }
    requires most { unsigned_abs most ≤ 10 ^ 18 }
    ensures { IfSome end (λ w. result ≡ most -ℤ w) }
{
    match end {
        Some(end) => most - end,
        None => i64::MAX,
    }
}

/// What is left of an interval where the product of the coefficient and the number may exceed its least
/// value by at most the slack. It divides only where the interval gets narrower.
pub fn narrowed(coefficient: i64, slack: i64, low: i32, high: i32) -> Narrowing
    requires coefficient { IsEntry coefficient }
    requires slack { unsigned_abs slack ≤ 3 * 10 ^ 18 }
    requires low { IsBound low }
    requires high { IsBound high }
    requires occupied { low ≤ℤ high }
    ensures { IsCut (spec.narrowed coefficient (slack +ℤ least_product coefficient (interval low high)) (interval low high)) (interval low high) result }
{
    if spread(coefficient, low, high) <= slack {
        return Narrowing::Same;
    }
    let limit = slack + least_of(coefficient, low, high);
    match narrow(coefficient, limit, low, high) {
        Some((first, last)) => compared(low, high, first, last),
        None => Narrowing::Empty,
    }
}

/// What is left of an interval below an upper end of a row with this least sum, where the column has this
/// coefficient.
pub fn below(end: Option<i64>, least: i64, coefficient: i64, low: i32, high: i32) -> Narrowing
    requires end { IfSome end (λ u. unsigned_abs u ≤ 2 * 10 ^ 18) }
    requires least { unsigned_abs least ≤ 10 ^ 18 }
    requires coefficient { IsEntry coefficient }
    requires low { IsBound low }
    requires high { IsBound high }
    requires occupied { low ≤ℤ high }
    ensures { IsCut (below_end end least coefficient (interval low high)) (interval low high) result }
{
    match end {
        Some(end) => narrowed(coefficient, end - least, low, high),
        None => Narrowing::Same,
    }
}

/// What is left of an interval above a lower end of a row with this greatest sum, where the column has
/// this coefficient.
pub fn above(end: Option<i64>, most: i64, coefficient: i64, low: i32, high: i32) -> Narrowing
    requires end { IfSome end (λ w. unsigned_abs w ≤ 2 * 10 ^ 18) }
    requires most { unsigned_abs most ≤ 10 ^ 18 }
    requires coefficient { IsEntry coefficient }
    requires low { IsBound low }
    requires high { IsBound high }
    requires occupied { low ≤ℤ high }
    ensures { IsCut (above_end end most coefficient (interval low high)) (interval low high) result }
{
    match end {
        Some(end) => narrowed(-coefficient, most - end, low, high),
        None => Narrowing::Same,
    }
}

// What a part of an interval that isn't empty leaves of it.
fn compared(low: i32, high: i32, first: i32, last: i32) -> Narrowing
    requires low { IsBound first }
    requires high { IsBound last }
    requires occupied { first ≤ℤ last }
    ensures { IsCut (interval first last) (interval low high) result }
{
    if first == low && last == high {
        return Narrowing::Same;
    }
    Narrowing::Less(first, last)
}

// Whole numbers near a fixed-point number with 14 bits after the point.
ghost use Rattle.std.specs.Prelude.{◌≤ℤ◌, ◌<ℤ◌};

const ONE: i64 = 1 << 14;

/// A whole number as a fixed-point number.
pub(crate) fn fixed_point(number: i32) -> i64 {
    i64::from(number) * ONE
}

/// How far a fixed-point number is from the nearest whole number.
pub(crate) fn distance_from_whole(target: i64) -> i64 {
    let part = target.rem_euclid(ONE);
    part.min(ONE - part)
}

/// The number from low to high that is nearest to the target.
pub(crate) fn nearest(target: i64, low: i32, high: i32) -> i32
    requires { low ≤ℤ high }
    ensures low { low ≤ℤ result }
    ensures high { result ≤ℤ high }
{
    let rounded = target.saturating_add(ONE / 2).div_euclid(ONE);
    rounded.clamp(i64::from(low), i64::from(high)) as i32
}

/// The number next to another one of the interval on the side of the target, and the end of the interval
/// on that side. The other side is taken where there are no numbers.
pub(crate) fn beside(target: i64, number: i32, low: i32, high: i32) -> (i32, i32)
    requires wide { low <ℤ high }
    requires low { low ≤ℤ number }
    requires high { number ≤ℤ high }
    ensures next_low { low ≤ℤ result.0 }
    ensures next_high { result.0 ≤ℤ high }
    ensures end_low { low ≤ℤ result.1 }
    ensures end_high { result.1 ≤ℤ high }
{
    if number == low {
        (number + 1, high)
    } else if number < high && target > fixed_point(number) {
        (number + 1, high)
    } else {
        (number - 1, low)
    }
}

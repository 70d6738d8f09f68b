// Points in fixed point, with 14 bits after the point.
ghost use Rattle.std.specs.Prelude.{◌≡◌, ◌≤◌, ◌^◌, ◌≤ℤ◌, unsigned_abs, length, false, IfOk};
ghost use Rattle.int_model.specs.Boxes.{box_of, is_empty};
ghost use Rattle.dual_climb.specs.Climbs.{IsFixedWithin, IsNear};
ghost use Rattle.dual_climb.specs.Climbs as spec;

use crate::relaxation::{FreeColumn, Relaxation, reduced_cost};
use int_model::{NearPoint, PointBox};
use std::alloc::{AllocError, Global};

/// How many bits after the point the numbers of a point have.
pub(crate) const MOST_BITS: u32 = 14;

/// A number of each free column: that of the near point, brought into the column's interval, or else the
/// side of the interval that the reduced cost asks for.
pub(crate) fn starting_point(
    alloc: Global,
    relaxation: &Relaxation,
    multipliers: &[i64],
    near: Option<&NearPoint>,
) -> Result<Vec<i64>, AllocError>
    requires { length multipliers.now ≡ relaxation.now.rows }
    ensures { IfOk result (λ point. length point.items ≡ relaxation.now.columns) }
{
    let mut point = Vec::with_capacity(alloc, relaxation.count())?;
    for t in 0..relaxation.count() {
        let column = relaxation.column(t);
        let number = match near_number(near, column.number) {
            Some(number) => number,
            None => {
                let reduced = reduced_cost(relaxation.terms(t), multipliers, column.cost);
                preferred(column, reduced)
            }
        };
        point.push(number.max(fixed(column.low)).min(fixed(column.high)))?;
    }
    Ok(point)
}

// The near point's number of a column, where it has one.
fn near_number(near: Option<&NearPoint>, column: u32) -> Option<i64> {
    match near {
        Some(near) => near.get(column as usize).copied(),
        None => None,
    }
}

// The side of a column's interval where its reduced cost counts least, or the middle.
fn preferred(column: FreeColumn, reduced: i64) -> i64 {
    if reduced > 0 {
        fixed(column.low)
    } else if reduced < 0 {
        fixed(column.high)
    } else {
        fixed(column.low).wrapping_add(fixed(column.high)) / 2
    }
}

// A whole number in fixed point.
fn fixed(number: i32) -> i64
    ensures value { result ≡ spec.fixed number }
    ensures limit { unsigned_abs result ≤ 2 ^ 45 }
{
    i64::from(number) * (1 << MOST_BITS)
}

// The nearest number within an interval.
fn clamped(number: i64, low: i32, high: i32) -> i64
    requires { low ≤ℤ high }
    ensures { IsFixedWithin low high result }
{
    number.max(fixed(low)).min(fixed(high))
}

/// The near point of a box: the free columns' numbers, which have so many bits after the point, and the
/// fixed columns' own.
pub(crate) fn near_point(
    alloc: Global,
    bounds: &PointBox,
    relaxation: &Relaxation,
    point: &[i64],
    fraction: u32,
) -> Result<NearPoint, AllocError>
    requires occupied { is_empty bounds.now ≡ false }
    requires point { length point.now ≡ relaxation.now.columns }
    ensures { IfOk result (λ near. IsNear bounds.now near) }
{
    let lows = bounds.lows();
    let mut numbers = vec![in alloc; 0; lows.len()]?;
    place(relaxation, point, fraction, &mut numbers);
    let within = within_sides(alloc, lows, bounds.highs(), &numbers)?;
    Ok(NearPoint::from_vec(within))
}

// Puts the free columns' numbers at their columns, with 14 bits after the point.
fn place(relaxation: &Relaxation, point: &[i64], fraction: u32, numbers: &mut [i64])
    requires { length point.now ≡ relaxation.now.columns }
    ensures { length numbers.new ≡ length numbers.old }
{
    for t in 0..relaxation.count() {
        let column = relaxation.column(t).number as usize;
        if column < numbers.len() {
            numbers[column] = point[t].wrapping_shl(MOST_BITS.wrapping_sub(fraction));
        }
    }
}

// The nearest numbers within the intervals.
fn within_sides(
    alloc: Global,
    lows: &[i32],
    highs: &[i32],
    numbers: &[i64],
) -> Result<Vec<i64>, AllocError>
    requires sides { length lows.now ≡ length highs.now }
    requires numbers { length numbers.now ≡ length lows.now }
    requires occupied { is_empty (box_of lows.now highs.now) ≡ false }
    ensures { IfOk result (λ within. IsNear (box_of lows.now highs.now) within.items) }
{
    let mut within = Vec::with_capacity(alloc, numbers.len())?;
    for j in 0..numbers.len() {
        within.push(clamped(numbers[j], lows[j], highs[j]))?;
    }
    Ok(within)
}

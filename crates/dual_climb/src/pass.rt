// The move of one free column: a Newton step on the augmented Lagrangian within the column's interval.
//
// Most columns stay where they are, so the loop over their gradients decides the time of a pass. What only a
// column that moves needs is kept out of line, which leaves that loop more registers.
ghost use Rattle.std.specs.Prelude.{◌≡◌, length, All};
ghost use Rattle.dual_climb.specs.Climbs.{IsBelow};

use crate::relaxation::{FreeColumn, Relaxation, Term, reduced_cost};
use crate::row::Row;
use crate::state::Precision;

/// Quotients stay within this.
const QUOTIENT_LIMIT: i64 = 1 << 62;

const WIDE_LIMIT: i128 = 1 << 62;

/// The derivative of the augmented Lagrangian in one column, and how fast it grows.
#[derive(Clone, Copy)]
struct Slope {
    gradient: i64,
    curvature: i64,
}

/// Moves each free column once, in rising order, or where the pass isn't a whole one each that doesn't rest.
/// A column rests while it stayed where it was when it was looked at last. Whether one moved.
#[inline(never)]
pub(crate) fn move_columns(
    relaxation: &Relaxation,
    point: &mut [i64],
    rows: &mut [Row],
    multipliers: &mut [i64],
    penalties: &[i64],
    precision: Precision,
    rests: &mut [bool],
    is_whole: bool,
) -> bool
    requires point { length point.old ≡ relaxation.now.columns }
    requires rests { length rests.old ≡ relaxation.now.columns }
    requires rows { length rows.old ≡ relaxation.now.rows }
    requires multipliers { length multipliers.old ≡ length rows.old }
    requires penalties { length penalties.now ≡ length rows.old }
    ensures point { length point.new ≡ length point.old }
    ensures rests { length rests.new ≡ length rests.old }
    ensures rows { length rows.new ≡ length rows.old }
    ensures multipliers { length multipliers.new ≡ length multipliers.old }
{
    let mut moved = false;
    for t in 0..relaxation.count() {
        if rests[t] && !is_whole {
            continue;
        }
        let from = point[t];
        let column = relaxation.column(t);
        let terms = relaxation.terms(t);
        let to = move_column(column, terms, from, rows, multipliers, penalties, precision);
        point[t] = to;
        rests[t] = to == from;
        moved = moved || to != from;
    }
    moved
}

// Moves a column, and updates the activities and multipliers of its rows. Answers the new number.
fn move_column(
    column: FreeColumn,
    terms: &[Term],
    from: i64,
    rows: &mut [Row],
    multipliers: &mut [i64],
    penalties: &[i64],
    precision: Precision,
) -> i64
    requires terms { All (IsBelow (length rows.old)) terms.now }
    requires multipliers { length multipliers.old ≡ length rows.old }
    requires penalties { length penalties.now ≡ length rows.old }
    ensures rows { length rows.new ≡ length rows.old }
    ensures multipliers { length multipliers.new ≡ length multipliers.old }
{
    let (low, high) = sides(column, precision);
    let gradient = reduced_cost(terms, multipliers, column.cost);
    if !may_move(from, gradient, low, high) {
        return from;
    }
    let slope = Slope {
        gradient,
        curvature: curvature_at(terms, multipliers, penalties),
    };
    let to = target(from, slope, low, high, precision.shift());
    if to == from {
        return from;
    }
    let by = to.wrapping_sub(from);
    let woken = change(terms, by, rows, multipliers, penalties, precision.shift());
    // Where no row begins to count, the step can't go too far.
    if !woken && slope.curvature != 0 {
        return to;
    }
    let after = reduced_cost(terms, multipliers, column.cost);
    let back = excess(by, slope.gradient, after);
    if back != 0 {
        change(
            terms,
            back.wrapping_neg(),
            rows,
            multipliers,
            penalties,
            precision.shift(),
        );
    }
    to.wrapping_sub(back)
}

// The sides of a column's interval in fixed point. Bounds are below 2^20, so these are below 2^34.
fn sides(column: FreeColumn, precision: Precision) -> (i64, i64) {
    (
        i64::from(column.low).wrapping_shl(precision.fraction),
        i64::from(column.high).wrapping_shl(precision.fraction),
    )
}

// Whether a column can go to where the augmented Lagrangian is less. Most columns stay at a side, so this
// is asked before the curvature is made.
fn may_move(from: i64, gradient: i64, low: i64, high: i64) -> bool {
    if gradient > 0 {
        from > low
    } else {
        gradient < 0 && from < high
    }
}

// How fast the gradient grows in a column with these terms. A penalty times a square is at most 2^62, as
// its range says, and the sum stops at the end of its type.
#[inline(never)]
fn curvature_at(terms: &[Term], multipliers: &[i64], penalties: &[i64]) -> i64
    requires terms { All (IsBelow (length multipliers.now)) terms.now }
    requires penalties { length penalties.now ≡ length multipliers.now }
{
    let mut curvature: i64 = 0;
    for &term in terms {
        let i = term.row as usize;
        if multipliers[i] != 0 {
            let coefficient = i64::from(term.coefficient);
            let square = coefficient.wrapping_mul(coefficient);
            curvature = curvature.saturating_add(penalties[i].wrapping_mul(square));
        }
    }
    curvature
}

// Where a column moves to that may move.
fn target(from: i64, slope: Slope, low: i64, high: i64, shift: u32) -> i64 {
    if slope.curvature == 0 {
        return if slope.gradient > 0 { low } else { high };
    }
    from.wrapping_sub(quotient(slope, shift)).max(low).min(high)
}

// The gradient times 2^shift over the curvature, which is above 0.
fn quotient(slope: Slope, shift: u32) -> i64 {
    let curvature = slope.curvature.max(1);
    if slope.gradient.wrapping_abs() < QUOTIENT_LIMIT.wrapping_shr(shift) {
        return slope.gradient.wrapping_shl(shift).wrapping_div(curvature);
    }
    let wide = i128::from(slope.gradient)
        .wrapping_shl(shift)
        .wrapping_div(i128::from(curvature));
    narrowed(wide)
}

// A quotient, cut off at 2^62.
fn narrowed(wide: i128) -> i64 {
    wide.max(-WIDE_LIMIT).min(WIDE_LIMIT) as i64
}

// By how much a step went too far, by the secant through the gradients before and after it. 0 where the
// gradients have the same sign.
fn excess(by: i64, before: i64, after: i64) -> i64 {
    if (before > 0) == (after > 0) || after == 0 {
        return 0;
    }
    // Both are below 2^62.
    let whole = before.wrapping_sub(after).wrapping_abs().max(1);
    if by.wrapping_abs() < 1 << 36 && after.wrapping_abs() < 1 << 26 {
        return by.wrapping_mul(after.wrapping_abs()).wrapping_div(whole);
    }
    let part = i128::from(by)
        .wrapping_mul(i128::from(after.wrapping_abs()))
        .wrapping_div(i128::from(whole));
    narrowed(part)
}

// Updates the rows of a column that moves. Whether a multiplier that was 0 is no longer. Activities are
// below 2^61 by the choice of the fraction's bits.
#[inline(never)]
fn change(
    terms: &[Term],
    by: i64,
    rows: &mut [Row],
    multipliers: &mut [i64],
    penalties: &[i64],
    shift: u32,
) -> bool
    requires terms { All (IsBelow (length rows.old)) terms.now }
    requires multipliers { length multipliers.old ≡ length rows.old }
    requires penalties { length penalties.now ≡ length rows.old }
    ensures rows { length rows.new ≡ length rows.old }
    ensures multipliers { length multipliers.new ≡ length multipliers.old }
{
    let mut woken = false;
    for &term in terms {
        let i = term.row as usize;
        let part = i64::from(term.coefficient).wrapping_mul(by);
        rows[i].activity = rows[i].activity.wrapping_add(part);
        let multiplier = rows[i].multiplier(penalties[i], shift);
        if multipliers[i] == 0 && multiplier != 0 {
            woken = true;
        }
        multipliers[i] = multiplier;
    }
    woken
}

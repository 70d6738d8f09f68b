// The parts of a least-squares correction, in whole numbers: vectors with 8 more bits than multipliers,
// inner products in 128 bits, and quotients of them with 40 bits after the point.
ghost use Rattle.std.specs.Prelude.{◌≡◌, ◌≤◌, length, All};
ghost use Rattle.dual_climb.specs.Climbs.{IsBelow};

use crate::interior::Interior;
use crate::relaxation::Term;

/// By how many bits residuals and changes are finer than multipliers.
pub(crate) const FINER_BITS: u32 = 8;

/// The bits after the point of a quotient of inner products.
const QUOTIENT_BITS: u32 = 40;

const MOST_RESIDUAL: i64 = 1 << 46;

const MOST_CHANGE: i64 = 1 << 52;

const MOST_SLOPE: i64 = 1 << 54;

const MOST_IMAGE: i128 = 1 << 58;

/// Quotients, and their products with a number, are cut off here.
const MOST_WIDE: i128 = 1 << 60;

/// An interior column: the reduced cost that is left, and the product of its coefficients with the
/// direction.
#[derive(Clone, Copy)]
pub(crate) struct Residual {
    pub left: i64,
    pub image: i64,
}

/// A row: whether its multiplier may change, by how much it does, and the slope and the direction of the
/// conjugate gradient method.
#[derive(Clone, Copy)]
pub(crate) struct Change {
    pub active: bool,
    pub change: i64,
    pub slope: i64,
    pub direction: i64,
}

/// Makes each row's slope, and answers the sum of their squares. None where a slope is too large.
#[inline(never)]
pub(crate) fn slopes(interior: &Interior, columns: &[Residual], rows: &mut [Change]) -> Option<i128>
    requires columns { length columns.now ≡ interior.now.columns }
    requires rows { length rows.old ≡ interior.now.rows }
    ensures { length rows.new ≡ length rows.old }
{
    for i in 0..rows.len() {
        rows[i].slope = 0;
    }
    for t in 0..interior.count() {
        add_slope(rows, interior.terms(t), columns[t].left);
    }
    let mut squares: i128 = 0;
    for row in rows.iter() {
        if row.slope.saturating_abs() >= MOST_SLOPE {
            return None;
        }
        // At most 1,000 squares below 2^108.
        squares = squares.wrapping_add(square(row.slope));
    }
    Some(squares)
}

fn square(number: i64) -> i128 {
    i128::from(number).wrapping_mul(i128::from(number))
}

// Adds a column's part to the slopes, which stop at the ends of their type.
fn add_slope(rows: &mut [Change], terms: &[Term], residual: i64)
    requires { All (IsBelow (length rows.old)) terms.now }
    ensures { length rows.new ≡ length rows.old }
{
    for &term in terms {
        let i = term.row as usize;
        let part = i64::from(term.coefficient).saturating_mul(residual);
        rows[i].slope = rows[i].slope.saturating_add(part);
    }
}

/// Makes each column's image, and answers the sum of their squares. None where an image is too large.
#[inline(never)]
pub(crate) fn images(interior: &Interior, columns: &mut [Residual], rows: &[Change]) -> Option<i128>
    requires columns { length columns.old ≡ interior.now.columns }
    requires rows { length rows.now ≡ interior.now.rows }
    ensures { length columns.new ≡ length columns.old }
{
    let mut squares: i128 = 0;
    for t in 0..interior.count() {
        let image = image_of(interior.terms(t), rows);
        if image.wrapping_abs() >= MOST_IMAGE {
            return None;
        }
        let narrow = image.max(-MOST_IMAGE).min(MOST_IMAGE) as i64;
        columns[t].image = narrow;
        // At most 1,000 squares below 2^116.
        squares = squares.wrapping_add(square(narrow));
    }
    Some(squares)
}

// A column's coefficients times the direction: at most 1,000 products below 2^84.
fn image_of(terms: &[Term], rows: &[Change]) -> i128
    requires { All (IsBelow (length rows.now)) terms.now }
{
    let mut image: i128 = 0;
    for &term in terms {
        let direction = i128::from(rows[term.row as usize].direction);
        image = image.wrapping_add(i128::from(term.coefficient).wrapping_mul(direction));
    }
    image
}

/// A quotient of two sums of squares, with 40 bits after the point, at most 2^60. The divisor is shortened
/// where the dividend has no room for 40 more bits.
pub(crate) fn quotient(dividend: i128, divisor: i128) -> i64 {
    let room = dividend
        .leading_zeros()
        .saturating_sub(2)
        .min(QUOTIENT_BITS);
    let shortened = divisor.wrapping_shr(QUOTIENT_BITS.wrapping_sub(room));
    narrowed(dividend.wrapping_shl(room).wrapping_div(shortened.max(1)))
}

// A number, cut off at 2^60.
fn narrowed(wide: i128) -> i64 {
    wide.max(-MOST_WIDE).min(MOST_WIDE) as i64
}

// A quotient times a number.
fn scaled(quotient: i64, number: i64) -> i64 {
    let product = i128::from(quotient).wrapping_mul(i128::from(number));
    narrowed(product.wrapping_shr(QUOTIENT_BITS))
}

/// Goes a step in the direction. Whether all numbers stay within their limits.
pub(crate) fn advance(columns: &mut [Residual], rows: &mut [Change], step: i64) -> bool
    ensures columns { length columns.new ≡ length columns.old }
    ensures rows { length rows.new ≡ length rows.old }
{
    // Numbers are below 2^60 before and what is added is at most 2^60.
    for i in 0..rows.len() {
        let row = rows[i];
        if row.direction == 0 {
            continue;
        }
        let change = row.change.wrapping_add(scaled(step, row.direction));
        rows[i].change = change;
        if change.wrapping_abs() >= MOST_CHANGE {
            return false;
        }
    }
    for t in 0..columns.len() {
        let column = columns[t];
        if column.image == 0 {
            continue;
        }
        let left = column.left.wrapping_sub(scaled(step, column.image));
        columns[t].left = left;
        if left.wrapping_abs() > MOST_RESIDUAL {
            return false;
        }
    }
    true
}

/// The next direction: the slope and a multiple of the last direction. Whether all stay within their limits.
pub(crate) fn redirect(rows: &mut [Change], multiple: i64) -> bool
    ensures { length rows.new ≡ length rows.old }
{
    for i in 0..rows.len() {
        let row = rows[i];
        // Both are below 2^62.
        let direction = row.slope.wrapping_add(scaled(multiple, row.direction));
        if direction.wrapping_abs() >= MOST_SLOPE {
            return false;
        }
        rows[i].direction = direction;
    }
    true
}

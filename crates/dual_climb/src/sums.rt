// Sums of each row over the free columns, and the precisions that they allow.
ghost use Rattle.std.specs.Prelude.{◌≡◌, ◌<◌, length, All, IfOk};
ghost use Rattle.dual_climb.specs.Climbs.{IsBelow};

use crate::points::MOST_BITS;
use crate::relaxation::{FreeColumn, Relaxation, Term};
use std::alloc::{AllocError, Global};

/// Fewer bits after the point are of no use.
const LEAST_BITS: u32 = 6;

/// Activities stay below this, in fixed point too.
const ACTIVITY_LIMIT: i64 = 1 << 61;

/// What a vector's type allows of a multiplier.
const MOST_MULTIPLIER: i64 = 1 << 40;

/// Of a row over the free columns: the least and the greatest sum, the sum of the coefficients' absolute
/// values times the farther bound, and the sum of their squares.
#[derive(Clone, Copy)]
pub(crate) struct RowSums {
    pub least: i64,
    pub most: i64,
    pub reach: i64,
    pub squares: i64,
}

/// The sums of each row.
pub(crate) fn row_sums(alloc: Global, relaxation: &Relaxation) -> Result<Vec<RowSums>, AllocError>
    ensures { IfOk result (λ sums. length sums.items ≡ relaxation.now.rows) }
{
    let none = RowSums {
        least: 0,
        most: 0,
        reach: 0,
        squares: 0,
    };
    let mut sums = vec![in alloc; none; relaxation.rows()]?;
    for t in 0..relaxation.count() {
        add_column(&mut sums, relaxation.column(t), relaxation.terms(t));
    }
    Ok(sums)
}

// The sums with one term more. By the model's limits no sum exceeds 10^18 but that of the squares,
// which stops at the end of its type.
fn with_term(sum: RowSums, coefficient: i64, low: i64, high: i64) -> RowSums {
    let at_low = coefficient.wrapping_mul(low);
    let at_high = coefficient.wrapping_mul(high);
    let farther = at_low.wrapping_abs().max(at_high.wrapping_abs());
    let square = coefficient.wrapping_mul(coefficient);
    RowSums {
        least: sum.least.wrapping_add(at_low.min(at_high)),
        most: sum.most.wrapping_add(at_low.max(at_high)),
        reach: sum.reach.wrapping_add(farther),
        squares: sum.squares.saturating_add(square),
    }
}

// Adds a column's part to the sums.
fn add_column(sums: &mut [RowSums], column: FreeColumn, terms: &[Term])
    requires { All (IsBelow (length sums.old)) terms.now }
    ensures { length sums.new ≡ length sums.old }
{
    let (low, high) = (i64::from(column.low), i64::from(column.high));
    for &term in terms {
        let i = term.row as usize;
        sums[i] = with_term(sums[i], i64::from(term.coefficient), low, high);
    }
}

/// How many bits after the point keep each activity within its limit. None where too few are left.
pub(crate) fn fraction_bits(sums: &[RowSums]) -> Option<u32> {
    let mut reach = 0;
    for sum in sums {
        reach = sum.reach.max(reach);
    }
    for fewer in 0..=MOST_BITS - LEAST_BITS {
        let bits = MOST_BITS - fewer;
        if reach < ACTIVITY_LIMIT.wrapping_shr(bits) {
            return Some(bits);
        }
    }
    None
}

/// The limit of a multiplier's absolute value: as a vector's type has it, and so that no reduced cost
/// exceeds 2^62.
pub(crate) fn multiplier_limit(relaxation: &Relaxation) -> i64 {
    let mut most = 0;
    for t in 0..relaxation.count() {
        most = absolute_sum(relaxation.terms(t)).max(most);
    }
    MOST_MULTIPLIER.min(ACTIVITY_LIMIT.wrapping_div(most.max(1)))
}

// The sum of the coefficients' absolute values, at most 10^12.
fn absolute_sum(terms: &[Term]) -> i64 {
    let mut sum: i64 = 0;
    for term in terms {
        sum = sum.wrapping_add(i64::from(term.coefficient).wrapping_abs());
    }
    sum
}

// Penalties of rows, as whole numbers times 2^bits, and their adaptation.
ghost use Rattle.std.specs.Prelude.{◌≡◌, length, IfOk};

use crate::relaxation::Relaxation;
use crate::sums::RowSums;
use std::alloc::{AllocError, Global};

/// The range of a penalty, and whether its row's multiplier rose (1), fell (-1) or stayed (0) when it last moved.
#[derive(Clone, Copy)]
pub(crate) struct PenaltyRange {
    pub least: i64,
    pub greatest: i64,
    pub direction: i64,
}

/// A penalty grows to at most this many times what it begins with, and falls as far.
const MOST_GROWTH: i64 = 4;

const MOST_PENALTY: i64 = 1 << 31;

/// A penalty times a square stays at most this.
const CURVATURE_LIMIT: i64 = 1 << 60;

/// Penalties begin at this over the sum of a row's squares: the mean cost over the mean width and the rows
/// per column. It is kept as a numerator and a denominator.
#[derive(Clone, Copy)]
pub(crate) struct Ratio {
    pub numerator: i128,
    pub denominator: i128,
}

/// That ratio for a relaxation and so many rows, divided by a small number. Both parts stay below 2^73:
/// scale times cost is below 2^50, and there are at most 1,000 columns and rows with widths below 2^21.
pub(crate) fn base_ratio(relaxation: &Relaxation, scale: u32, rows: i64, divisor: i64) -> Ratio {
    let mut costs: i64 = 0;
    let mut widths: i64 = 0;
    let mut count: i64 = 0;
    for t in 0..relaxation.count() {
        let column = relaxation.column(t);
        costs = costs.wrapping_add(column.cost.wrapping_abs());
        widths = widths.wrapping_add(i64::from(column.high).wrapping_sub(i64::from(column.low)));
        count = count.wrapping_add(1);
    }
    // The mean cost counts as half a unit at least.
    let costs = costs
        .wrapping_mul(2)
        .max(count.wrapping_mul(i64::from(scale)));
    Ratio {
        numerator: i128::from(costs).wrapping_mul(i128::from(count)),
        denominator: i128::from(widths.wrapping_mul(2)).wrapping_mul(i128::from(rows.wrapping_mul(
            divisor,
        ))),
    }
}

/// How many rows have coefficients in free columns, at least 1.
pub(crate) fn used_rows(sums: &[RowSums]) -> i64 {
    let mut count: i64 = 0;
    for sum in sums {
        if sum.squares > 0 {
            count = count.wrapping_add(1);
        }
    }
    count.max(1)
}

/// The greatest number of bits, at most 16, for which no penalty exceeds its limit.
pub(crate) fn penalty_bits(sums: &[RowSums], ratio: Ratio) -> u32 {
    let mut squares = i64::MAX;
    for sum in sums {
        if sum.squares > 0 {
            squares = sum.squares.min(squares);
        }
    }
    for fewer in 0..16 {
        let bits = 16 - fewer;
        let most = quotient(ratio, squares, bits);
        if most <= i128::from(MOST_PENALTY / MOST_GROWTH) {
            return bits;
        }
    }
    0
}

// The ratio times 2^bits over a sum of squares. The parts are below 2^89 and 2^117.
fn quotient(ratio: Ratio, squares: i64, bits: u32) -> i128 {
    let denominator = ratio.denominator.wrapping_mul(i128::from(squares));
    ratio
        .numerator
        .wrapping_shl(bits)
        .wrapping_div(denominator.max(1))
}

/// The range of each row's penalty.
pub(crate) fn penalty_ranges(
    alloc: Global,
    sums: &[RowSums],
    ratio: Ratio,
    bits: u32,
) -> Result<Vec<PenaltyRange>, AllocError>
    ensures { IfOk result (λ ranges. length ranges.items ≡ length sums.now) }
{
    let mut ranges = Vec::with_capacity(alloc, sums.len())?;
    for sum in sums {
        ranges.push(penalty_range(sum.squares, ratio, bits))?;
    }
    Ok(ranges)
}

// The range of a row's penalty; a row without coefficients has the penalty 0.
fn penalty_range(squares: i64, ratio: Ratio, bits: u32) -> PenaltyRange {
    if squares <= 0 {
        return PenaltyRange {
            least: 0,
            greatest: 0,
            direction: 0,
        };
    }
    let most = (MOST_PENALTY / MOST_GROWTH).min(CURVATURE_LIMIT.wrapping_div(squares));
    let base = quotient(ratio, squares, bits).clamp(1, i128::from(most.max(1))) as i64;
    PenaltyRange {
        least: base.wrapping_div(MOST_GROWTH).max(1),
        greatest: base.wrapping_mul(MOST_GROWTH),
        direction: 0,
    }
}

/// The penalty that a range begins with.
pub(crate) fn first_penalty(range: PenaltyRange) -> i64 {
    range.greatest / MOST_GROWTH
}

/// The penalty after its row's multiplier moved: greater where it went on in its direction, less where it
/// turned. A penalty is at most 2^31.
pub(crate) fn adapted(penalty: i64, direction: i64, range: PenaltyRange) -> i64 {
    let turn = direction.wrapping_mul(range.direction);
    if turn > 0 {
        (penalty.wrapping_mul(18) / 16).min(range.greatest)
    } else if turn < 0 {
        (penalty.wrapping_mul(13) / 16).max(range.least)
    } else {
        penalty
    }
}

// The least and the greatest sums of all rows over a box, and how far their terms' products spread.
ghost use Rattle.std.specs.Prelude.{◌≡◌, ◌*◌, ◌^◌, ◌≤◌, ◌+ℤ◌, ℕ, pos, unsigned_abs, length, slice_index_or, false};
ghost use Rattle.int_model.specs.Limits.{IsEntry};
ghost use Rattle.int_model.specs.Boxes.{is_empty};
ghost use Rattle.int_model.specs.Programs.{AreTerms};
ghost use Rattle.int_model.specs.RowSums.{coefficient};
ghost use Rattle.tighten.specs.Steps.{rows_of};
ghost use Rattle.tighten.specs.Sums.{AreLeast, AreGreatest, AreSpreads, AreSmall, change};

use activity::extremes;
use int_model::{Model, PointBox};

/// Takes the sums of each row over a box, and a number that no term's spread exceeds.
pub fn take(
    model: &Model,
    bounds: &PointBox,
    least: &mut [i64],
    most: &mut [i64],
    spread: &mut [u64],
)
    requires columns { length bounds.now ≡ length model.now.columns }
    requires occupied { is_empty bounds.now ≡ false }
    requires least_count { length least.old ≡ length model.now.rows }
    requires most_count { length most.old ≡ length model.now.rows }
    requires spread_count { length spread.old ≡ length model.now.rows }
    ensures least { AreLeast (rows_of model.now) bounds.now least.new }
    ensures most { AreGreatest (rows_of model.now) bounds.now most.new }
    ensures spread { AreSpreads (rows_of model.now) bounds.now spread.new }
{
    let _columns = model.columns();
    let lows = bounds.lows();
    let highs = bounds.highs();
    for row in 0..model.rows() {
        let (low_sum, high_sum, widest) = extremes(model.row(row).terms.as_slice(), lows, highs);
        least[row as usize] = low_sum;
        most[row as usize] = high_sum;
        spread[row as usize] = widest;
    }
}

/// Moves the sums of a column's rows, where the ends of its interval have moved by so much.
pub fn shift(
    least: &mut [i64],
    most: &mut [i64],
    terms: &[(u32, i64)],
    low_change: i64,
    high_change: i64,
)
    requires count { length most.old ≡ length least.old }
    requires rows { AreTerms 0 (length least.old) terms.now }
    requires least { AreSmall least.old }
    requires most { AreSmall most.old }
    requires low { unsigned_abs low_change ≤ 2 * 10 ^ 6 }
    requires high { unsigned_abs high_change ≤ 2 * 10 ^ 6 }
    ensures least { (i : ℕ) → slice_index_or least.new i (pos 0) ≡ slice_index_or least.old i (pos 0) +ℤ change low_change high_change (coefficient i terms.now) }
    ensures most { (i : ℕ) → slice_index_or most.new i (pos 0) ≡ slice_index_or most.old i (pos 0) +ℤ change high_change low_change (coefficient i terms.now) }
{
    for &(row, coefficient) in terms {
        least[row as usize] += changed(coefficient, low_change, high_change);
        most[row as usize] += changed(coefficient, high_change, low_change);
    }
}

/// Raises the numbers of a column's rows, so that they are at least the spreads of the column's terms
/// over an interval of this width.
pub fn widen(spread: &mut [u64], terms: &[(u32, i64)], width: u64)
    requires rows { AreTerms 0 (length spread.old) terms.now }
    requires width { width ≤ 2 * 10 ^ 6 }
    ensures grown { (i : ℕ) → slice_index_or spread.old i 0 ≤ slice_index_or spread.new i 0 }
    ensures wide { (i : ℕ) → unsigned_abs (coefficient i terms.now) * width ≤ slice_index_or spread.new i 0 }
{
    for &(row, coefficient) in terms {
        spread[row as usize] |= coefficient.unsigned_abs() * width;
    }
}

// By how much a coefficient's product at one end changes: at the first for a coefficient above 0, and
// else at the other.
fn changed(coefficient: i64, first: i64, second: i64) -> i64
    requires coefficient { IsEntry coefficient }
    requires first { unsigned_abs first ≤ 2 * 10 ^ 6 }
    requires second { unsigned_abs second ≤ 2 * 10 ^ 6 }
    ensures value { result ≡ change first second coefficient }
    ensures limit { unsigned_abs result ≤ 2 * 10 ^ 15 }
{
    let end = if coefficient > 0 { first } else { second };
    coefficient * end
}

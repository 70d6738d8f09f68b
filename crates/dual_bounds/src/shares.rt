// The shares of all columns: the multipliers that count times the columns' coefficients.
ghost use Rattle.std.specs.Prelude.{◌≡◌, ◌*◌, ◌+◌, ◌^◌, ◌<◌, ◌≤◌, ◌+ℤ◌, ◌*ℤ◌, ℕ, pos, true, unsigned_abs, length, slice_index_or, IfSome};
ghost use Rattle.int_model.specs.Limits.{IsEntry};
ghost use Rattle.int_model.specs.Programs.{AreTerms};
ghost use Rattle.int_model.specs.RowSums.{coefficient};
ghost use Rattle.dual_bounds.specs.Counting.{IsMultiplier};
ghost use Rattle.dual_bounds.specs.SharedParts.{AreSmall};
ghost use Rattle.dual_bounds.specs.Vectors.{AreEntries, RowsBelow, counted, rows_of};
ghost use Rattle.dual_bounds.specs.Vectors as spec;

use crate::parts::counting_multiplier;
use int_model::{Ends, Model};

/// The most columns of a model.
pub const MAX_COLUMNS: usize = 1_000;

/// A narrow share is at most this in absolute value, so that it fits 64 bits together with a cost times a
/// scale.
const MOST_SHARE: u128 = 1 << 62;

// A multiplier times a coefficient.
fn entry_product(multiplier: i64, coefficient: i64) -> i128
    requires multiplier { IsMultiplier multiplier }
    requires coefficient { IsEntry coefficient }
    ensures value { result ≡ multiplier *ℤ coefficient }
    ensures limit { unsigned_abs result ≤ 2 ^ 70 }
{
    i128::from(multiplier) * i128::from(coefficient)
}

// Adds a multiple of a row's coefficients to the shares of its columns.
fn add_row(shares: &mut [i128], terms: &[(u32, i64)], multiplier: i64)
    requires terms { AreTerms 0 (length shares.old) terms.now }
    requires multiplier { IsMultiplier multiplier }
    requires limit { (j : ℕ) → unsigned_abs (slice_index_or shares.old j (pos 0)) ≤ 2 ^ 77 }
    ensures value { (j : ℕ) → slice_index_or shares.new j (pos 0) ≡ slice_index_or shares.old j (pos 0) +ℤ multiplier *ℤ coefficient j terms.now }
    ensures limit { (j : ℕ) → unsigned_abs (slice_index_or shares.new j (pos 0)) ≤ unsigned_abs (slice_index_or shares.old j (pos 0)) + 2 ^ 70 }
{
    for &(column, coefficient) in terms {
        shares[column as usize] += entry_product(multiplier, coefficient);
    }
}

/// Takes the share of each column, from one pass over the rows of the entries that count. The shares are
/// 0 before.
pub fn take(model: &Model, ends: &[Ends], entries: &[(u32, i64)], shares: &mut [i128])
    requires ends { length ends.now ≡ length model.now.rows }
    requires few { length entries.now ≤ 128 }
    requires entries { AreEntries 0 entries.now }
    requires rows { RowsBelow (length model.now.rows) entries.now }
    requires columns { length model.now.columns ≤ length shares.old }
    requires zero { (j : ℕ) → slice_index_or shares.old j (pos 0) ≡ pos 0 }
    ensures value { (j : ℕ) → slice_index_or shares.new j (pos 0) ≡ spec.share (rows_of model.now) (counted ends.now entries.now) j }
    ensures limit { (j : ℕ) → unsigned_abs (slice_index_or shares.new j (pos 0)) ≤ 2 ^ 77 }
{
    let _columns = model.columns();
    for &(row, multiplier) in entries {
        let counting = counting_multiplier(ends, row, multiplier);
        add_row(shares, model.row(row).terms.as_slice(), counting);
    }
}

// A narrow share with a product more, None where that is too large for one.
fn grown(share: i64, product: i128) -> Option<i64>
    requires share { unsigned_abs share ≤ 2 ^ 62 }
    requires product { unsigned_abs product ≤ 2 ^ 70 }
    ensures value { IfSome result (λ z. z ≡ share +ℤ product) }
    ensures limit { IfSome result (λ z. unsigned_abs z ≤ 2 ^ 62) }
{
    let sum = i128::from(share) + product;
    if sum.unsigned_abs() > MOST_SHARE {
        return None;
    }
    Some(sum as i64)
}

// Adds a multiple of a row's coefficients to the narrow shares of its columns. False where one grows too
// large.
fn add_narrow(shares: &mut [i64], terms: &[(u32, i64)], multiplier: i64) -> bool
    requires terms { AreTerms 0 (length shares.old) terms.now }
    requires multiplier { IsMultiplier multiplier }
    requires small { AreSmall shares.old }
    ensures value { result ≡ true → (j : ℕ) → slice_index_or shares.new j (pos 0) ≡ slice_index_or shares.old j (pos 0) +ℤ multiplier *ℤ coefficient j terms.now }
    ensures small { AreSmall shares.new }
    ensures len { length shares.new ≡ length shares.old }
{
    for &(column, coefficient) in terms {
        let place = column as usize;
        let product = entry_product(multiplier, coefficient);
        let Some(share) = grown(shares[place], product) else {
            return false;
        };
        shares[place] = share;
    }
    true
}

/// Takes the narrow share of each column, each entry counted. False where one grows too large. The shares
/// are 0 before.
pub fn take_narrow(model: &Model, entries: &[(u32, i64)], shares: &mut [i64]) -> bool
    requires few { length entries.now ≤ 128 }
    requires entries { AreEntries 0 entries.now }
    requires rows { RowsBelow (length model.now.rows) entries.now }
    requires columns { length model.now.columns ≤ length shares.old }
    requires zero { (j : ℕ) → slice_index_or shares.old j (pos 0) ≡ pos 0 }
    ensures value { result ≡ true → (j : ℕ) → slice_index_or shares.new j (pos 0) ≡ spec.share (rows_of model.now) entries.now j }
    ensures small { AreSmall shares.new }
    ensures len { length shares.new ≡ length shares.old }
{
    let _columns = model.columns();
    for &(row, multiplier) in entries {
        if !add_narrow(shares, model.row(row).terms.as_slice(), multiplier) {
            return false;
        }
    }
    true
}

// Multipliers of all rows from a vector, and a vector from the multipliers of all rows.
ghost use Rattle.std.specs.Prelude.{◌≡◌, ◌≢◌, ◌≤◌, ◌<◌, ◌^◌, pos, unsigned_abs, length, IfOk};
ghost use Rattle.dual_bounds.specs.Vectors.{AreEntries, RowsBelow};
ghost use Rattle.dual_bounds.specs.declared.vector.VectorError.TheVariants.{Memory};

use crate::relaxation::Relaxation;
use dual_bounds::{Vector, VectorError};
use int_model::Model;
use std::alloc::{AllocError, Global};

/// The most entries of a vector.
const MOST_ENTRIES: usize = 128;

/// The most that a vector's multiplier may be.
const MOST_MULTIPLIER: i64 = 1 << 40;

/// The multiplier of each row, brought within a limit, and 0 where the row hasn't got the end that it is held
/// against.
pub(crate) fn multipliers_of(
    alloc: Global,
    relaxation: &Relaxation,
    limit: i64,
    vector: &Vector,
) -> Result<Vec<i64>, AllocError>
    ensures { IfOk result (λ multipliers. length multipliers.items ≡ relaxation.now.rows) }
{
    let mut multipliers = vec![in alloc; 0; relaxation.rows()]?;
    for &(row, multiplier) in vector.entries() {
        let i = row as usize;
        if i < multipliers.len() && has_end(relaxation, i, multiplier) {
            multipliers[i] = multiplier.max(limit.wrapping_neg()).min(limit);
        }
    }
    Ok(multipliers)
}

// Whether a row has the end that a multiplier is held against.
fn has_end(relaxation: &Relaxation, i: usize, multiplier: i64) -> bool
    requires { i < relaxation.now.rows }
{
    let ends = relaxation.ends(i);
    if multiplier > 0 {
        ends.lower.is_some()
    } else {
        ends.upper.is_some()
    }
}

/// The vector of the multipliers that aren't 0. Where they are too many, those with the least product of
/// absolute value and greatest coefficient are left out.
pub(crate) fn vector_of(
    alloc: Global,
    model: &Model,
    scale: u32,
    multipliers: &mut [i64],
) -> Result<Vector, AllocError>
    requires scale { scale ≤ 2 ^ 20 }
    requires multipliers { length multipliers.old ≡ length model.now.rows }
    ensures scale { IfOk result (λ v. v.scale ≡ scale) }
    ensures rows { IfOk result (λ v. RowsBelow (length model.now.rows) v.entries) }
{
    let _rows = model.rows();
    drop_least(alloc, model, multipliers)?;
    let entries = entries_of(alloc, multipliers)?;
    match Vector::new(alloc, scale, &entries) {
        Ok(vector) => Ok(vector),
        Err(error) => Err(want_of_memory(error)),
    }
}

// The error for want of memory, which is the only one here: the entries keep a vector's limits.
fn want_of_memory(error: VectorError) -> AllocError
    requires { error ≡ Memory }
{
    let _ = error;
    AllocError
}

// Whether more multipliers aren't 0 than a vector may have.
fn are_many(multipliers: &[i64]) -> bool {
    let mut count: usize = 0;
    for &multiplier in multipliers {
        if multiplier != 0 {
            count = count.wrapping_add(1);
        }
    }
    count > MOST_ENTRIES
}

// Makes all but the 128 weightiest multipliers 0.
fn drop_least(alloc: Global, model: &Model, multipliers: &mut [i64]) -> Result<(), AllocError>
    requires { length multipliers.old ≡ length model.now.rows }
    ensures { length multipliers.new ≡ length multipliers.old }
{
    if !are_many(multipliers) {
        return Ok(());
    }
    let mut weights = Vec::new(alloc);
    for i in 0..model.rows() {
        let multiplier = multipliers[i as usize];
        if multiplier != 0 {
            weights.push((weight(model.row(i).terms.as_slice(), multiplier), i))?;
        }
    }
    if weights.len() <= MOST_ENTRIES {
        return Ok(());
    }
    weights.sort()?;
    let dropped = weights.len() - MOST_ENTRIES;
    for &(_, row) in &weights[..dropped] {
        let i = row as usize;
        if i < multipliers.len() {
            multipliers[i] = 0;
        }
    }
    Ok(())
}

// The absolute value of a multiplier times the greatest of its row's coefficients: below 2^71.
fn weight(terms: &[(u32, i64)], multiplier: i64) -> i128 {
    let mut greatest: i64 = 0;
    for &(_, coefficient) in terms {
        greatest = coefficient.wrapping_abs().max(greatest);
    }
    i128::from(multiplier.wrapping_abs()).wrapping_mul(i128::from(greatest))
}

// The nearest multiplier within a vector's limit.
fn limited(multiplier: i64) -> i64
    requires { multiplier ≢ pos 0 }
    ensures limit { unsigned_abs result ≤ 2 ^ 40 }
    ensures other { result ≢ pos 0 }
{
    multiplier.max(-MOST_MULTIPLIER).min(MOST_MULTIPLIER)
}

// The rows whose multipliers aren't 0, and these multipliers, brought within a vector's limits.
fn entries_of(alloc: Global, multipliers: &[i64]) -> Result<Vec<(u32, i64)>, AllocError>
    requires { length multipliers.now ≤ 1000 }
    ensures rows { IfOk result (λ entries. RowsBelow (length multipliers.now) entries.items) }
    ensures limits { IfOk result (λ entries. AreEntries 0 entries.items) }
    ensures few { IfOk result (λ entries. length entries.items ≤ 128) }
{
    let mut entries = Vec::new(alloc);
    for (row, &multiplier) in multipliers.iter().enumerate() {
        if multiplier == 0 {
            continue;
        }
        if entries.len() >= MOST_ENTRIES {
            return Ok(entries);
        }
        entries.push((row as u32, limited(multiplier)))?;
    }
    Ok(entries)
}

// Vectors of multipliers within their limits.
ghost use Rattle.std.specs.Prelude.{◌≡◌, ◌⊎◌, ◌^◌, IfOk, IfErr, None, Some};
ghost use Rattle.dual_bounds.specs.Vectors.{KeepsLimits};
ghost use Rattle.dual_bounds.specs.Refusals.{is_bad, entries_refusal, refusal};
ghost use Rattle.dual_bounds.specs.declared.vector.VectorError.TheVariants.{Memory};

use std::alloc::{AllocError, Global};
use std::marker::Model;
use thiserror::Error;

const MAX_SCALE: u32 = 1 << 20;

const MAX_ENTRIES: usize = 128;

const MAX_MULTIPLIER: u64 = 1 << 40;

/// Why parts make no vector.
#[derive(Clone, Copy, Debug, PartialEq, Eq, Error)]
pub enum VectorError {
    /// The scale is above 2^20.
    #[error("the scale is too large")]
    BadScale,
    /// There are more than 128 entries.
    #[error("too many entries")]
    TooMany,
    /// The first entry, by its place from 0 on, whose row doesn't rise, or whose multiplier is 0 or
    /// above 2^40 in absolute value.
    #[error("entry {0} has a bad row or multiplier")]
    BadEntry(usize),
    #[error("out of memory")]
    Memory,
}

impl From<AllocError> for VectorError {
    ghost from_gives = { λ _ e. e ≡ Memory };

    fn from(_: AllocError) -> Self {
        VectorError::Memory
    }
}

/// Whole-number multipliers of rows (dual multipliers) over a common scale. The scale is at most 2^20.
/// At most 128 entries hold a row and its multiplier; their rows rise, and no multiplier is 0 or above
/// 2^40 in absolute value.
#[derive(Drop)]
pub struct Vector {
    scale: u32,
    entries: Vec<(u32, i64)>,
}

impl Model for Vector {
    ghost use Rattle.dual_bounds.specs.Vectors.{Multipliers, KeepsLimits};

    ghost Value = { Multipliers };

    ghost view = { λ v. record { scale = v.scale; entries = v.entries.items } };

    ghost invariant = { λ v. KeepsLimits (record { scale = v.scale; entries = v.entries.items }) };
}

impl Vector {
    /// The vector of these parts, or the first thing that is wrong with them: the scale, then the number
    /// of entries, then the entries in order.
    pub fn new(alloc: Global, scale: u32, entries: &[(u32, i64)]) -> Result<Vector, VectorError>
        ensures ok { IfOk result (λ v. (refusal scale entries.now ≡ None) × (v ≡ record { scale = scale; entries = entries.now })) }
        ensures err { IfErr result (λ e. (e ≡ Memory) ⊎ (refusal scale entries.now ≡ Some e)) }
    {
        if let Some(error) = fault(scale, entries) {
            return Err(error);
        }
        Ok(Vector {
            scale,
            entries: entries.to_vec(alloc)?,
        })
    }

    /// The scale: what the costs are multiplied by.
    pub fn scale(&self) -> u32
        ensures value { result ≡ self.now.scale }
        ensures limits { KeepsLimits self.now }
    {
        self.scale
    }

    /// The rows and their multipliers.
    pub fn entries(&self) -> &[(u32, i64)]
        ensures value { result.now ≡ self.now.entries }
        ensures limits { KeepsLimits self.now }
    {
        &self.entries
    }
}

// Whether an entry may not stand where rows from a least one on may come.
fn is_bad_entry(least: u64, row: u32, multiplier: i64) -> bool
    ensures { result ≡ is_bad least (row, multiplier) }
{
    u64::from(row) < least || multiplier.unsigned_abs() > MAX_MULTIPLIER || multiplier == 0
}

// What is wrong with the entries.
fn entries_fault(entries: &[(u32, i64)]) -> Option<VectorError>
    ensures { result ≡ entries_refusal 0 0 entries.now }
{
    let mut least = 0;
    for (place, &(row, multiplier)) in entries.iter().enumerate() {
        if is_bad_entry(least, row, multiplier) {
            return Some(VectorError::BadEntry(place));
        }
        least = u64::from(row) + 1;
    }
    None
}

// What is wrong with the parts of a vector.
fn fault(scale: u32, entries: &[(u32, i64)]) -> Option<VectorError>
    ensures { result ≡ refusal scale entries.now }
{
    if scale > MAX_SCALE {
        Some(VectorError::BadScale)
    } else if entries.len() > MAX_ENTRIES {
        Some(VectorError::TooMany)
    } else {
        entries_fault(entries)
    }
}

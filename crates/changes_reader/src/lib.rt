//! Reads the changes of scenarios from a text.
//!
//! The first line with fields is `scenarios N`. A line `scenario K` selects a scenario, and each other line sets a
//! name, a cost, a bound or a right-hand side of the selected one. A text is read once, line by line: each line
//! either is taken or is the first one that offends, and then its first offence is told.
#![tactic(auto)]

ghost use Rattle.std.specs.Prelude.{◌≡◌, ◌≤◌, length};
ghost use Rattle.changes_reader.specs.Readings.{IsReading};
ghost use Rattle.changes_reader.specs.declared.ChangesError.TheVariants as refused;

mod fault;
pub mod laws;
mod line;
mod tables;
mod value;

use crate::line::take_line;
use crate::tables::Tables;
use int_model::Model;
use num_text::{Lines, is_read, read_fields};
use scenario_changes::Changes;
use std::alloc::{AllocError, Global};
use thiserror::Error;

/// Why a line of a changes text is refused.
#[derive(Clone, Copy, Debug, PartialEq, Eq)]
pub enum ChangesKind {
    /// The first line is no `scenarios` line, or a later one is.
    Header,
    /// A first field that is no word of such a text.
    Word,
    /// A wrong number of fields.
    Fields,
    /// More than 64 scenarios.
    TooMany,
    /// A scenario that there is not, or a setting where there are none.
    NoScenario,
    /// A column that the model does not have.
    UnknownColumn,
    /// A row that the model does not have.
    UnknownRow,
    /// A name of more than 255 bytes.
    LongName,
    /// A field that is no number.
    Number,
    /// A number that is not whole.
    Fraction,
    /// A number beyond its limit.
    Magnitude,
    /// The removal of a row that can't be removed so.
    BadRemoval,
}

/// Why a text has no changes.
#[derive(Clone, Copy, Debug, PartialEq, Eq, Error)]
pub enum ChangesError {
    /// The first line that offends, counted from 1, and its first offence.
    #[error("line {line} of the changes is refused: {kind:?}")]
    Line { line: u32, kind: ChangesKind },
    /// No memory was left.
    #[error("out of memory")]
    Memory,
}

impl From<AllocError> for ChangesError {
    ghost from_gives = { λ _ error. error ≡ refused.Memory };

    fn from(_: AllocError) -> Self {
        ChangesError::Memory
    }
}

/// The greatest length of a text in bytes.
pub const MAX_BYTES: usize = 16_777_216;

/// The changes that a text of at most 16,777,216 bytes makes of a model, or the first line that offends.
///
/// For each scenario, attribute and name the last setting in the text counts. The scenario that the text selected
/// last stays selected.
pub fn read_changes(alloc: Global, model: &Model, bytes: &[u8]) -> Result<Changes, ChangesError>
    requires { length bytes.now ≤ 16777216 }
    ensures { IsReading model.now bytes.now result }
{
    let tables = Tables::new(alloc, model)?;
    let mut changes = Changes::new(alloc, model)?;
    let mut fields = Vec::new(alloc);
    let mut is_first = true;
    let mut number: u32 = 0;
    for line in Lines::new(bytes) {
        number += 1;
        if !is_read(line) {
            continue;
        }
        read_fields(line, &mut fields)?;
        match take_line(&tables, &mut changes, is_first, &fields) {
            Ok(()) => is_first = false,
            Err(fault) => return Err(fault.at(number)),
        }
    }
    Ok(changes)
}

#[cfg(test)]
mod tests;

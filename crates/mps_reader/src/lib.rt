//! Reads integer models from MPS text.
//!
//! The profile is the usual MPS layout with the sections NAME, OBJSENSE, ROWS, COLUMNS, RHS, RANGES, BOUNDS and
//! ENDATA, for models whose columns are all integer and bounded. Fields are runs of bytes that are no blanks, in
//! fixed and free layout alike. A text is read once, line by line: each line either is taken into the draft of the
//! model or is the first one that offends, and then its first offence is told.
#![tactic(auto)]

ghost use Rattle.std.specs.Prelude.{◌≡◌, ◌≤◌, ◌+◌, ℕ, List, length, IfOk, IfErr};
ghost use Rattle.mps_reader.specs.MpsLines.{Line, column_names};
ghost use Rattle.mps_reader.specs.MpsModels.{model_of, model_of_lines, end_kind};
ghost use Rattle.mps_reader.specs.Tables.{texts_of};
ghost use Rattle.mps_reader.specs.ColumnStates.{ColumnsAgree};
ghost use Rattle.mps_reader.specs.Endings.{IsRefusedWith, IsErrorOf, IsErrorAt};
ghost use Rattle.mps_reader.specs.Drafts.{HasParts};
ghost use Rattle.mps_reader.specs.declared.MpsKind.{MpsKind};
ghost use Rattle.mps_reader.specs.MpsLines as lines;
ghost use Rattle.mps_reader.specs.declared.MpsError.TheVariants as refused;

mod bounds;
mod columns;
mod draft;
mod fault;
mod header;
mod named;
mod row_draft;
mod rows;
mod sides;

use crate::draft::{Draft, Progress};
use int_model::Model;
use num_text::{Lines, is_blank, is_read, read_fields};
use std::alloc::{AllocError, Global};
use thiserror::Error;

/// Why a line of a model text is refused.
#[derive(Clone, Copy, Debug, PartialEq, Eq)]
pub enum MpsKind {
    /// A header that is unknown, repeated or out of order, or a line where no data may stand.
    Section,
    /// The text has no ENDATA line.
    NoEnd,
    /// A wrong number of fields, or a word that may not stand there.
    Fields,
    /// A row that ROWS does not name.
    UnknownRow,
    /// A column that COLUMNS does not name.
    UnknownColumn,
    /// A name, or a number for a row, that was given already.
    Duplicate,
    /// A name of more than 255 bytes.
    LongName,
    /// A column that is not integer.
    Continuous,
    /// A field that is no number.
    Number,
    /// A number that is not whole.
    Fraction,
    /// A number beyond its limit.
    Magnitude,
    /// A second set of right-hand sides, ranges or bounds.
    SecondSet,
    /// More rows, columns or entries than a model may have.
    TooMany,
    /// A column without a finite bound on some side.
    Unbounded,
    /// An upper bound below 0 beside a lower bound that no line gives.
    NegativeUpper,
}

/// Why a text has no model.
#[derive(Clone, Copy, Debug, PartialEq, Eq, Error)]
pub enum MpsError {
    /// The first line that offends, counted from 1, and its first offence.
    #[error("line {line} of the model is refused: {kind:?}")]
    Line { line: u32, kind: MpsKind },
    /// No memory was left.
    #[error("out of memory")]
    Memory,
}

impl From<AllocError> for MpsError {
    ghost from_gives = { λ _ error. error ≡ refused.Memory };

    fn from(_: AllocError) -> Self {
        MpsError::Memory
    }
}

/// The greatest length of a text in bytes.
pub const MAX_BYTES: usize = 16_777_216;

/// The model of a text of at most 16,777,216 bytes.
///
/// Errors: `Line` exactly for a text that has no model, with its first line that offends, counted from 1, and its
/// first offence there; `NoEnd` is one line behind the last. `Memory` may come for any text.
pub fn read_model(alloc: Global, bytes: &[u8]) -> Result<Model, MpsError>
    requires { length bytes.now ≤ 16777216 }
    ensures accepted { IfOk result (λ m. model_of bytes.now ≡ Ok m) }
    ensures err { IfErr result (λ error. IsErrorOf (model_of bytes.now) error) }
    ensures refused { (refusal : ℕ × MpsKind) → model_of bytes.now ≡ Err refusal → IsRefusedWith refusal result }
{
    let mut draft = Draft::new(alloc);
    let mut fields = Vec::new(alloc);
    let mut number: u32 = 0;
    for line in Lines::new(bytes) {
        number += 1;
        if !is_read(line) {
            continue;
        }
        read_fields(line, &mut fields)?;
        match draft.take_line(alloc, is_header(line), &fields) {
            Ok(Progress::More) => {}
            Ok(Progress::Ended) => return model_at(alloc, draft, number),
            Err(fault) => return Err(fault.at(number)),
        }
    }
    Err(MpsError::Line {
        line: number + 1,
        kind: MpsKind::NoEnd,
    })
}

// The model of a draft, whose text ended at this line.
fn model_at(alloc: Global, draft: Draft, line: u32) -> Result<Model, MpsError>
    ensures ok { IfOk result (λ m. (ls : List Line) → HasParts draft.entry ls → m ≡ model_of_lines ls) }
    ensures err { IfErr result (λ error. (ls : List Line) → HasParts draft.entry ls → IsErrorAt line (end_kind ls (column_names ls)) error) }
    ensures ended { (ls : List Line) (kind : MpsKind) → ColumnsAgree (texts_of draft.entry.columns.table.names.keys) draft.entry.columns.table.items.items ls → texts_of draft.entry.columns.table.names.keys ≡ column_names ls → end_kind ls (column_names ls) ≡ Some kind → IsRefusedWith (line, kind) result }
{
    match draft.into_model(alloc) {
        Ok(model) => Ok(model),
        Err(fault) => Err(fault.at(line)),
    }
}

// Whether a line is a header: its first byte is no blank.
fn is_header(line: &[u8]) -> bool
    ensures { result ≡ lines.is_header line.now }
{
    match line {
        [first, ..] => !is_blank(*first),
        [] => false,
    }
}

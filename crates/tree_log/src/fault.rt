// Why a text is no log.
ghost use Rattle.std.specs.Prelude.{◌≡◌, ◌∷◌, ◌++◌, []};
ghost use Rattle.tree_log.specs.Reads.{IsPushed};
ghost use Rattle.tree_log.specs.declared.fault.Fault.TheVariants as fault;
ghost use Rattle.tree_log.specs.declared.fault.LogError.TheVariants as refused;

use std::alloc::AllocError;
use thiserror::Error;

/// Why a line is refused.
#[derive(Clone, Copy, Debug, PartialEq, Eq)]
pub enum LogKind {
    /// The line is none that may stand there.
    Spelling,
    /// The text stops before the end of the log.
    NoEnd,
}

/// Why a text is no log.
#[derive(Clone, Copy, Debug, PartialEq, Eq, Error)]
pub enum LogError {
    /// The first line that offends, counted from 1.
    #[error("line {line} of the log is refused: {kind:?}")]
    Line { line: u32, kind: LogKind },
    /// No memory was left.
    #[error("out of memory")]
    Memory,
}

impl From<AllocError> for LogError {
    ghost from_gives = { λ _ error. error ≡ refused.Memory };

    fn from(_: AllocError) -> Self {
        LogError::Memory
    }
}

/// Why a line isn't taken.
#[derive(Clone, Copy, Debug, PartialEq, Eq)]
pub(crate) enum Fault {
    Spelling,
    Memory,
}

impl From<AllocError> for Fault {
    ghost from_gives = { λ _ f. f ≡ fault.Memory };

    fn from(_: AllocError) -> Self {
        Fault::Memory
    }
}

/// Appends an item.
pub(crate) fn push<T: Drop>(items: &mut Vec<T>, item: T) -> Result<(), Fault>
    ensures { IsPushed (items.old.items ++ item ∷ []) items.new.items result }
{
    match items.push(item) {
        Ok(()) => Ok(()),
        Err(_) => Err(Fault::Memory),
    }
}

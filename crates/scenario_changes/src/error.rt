// What is wrong with a setting.
ghost use Rattle.std.specs.Prelude.{◌≡◌};
ghost use Rattle.scenario_changes.specs.declared.error.ChangeError.TheVariants.{Memory};

use std::alloc::{AllocError, AllocFailed};
use thiserror::Error;

/// Why a setting was refused. The changes are then as they were.
#[derive(Clone, Copy, Debug, PartialEq, Eq, Error)]
pub enum ChangeError {
    #[error("there is no such scenario")]
    NoScenario,
    #[error("too many scenarios")]
    TooMany,
    #[error("there is no such column")]
    UnknownColumn,
    #[error("there is no such row")]
    UnknownRow,
    #[error("the number is too large")]
    Magnitude,
    #[error("the row can't be removed so")]
    BadRemoval,
    #[error("this can't be a name")]
    BadName,
    #[error("out of memory")]
    Memory,
}

impl From<AllocError> for ChangeError {
    ghost from_gives = { λ _ e. e ≡ Memory };

    fn from(_: AllocError) -> Self {
        ChangeError::Memory
    }
}

impl<T: Drop> From<AllocFailed<T>> for ChangeError {
    ghost from_gives = { λ _ e. e ≡ Memory };

    fn from(_: AllocFailed<T>) -> Self {
        ChangeError::Memory
    }
}

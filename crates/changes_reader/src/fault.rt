// Why a line can't be taken.
ghost use Rattle.std.specs.Prelude.{◌≡◌};
ghost use Rattle.changes_reader.specs.Faults.{fault_of, error_at};
ghost use Rattle.changes_reader.specs.declared.fault.Fault.TheVariants as fault;

use crate::{ChangesError, ChangesKind};
use scenario_changes::ChangeError;

/// Why a line can't be taken.
#[derive(Clone, Copy, Debug, PartialEq, Eq)]
pub(crate) enum Fault {
    Refused(ChangesKind),
    Memory,
}

impl Fault {
    /// The error of the whole text, where the fault came at this line.
    pub(crate) fn at(self, line: u32) -> ChangesError
        ensures { result ≡ error_at line self }
    {
        match self {
            Fault::Refused(kind) => ChangesError::Line { line, kind },
            Fault::Memory => ChangesError::Memory,
        }
    }
}

impl From<ChangesKind> for Fault {
    ghost from_gives = { λ kind f. f ≡ fault.Refused kind };

    fn from(kind: ChangesKind) -> Self {
        Fault::Refused(kind)
    }
}

impl From<ChangeError> for Fault {
    ghost from_gives = { λ error f. f ≡ fault_of error };

    fn from(error: ChangeError) -> Self {
        match error {
            ChangeError::NoScenario => Fault::Refused(ChangesKind::NoScenario),
            ChangeError::TooMany => Fault::Refused(ChangesKind::TooMany),
            ChangeError::UnknownColumn => Fault::Refused(ChangesKind::UnknownColumn),
            ChangeError::UnknownRow => Fault::Refused(ChangesKind::UnknownRow),
            ChangeError::Magnitude => Fault::Refused(ChangesKind::Magnitude),
            ChangeError::BadRemoval => Fault::Refused(ChangesKind::BadRemoval),
            ChangeError::BadName => Fault::Refused(ChangesKind::LongName),
            ChangeError::Memory => Fault::Memory,
        }
    }
}

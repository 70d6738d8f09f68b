// What is said on standard error.
ghost use Rattle.std.specs.Prelude.{◌≡◌, MatchResult};
ghost use Rattle.scenopt.specs.Endings.{Tells, Lacks, Tries, OnlyWarns};
ghost use Rattle.scenopt.specs.Endings as spec;

use crate::input::Input;
use crate::status::Status;
use desk::{Desk, DeskError};
use std::alloc::AllocError;

/// Warns a message that belongs to a status.
pub(crate) fn told<D: Desk>(desk: &mut D, message: &[u8], status: Status) -> Status
    ensures tells { Tells status message.now (D.view desk.old) (D.view desk.new) result }
    ensures others { OnlyWarns (D.view desk.old) (D.view desk.new) }
{
    match desk.warn(message) {
        Ok(()) => status,
        Err(DeskError::Failed) => Status::WriteFault,
        Err(DeskError::Memory) => Status::Memory,
    }
}

/// Tries to warn a message, and leaves the status as it is.
pub(crate) fn tried<D: Desk>(desk: &mut D, message: &[u8], status: Status) -> Status
    ensures status { result ≡ status }
    ensures warned { Tries message.now (D.view desk.old) (D.view desk.new) }
    ensures others { OnlyWarns (D.view desk.old) (D.view desk.new) }
{
    let _ = desk.warn(message);
    status
}

/// Says that memory was wanting.
pub(crate) fn lacking<D: Desk>(desk: &mut D) -> Status
    ensures lacks { Lacks (D.view desk.old) (D.view desk.new) result }
    ensures others { OnlyWarns (D.view desk.old) (D.view desk.new) }
{
    tried(desk, b"out of memory\n", Status::Memory)
}

/// Tells the message of a text that is refused, where there was memory for it.
pub(crate) fn refuse<D: Desk>(
    input: Input,
    message: Result<Vec<u8>, AllocError>,
    desk: &mut D,
) -> Status
    ensures tells { MatchResult message (λ m. Tells (spec.refused input) m.items (D.view desk.old) (D.view desk.new) result) (λ _. Lacks (D.view desk.old) (D.view desk.new) result) }
    ensures others { OnlyWarns (D.view desk.old) (D.view desk.new) }
{
    match message {
        Ok(message) => told(desk, &message, input.refused()),
        Err(_) => lacking(desk),
    }
}

// What is said of a text that is refused.
ghost use Rattle.std.specs.Prelude.{◌≡◌, ◌++◌, Some, IfOk, codes, decimal};
ghost use Rattle.scenopt.specs.Messages.{line_text, model_line, changes_line, log_line, check_text};
ghost use Rattle.scenopt.specs.Messages as spec;

use changes_reader::ChangesKind;
use mps_reader::MpsKind;
use num_text::write_number;
use std::alloc::{AllocError, Global};
use tree_check::CheckError;
use tree_log::LogKind;

// The name of a kind.
fn model_kind(kind: MpsKind) -> &'static [u8]
    ensures { result.now ≡ spec.model_kind kind }
{
    match kind {
        MpsKind::Section => b"Section",
        MpsKind::NoEnd => b"NoEnd",
        MpsKind::Fields => b"Fields",
        MpsKind::UnknownRow => b"UnknownRow",
        MpsKind::UnknownColumn => b"UnknownColumn",
        MpsKind::Duplicate => b"Duplicate",
        MpsKind::LongName => b"LongName",
        MpsKind::Continuous => b"Continuous",
        MpsKind::Number => b"Number",
        MpsKind::Fraction => b"Fraction",
        MpsKind::Magnitude => b"Magnitude",
        MpsKind::SecondSet => b"SecondSet",
        MpsKind::TooMany => b"TooMany",
        MpsKind::Unbounded => b"Unbounded",
        MpsKind::NegativeUpper => b"NegativeUpper",
    }
}

// The name of a kind.
fn changes_kind(kind: ChangesKind) -> &'static [u8]
    ensures { result.now ≡ spec.changes_kind kind }
{
    match kind {
        ChangesKind::Header => b"Header",
        ChangesKind::Word => b"Word",
        ChangesKind::Fields => b"Fields",
        ChangesKind::TooMany => b"TooMany",
        ChangesKind::NoScenario => b"NoScenario",
        ChangesKind::UnknownColumn => b"UnknownColumn",
        ChangesKind::UnknownRow => b"UnknownRow",
        ChangesKind::LongName => b"LongName",
        ChangesKind::Number => b"Number",
        ChangesKind::Fraction => b"Fraction",
        ChangesKind::Magnitude => b"Magnitude",
        ChangesKind::BadRemoval => b"BadRemoval",
    }
}

// The name of a kind.
fn log_kind(kind: LogKind) -> &'static [u8]
    ensures { result.now ≡ spec.log_kind kind }
{
    match kind {
        LogKind::Spelling => b"Spelling",
        LogKind::NoEnd => b"NoEnd",
    }
}

// A text is refused at a line.
#[tactic(auto, unfolding(crate::specs::Messages::line_text))]
fn line_message(alloc: Global, text: &[u8], line: u32, kind: &[u8]) -> Result<Vec<u8>, AllocError>
    ensures { IfOk result (λ message. message.items ≡ line_text text.now line kind.now) }
{
    let mut message = Vec::from_slice(alloc, text)?;
    message.extend_from_slice(b" line ")?;
    write_number(&mut message, i64::from(line))?;
    message.extend_from_slice(b": ")?;
    message.extend_from_slice(kind)?;
    message.extend_from_slice(b"\n")?;
    Ok(message)
}

/// The message that a model's text is refused at a line.
pub(crate) fn model_message(alloc: Global, line: u32, kind: MpsKind) -> Result<Vec<u8>, AllocError>
    ensures { IfOk result (λ message. message.items ≡ model_line line kind) }
{
    line_message(alloc, b"model", line, model_kind(kind))
}

/// The message that a text of changes is refused at a line.
pub(crate) fn changes_message(
    alloc: Global,
    line: u32,
    kind: ChangesKind,
) -> Result<Vec<u8>, AllocError>
    ensures { IfOk result (λ message. message.items ≡ changes_line line kind) }
{
    line_message(alloc, b"changes", line, changes_kind(kind))
}

/// The message that a log's text is refused at a line.
pub(crate) fn log_message(alloc: Global, line: u32, kind: LogKind) -> Result<Vec<u8>, AllocError>
    ensures { IfOk result (λ message. message.items ≡ log_line line kind) }
{
    line_message(alloc, b"log", line, log_kind(kind))
}

// A log is refused at a place, which a number follows.
fn place_message(alloc: Global, place: &[u8], number: u32) -> Result<Vec<u8>, AllocError>
    ensures { IfOk result (λ message. message.items ≡ codes "log " ++ place.now ++ codes " " ++ decimal number) }
{
    let mut message = Vec::from_slice(alloc, b"log ")?;
    message.extend_from_slice(place)?;
    message.extend_from_slice(b" ")?;
    write_number(&mut message, i64::from(number))?;
    Ok(message)
}

/// The message that a log doesn't show its claims. Want of memory has none.
#[tactic(auto, unfolding(crate::specs::Messages::check_text))]
pub(crate) fn check_message(alloc: Global, error: CheckError) -> Result<Vec<u8>, AllocError>
    ensures { IfOk result (λ message. check_text error ≡ Some message.items) }
{
    match error {
        CheckError::Shape { node } => {
            let mut message = place_message(alloc, b"node", node)?;
            message.extend_from_slice(b": Shape\n")?;
            Ok(message)
        }
        CheckError::Level { node, scenario } => {
            let mut message = place_message(alloc, b"node", node)?;
            message.extend_from_slice(b" scenario ")?;
            write_number(&mut message, i64::from(scenario))?;
            message.extend_from_slice(b": Level\n")?;
            Ok(message)
        }
        CheckError::PointWrong { scenario } => {
            let mut message = place_message(alloc, b"scenario", scenario)?;
            message.extend_from_slice(b": PointWrong\n")?;
            Ok(message)
        }
        CheckError::ClaimWrong { scenario } => {
            let mut message = place_message(alloc, b"scenario", scenario)?;
            message.extend_from_slice(b": ClaimWrong\n")?;
            Ok(message)
        }
        CheckError::Memory => Err(AllocError),
    }
}

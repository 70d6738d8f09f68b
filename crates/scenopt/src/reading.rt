// The reading of a command's files.
ghost use Rattle.std.specs.Prelude.{◌≡◌, ◌∷◌, [], option_map, Some, None, IfOk, IfErr};
ghost use Rattle.scenario_changes.specs.Changes.{Fits};
ghost use Rattle.scenopt.specs.Messages.{too_long};
ghost use Rattle.scenopt.specs.Files.{HasBytes, HasModel, HasChanges, HasProblem, HasLog, IsTooLong, Shows, names_of, names_to};
ghost use Rattle.scenopt.specs.Endings.{IsModelRefusal, IsChangesRefusal, IsLogRefusal, Stays, Fetches, Stops, StopsAtInput};
ghost use Rattle.scenopt.specs.declared.input.Input.TheVariants as input;

use crate::input::Input;
use crate::message::{changes_message, check_message, log_message, model_message};
use crate::status::Status;
use crate::telling::{lacking, refuse, told, tried};
use changes_reader::{ChangesError, read_changes};
use desk::{Desk, FetchError};
use int_model::Model;
use mps_reader::{MpsError, read_model};
use scenario_changes::{Changes, Problem};
use std::alloc::Global;
use tree_check::check;
use tree_log::{LogError, LogFile, read_log};

// The bytes of a command's file, or the status after it was said what is wrong.
fn fetched<D: Desk>(
    alloc: Global,
    name: &str,
    input: Input,
    desk: &mut D,
) -> Result<Vec<u8>, Status>
    ensures ok { IfOk result (λ bytes. HasBytes (D.view desk.old).files input name.now bytes.items × Fetches (name.now ∷ []) (D.view desk.old) (D.view desk.new)) }
    ensures err { IfErr result (Stops input (Some name.now) (λ message. IsTooLong (D.view desk.old).files input name.now × (message ≡ too_long input)) (name.now ∷ []) (D.view desk.old) (D.view desk.new)) }
    ensures stays { Stays (D.view desk.old) (D.view desk.new) }
{
    match desk.fetch(alloc, name, input.limit()) {
        Ok(bytes) => Ok(bytes),
        Err(FetchError::TooLong) => Err(told(desk, input.too_long(), input.refused())),
        Err(FetchError::Failed) => Err(tried(desk, input.unreadable(), Status::ReadFault)),
        Err(FetchError::Memory) => Err(lacking(desk)),
    }
}

// The model of a file.
fn model_in<D: Desk>(alloc: Global, name: &str, desk: &mut D) -> Result<Model, Status>
    ensures ok { IfOk result (λ m. HasModel (D.view desk.old).files name.now m × Fetches (name.now ∷ []) (D.view desk.old) (D.view desk.new)) }
    ensures err { IfErr result (Stops input.Model (Some name.now) (IsModelRefusal (D.view desk.old).files name.now) (name.now ∷ []) (D.view desk.old) (D.view desk.new)) }
    ensures stays { Stays (D.view desk.old) (D.view desk.new) }
{
    let bytes = fetched(alloc, name, Input::Model, desk)?;
    match read_model(alloc, &bytes) {
        Ok(model) => Ok(model),
        Err(MpsError::Line { line, kind }) => {
            Err(refuse(Input::Model, model_message(alloc, line, kind), desk))
        }
        Err(MpsError::Memory) => Err(lacking(desk)),
    }
}

// The changes to a model in a file, or none without a file.
fn changes_in<D: Desk>(
    alloc: Global,
    name: Option<&str>,
    model: &Model,
    desk: &mut D,
) -> Result<Changes, Status>
    ensures ok { IfOk result (λ c. HasChanges (D.view desk.old).files (option_map (λ n. n.now) name.entry) model.now c.scenarios × Fits c model.now × Fetches (names_of (option_map (λ n. n.now) name.entry)) (D.view desk.old) (D.view desk.new)) }
    ensures err { IfErr result (Stops input.Changes (option_map (λ n. n.now) name.entry) (IsChangesRefusal (D.view desk.old).files (option_map (λ n. n.now) name.entry) model.now) (names_of (option_map (λ n. n.now) name.entry)) (D.view desk.old) (D.view desk.new)) }
    ensures stays { Stays (D.view desk.old) (D.view desk.new) }
{
    let Some(name) = name else {
        return match Changes::new(alloc, model) {
            Ok(changes) => Ok(changes),
            Err(_) => Err(lacking(desk)),
        };
    };
    let bytes = fetched(alloc, name, Input::Changes, desk)?;
    match read_changes(alloc, model, &bytes) {
        Ok(changes) => Ok(changes),
        Err(ChangesError::Line { line, kind }) => {
            Err(refuse(Input::Changes, changes_message(alloc, line, kind), desk))
        }
        Err(ChangesError::Memory) => Err(lacking(desk)),
    }
}

/// The problem of the command's files.
pub(crate) fn problem_in<D: Desk>(
    alloc: Global,
    model: &str,
    changes: Option<&str>,
    desk: &mut D,
) -> Result<Problem, Status>
    ensures ok { IfOk result (λ p. HasProblem (D.view desk.old).files (record { model = model.now; changes = option_map (λ c. c.now) changes.entry }) p × Fetches (names_to (record { model = model.now; changes = option_map (λ c. c.now) changes.entry }) None input.Changes) (D.view desk.old) (D.view desk.new)) }
    ensures err { IfErr result (λ s. StopsAtInput (record { model = model.now; changes = option_map (λ c. c.now) changes.entry }) None (D.view desk.old) (D.view desk.new) s) }
    ensures stays { Stays (D.view desk.old) (D.view desk.new) }
{
    let model = model_in(alloc, model, desk)?;
    let changes = changes_in(alloc, changes, &model, desk)?;
    match Problem::new(alloc, model, changes) {
        Ok(problem) => Ok(problem),
        Err(_) => Err(lacking(desk)),
    }
}

// The log whose text a file is.
fn log_in<D: Desk>(
    alloc: Global,
    name: &str,
    problem: &Problem,
    desk: &mut D,
) -> Result<LogFile, Status>
    ensures ok { IfOk result (λ f. HasLog (D.view desk.old).files name.now f × Fetches (name.now ∷ []) (D.view desk.old) (D.view desk.new)) }
    ensures err { IfErr result (Stops input.Log (Some name.now) (IsLogRefusal (D.view desk.old).files (Some name.now) problem.now) (name.now ∷ []) (D.view desk.old) (D.view desk.new)) }
    ensures stays { Stays (D.view desk.old) (D.view desk.new) }
{
    let bytes = fetched(alloc, name, Input::Log, desk)?;
    match read_log(alloc, &bytes) {
        Ok(log) => Ok(log),
        Err(LogError::Line { line, kind }) => {
            Err(refuse(Input::Log, log_message(alloc, line, kind), desk))
        }
        Err(LogError::Memory) => Err(lacking(desk)),
    }
}

/// That a file is a log which shows right answers to the problem, or the status after it was said what is wrong.
pub(crate) fn proof_in<D: Desk>(
    alloc: Global,
    name: &str,
    problem: &Problem,
    desk: &mut D,
) -> Result<(), Status>
    ensures ok { IfOk result (λ _. Shows (D.view desk.old).files name.now problem.now × Fetches (name.now ∷ []) (D.view desk.old) (D.view desk.new)) }
    ensures err { IfErr result (Stops input.Log (Some name.now) (IsLogRefusal (D.view desk.old).files (Some name.now) problem.now) (name.now ∷ []) (D.view desk.old) (D.view desk.new)) }
    ensures stays { Stays (D.view desk.old) (D.view desk.new) }
{
    let log = log_in(alloc, name, problem, desk)?;
    match check(alloc, problem, log) {
        Ok(_) => Ok(()),
        Err(error) => Err(refuse(Input::Log, check_message(alloc, error), desk)),
    }
}

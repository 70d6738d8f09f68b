// How answers are told: a log in a file, and a report or a summary on standard output.
ghost use Rattle.std.specs.Prelude.{◌≡◌, ◌⊎◌, Some, option_map, IfOk, IfErr, All, length};
ghost use Rattle.tree_log.specs.Laws.{IsReadable};
ghost use Rattle.scen_report.specs.Reports.{Fits};
ghost use Rattle.scenario_changes.specs.Problems as problems;
ghost use Rattle.scenopt.specs.Answered.{log_of};
ghost use Rattle.scenopt.specs.Answered as spec;
ghost use Rattle.scenopt.specs.Endings.{Prints};
ghost use Rattle.scenopt.specs.Runs.{IsTold, Keeps, LacksAll, LosesLog};

use crate::solving::has_limit;
use crate::status::Status;
use crate::telling::{lacking, tried};
use alone_run::Ended;
use desk::{Desk, DeskError};
use scen_report::write_report;
use scenario_changes::{Answers, Problem};
use std::alloc::Global;
use tree_log::write_log;

/// The status after the answers were printed.
pub(crate) fn status_of(answers: &Answers) -> Status
    ensures { result ≡ spec.status_of answers.now }
{
    if has_limit(answers) {
        Status::Limit
    } else {
        Status::Done
    }
}

/// Prints a text, after which the status is the given one.
#[tactic(auto, using(crate::proofs::RunLemmas::tries_since))]
pub(crate) fn print<D: Desk>(text: &[u8], status: Status, desk: &mut D) -> Status
    ensures prints { Prints status text.now (D.view desk.old) (D.view desk.new) result }
    ensures files { (D.view desk.new).files ≡ (D.view desk.old).files }
    ensures fetched { (D.view desk.new).fetched ≡ (D.view desk.old).fetched }
{
    match desk.print(text) {
        Ok(()) => status,
        Err(DeskError::Failed) => tried(desk, b"cannot write output\n", Status::WriteFault),
        Err(DeskError::Memory) => lacking(desk),
    }
}

// Writes the log of what a run ended with, or says what is wrong.
#[tactic(auto, using(crate::proofs::RunLemmas::tries_since))]
fn put_log<D: Desk>(
    alloc: Global,
    name: &str,
    problem: &Problem,
    ended: &Ended,
    desk: &mut D,
) -> Result<(), Status>
    ensures ok { IfOk result (λ _. IsReadable problem.now ended.now.answers ended.now.tree × Keeps name.now (log_of problem.now ended.now.answers ended.now.tree) (D.view desk.old) (D.view desk.new)) }
    ensures err { IfErr result (λ s. (IsReadable problem.now ended.now.answers ended.now.tree × LosesLog (Some name.now) (log_of problem.now ended.now.answers ended.now.tree) (D.view desk.old) (D.view desk.new) s) ⊎ LacksAll (D.view desk.old) (D.view desk.new) s) }
    ensures fetched { (D.view desk.new).fetched ≡ (D.view desk.old).fetched }
{
    let Ok(log) = write_log(alloc, problem, &ended.answers, &ended.tree) else {
        return Err(lacking(desk));
    };
    match desk.put(name, &log) {
        Ok(()) => Ok(()),
        Err(DeskError::Failed) => { Err(tried(desk, b"cannot write log\n", Status::WriteFault)) }
        Err(DeskError::Memory) => Err(lacking(desk)),
    }
}

/// Writes the log of what a run ended with where a name for it is given, and prints the report.
pub(crate) fn report<D: Desk>(
    alloc: Global,
    problem: &Problem,
    ended: &Ended,
    log: Option<&str>,
    desk: &mut D,
) -> Status
    requires count { length ended.now.answers ≡ length (problems.problem problem.now).scenarios }
    requires fits { All (Fits (length problem.now.model.columns)) ended.now.answers }
    ensures told { IsTold problem.now ended.now.answers ended.now.tree (option_map (λ l. l.now) log.entry) (D.view desk.old) (D.view desk.new) result }
    ensures fetched { (D.view desk.new).fetched ≡ (D.view desk.old).fetched }
{
    let Ok(text) = write_report(alloc, problem, &ended.answers) else {
        return lacking(desk);
    };
    let status = status_of(&ended.answers);
    let Some(name) = log else {
        return print(&text, status, desk);
    };
    match put_log(alloc, name, problem, ended, desk) {
        Ok(()) => print(&text, status, desk),
        Err(status) => status,
    }
}

// The run of a command over a desk, by one worker or by many.
ghost use Rattle.std.specs.Prelude.{◌≡◌, ◌<◌, ◌≤◌, None, Some, map, string_bytes, option_map};
ghost use Rattle.scenopt.specs.Runs.{Checks, Generates, Runs, Solves};
ghost use Rattle.scenopt.specs.Complete.{Completes, Proves};

use crate::printing::{print, report, status_of};
use crate::reading::{problem_in, proof_in};
use crate::solving::{MAX_NODES, solved, solved_together};
use crate::status::Status;
use crate::telling::{lacking, told};
use command_line::{Command, read_words};
use desk::Desk;
use made_problems::make_problem;
use scen_report::write_summary;
use std::alloc::Global;
use std::sync::Wait;
use std::thread::Threads;
use worker_gate::Gate;

const USAGE: &[u8] =
    b"usage: scenopt solve MODEL CHANGES [--workers N] [--nodes K] [--log FILE]\n       scenopt check MODEL CHANGES LOG\n       scenopt gen SEED COLUMNS ROWS SCENARIOS\n";

// Solves each scenario of the problem in the command's files, in a tree of at most so many nodes.
fn solve<D: Desk>(
    alloc: Global,
    model: &str,
    changes: Option<&str>,
    nodes: u32,
    log: Option<&str>,
    desk: &mut D,
) -> Status
    requires some { 0 < nodes }
    requires few { nodes ≤ 100001 }
    ensures { Solves (record { model = model.now; changes = option_map (λ c. c.now) changes.entry }) nodes (option_map (λ l. l.now) log.entry) (D.view desk.old) (D.view desk.new) result }
{
    let problem = match problem_in(alloc, model, changes, desk) {
        Ok(problem) => problem,
        Err(status) => return status,
    };
    match solved(alloc, &problem, nodes) {
        Ok(ended) => report(alloc, &problem, &ended, log, desk),
        Err(_) => lacking(desk),
    }
}

// How many workers search, and what they are given.
#[derive(Drop)]
struct Crew<'g, G, R> {
    rt: &'g R,
    gate: &'g G,
    workers: u32,
}

// The same by a crew. It may wait, and need not return.
fn solve_together<D: Desk, G: Gate + Sync, R: Threads + Wait + Sync>(
    crew: &Crew<'_, G, R>,
    alloc: Global,
    model: &str,
    changes: Option<&str>,
    nodes: u32,
    log: Option<&str>,
    desk: &mut D,
) -> Status
    requires some_workers { 0 < crew.now.workers }
    requires few_workers { crew.now.workers ≤ 64 }
    requires some { 0 < nodes }
    requires few { nodes ≤ 100001 }
    ensures { Solves (record { model = model.now; changes = option_map (λ c. c.now) changes.entry }) nodes (option_map (λ l. l.now) log.entry) (D.view desk.old) (D.view desk.new) result }
{
    let problem = match problem_in(alloc, model, changes, desk) {
        Ok(problem) => problem,
        Err(status) => return status,
    };
    match solved_together(crew.rt, alloc, &problem, crew.workers, nodes, crew.gate) {
        Ok(ended) => report(alloc, &problem, &ended, log, desk),
        Err(_) => lacking(desk),
    }
}

// Checks a log of the problem in the command's files.
fn check<D: Desk>(
    alloc: Global,
    model: &str,
    changes: Option<&str>,
    log: &str,
    desk: &mut D,
) -> Status
    ensures { Checks (record { model = model.now; changes = option_map (λ c. c.now) changes.entry }) log.now (D.view desk.old) (D.view desk.new) result }
{
    let problem = match problem_in(alloc, model, changes, desk) {
        Ok(problem) => problem,
        Err(status) => return status,
    };
    match proof_in(alloc, log, &problem, desk) {
        Ok(()) => print(b"accepted\n", Status::Done, desk),
        Err(status) => status,
    }
}

// Solves the problem whose texts are made from a seed, and prints the summary of the answers.
fn generate<D: Desk>(
    alloc: Global,
    seed: u64,
    columns: u32,
    rows: u32,
    scenarios: u32,
    desk: &mut D,
) -> Status
    requires some { 1 ≤ columns }
    requires columns { columns ≤ 1000 }
    requires rows { rows ≤ 1000 }
    requires scenarios { scenarios ≤ 64 }
    ensures { Generates seed columns rows scenarios (D.view desk.old) (D.view desk.new) result }
{
    let Ok(problem) = make_problem(alloc, seed, columns, rows, scenarios) else {
        return lacking(desk);
    };
    let Ok(ended) = solved(alloc, &problem, MAX_NODES) else {
        return lacking(desk);
    };
    let numbers = [
        seed,
        u64::from(columns),
        u64::from(rows),
        u64::from(scenarios),
    ];
    let Ok(text) = write_summary(alloc, &problem, &ended.answers, &numbers) else {
        return lacking(desk);
    };
    print(&text, status_of(&ended.answers), desk)
}

/// Runs the command that the words are, with one worker. It always returns.
///
/// The program's name is not among the words. Over a desk that tells its files, the contract says what each status
/// means; want of memory is the one answer that may come at any time.
pub fn quiet_main<D: Desk>(alloc: Global, words: &[String], desk: &mut D) -> Status
    ensures runs { Runs (map string_bytes words.now) (D.view desk.old) (D.view desk.new) result }
    ensures complete { Completes (map string_bytes words.now) (D.view desk.old) (D.view desk.new) result }
    ensures proof { Proves (map string_bytes words.now) (D.view desk.old) (D.view desk.new) result }
{
    let Ok(command) = read_words(words) else {
        return told(desk, USAGE, Status::Usage);
    };
    match command {
        Command::Solve {
            model,
            changes,
            workers: _,
            nodes,
            log,
        } => solve(alloc, model, changes, nodes, log, desk),
        Command::Check {
            model,
            changes,
            log,
        } => check(alloc, model, changes, log, desk),
        Command::Gen {
            seed,
            columns,
            rows,
            scenarios,
        } => generate(alloc, seed, columns, rows, scenarios, desk),
    }
}

/// The same, where a `solve` that asks for two workers or more has them, and passes the gate at their points.
///
/// It may wait, as workers wait for one another, and need not return. If it returns, the contract is that of
/// [`quiet_main`], for every number of workers and every interleaving of their steps.
pub fn scen_main<D: Desk, G: Gate + Sync, R: Threads + Wait + Sync>(
    rt: &R,
    alloc: Global,
    words: &[String],
    desk: &mut D,
    gate: &G,
) -> Status
    ensures runs { Runs (map string_bytes words.now) (D.view desk.old) (D.view desk.new) result }
    ensures complete { Completes (map string_bytes words.now) (D.view desk.old) (D.view desk.new) result }
    ensures proof { Proves (map string_bytes words.now) (D.view desk.old) (D.view desk.new) result }
{
    match read_words(words) {
        Ok(
            Command::Solve {
                model,
                changes,
                workers,
                nodes,
                log,
            },
        ) if workers >= 2 => {
            let crew = Crew { rt, gate, workers };
            solve_together(&crew, alloc, model, changes, nodes, log, desk)
        }
        _ => quiet_main(alloc, words, desk),
    }
}

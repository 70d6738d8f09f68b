// The answers of a search from the root, by one worker or by many.
ghost use Rattle.std.specs.Prelude.{◌≡◌, ◌<◌, ◌≤◌, length, All, IfOk};
ghost use Rattle.std.specs.List.{list_any};
ghost use Rattle.scenario_changes.specs.Problems as problems;
ghost use Rattle.scen_report.specs.Reports.{Fits};
ghost use Rattle.scenopt.specs.Answered.{IsSolved};
ghost use Rattle.scenopt.specs.Answered as spec;

use alone_run::{Ended, run_alone};
use crew::{finders_of, run_crew};
use finder::{BestPoints, Finder};
use incumbent_words::Words;
use open_pool::Pool;
use scenario_changes::{Answer, Answers, Problem};
use std::alloc::{AllocError, Global};
use std::sync::Wait;
use std::thread::Threads;
use worker_gate::Gate;

/// The most nodes that a search tree may have.
pub(crate) const MAX_NODES: u32 = 100_001;

/// What a search of at most so many nodes ends with.
pub(crate) fn solved(alloc: Global, problem: &Problem, nodes: u32) -> Result<Ended, AllocError>
    requires some { 0 < nodes }
    requires few { nodes ≤ 100001 }
    ensures solved { IfOk result (λ e. IsSolved problem.now nodes e.answers e.tree) }
    ensures count { IfOk result (λ e. length e.answers ≡ length (problems.problem problem.now).scenarios) }
    ensures fits { IfOk result (λ e. All (Fits (length problem.now.model.columns)) e.answers) }
{
    let count = problem.count();
    let (words, seat) = Words::make(alloc, count)?;
    let points = BestPoints::make(alloc, count, problem.model().columns())?;
    let finder = Finder::new(problem, seat, points);
    let pool = Pool::begin(alloc, problem, nodes)?;
    run_alone(alloc, problem, pool, &words, finder)
}

/// The same by so many workers. It may wait, as workers wait for one another, and need not return.
pub(crate) fn solved_together<G: Gate + Sync, R: Threads + Wait + Sync>(
    rt: &R,
    alloc: Global,
    problem: &Problem,
    workers: u32,
    nodes: u32,
    gate: &G,
) -> Result<Ended, AllocError>
    requires some_workers { 0 < workers }
    requires few_workers { workers ≤ 64 }
    requires some { 0 < nodes }
    requires few { nodes ≤ 100001 }
    ensures solved { IfOk result (λ e. IsSolved problem.now nodes e.answers e.tree) }
    ensures count { IfOk result (λ e. length e.answers ≡ length (problems.problem problem.now).scenarios) }
    ensures fits { IfOk result (λ e. All (Fits (length problem.now.model.columns)) e.answers) }
{
    let (words, seat) = Words::make(alloc, problem.count())?;
    let finders = finders_of(alloc, problem, &words, seat, workers)?;
    let pool = Pool::begin(alloc, problem, nodes)?;
    run_crew(rt, alloc, problem, pool, &words, finders, gate)
}

// Whether an answer is a limit.
fn is_limit(answer: &Answer) -> bool
    ensures { result ≡ spec.is_limit answer.now }
{
    match answer {
        Answer::Infeasible => false,
        Answer::Optimal { .. } => false,
        Answer::Limit { .. } => true,
    }
}

/// Whether some answer is a limit.
pub(crate) fn has_limit(answers: &Answers) -> bool
    ensures { result ≡ list_any spec.is_limit answers.now }
{
    answers.as_slice().iter().any(|answer| is_limit(answer))
}

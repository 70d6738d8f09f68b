// What one worker does, and all workers side by side.
ghost use Rattle.std.specs.Prelude.{◌≡◌, ◌<◌, ℕ, All, length, map, vec_len, slice_index_or, IfOk};
ghost use Rattle.scenario_changes.specs.Problems.{problem as posed};
ghost use Rattle.finder.specs.Found.{Found, IsSound};
ghost use Rattle.alone_run.specs.Turns.{IsNoWorse};
ghost use Rattle.crew.specs.Crews.{IsOf};

use crate::lock::LockedPool;
use crate::run::Run;
use alone_run::turn;
use finder::Finder;
use incumbent_words::Words;
use scenario_changes::Problem;
use std::alloc::{AllocError, Global};
use std::sync::Wait;
use std::thread;
use std::thread::Threads;
use worker_gate::{Gate, GatePoint};

/// A finder with the number of its worker.
#[derive(Drop)]
pub(crate) struct Worker<'a> {
    pub(crate) number: u32,
    pub(crate) finder: Finder<'a>,
}

/// Each finder with a number.
pub(crate) fn numbered<'a>(
    alloc: Global,
    finders: Vec<Finder<'a>>,
) -> Result<Vec<Worker<'a>>, AllocError>
    ensures same { IfOk result (λ v. map (λ w. w.finder) v.items ≡ finders.entry.items) }
{
    let mut workers = Vec::new(alloc);
    let mut number = 0u32;
    for finder in finders {
        workers.push(Worker { number, finder })?;
        number = number.wrapping_add(1);
    }
    Ok(workers)
}

/// A turn of each node that the worker claims, until no node is left, the pool is stopped, or memory runs
/// out. It holds the lock only to claim and to settle.
fn work<'a, B: Run, G: Gate, R: Wait + Sync>(
    rt: &R,
    alloc: Global,
    problem: &Problem,
    words: &Words,
    locked: &LockedPool<'a, B>,
    gate: &G,
    worker: Worker<'a>,
) -> Finder<'a>
    requires problem { posed problem.now ≡ B.problem }
    requires words { words.now ≡ B.table }
    requires finder { IsOf words.now problem.now worker.finder }
    ensures { IsNoWorse worker.entry.finder result }
{
    let Worker { number, mut finder } = worker;
    for _ in rt.forever() {
        let Ok(next) = locked.next(rt) else {
            locked.give_up(rt, None);
            break;
        };
        let Some(job) = next else {
            break;
        };
        let node = job.node;
        gate.at(rt, number, GatePoint::Claimed);
        match turn(alloc, problem, words, &mut finder, job) {
            Ok((settlement, note)) => {
                gate.at(rt, number, GatePoint::Settling);
                locked.settle(rt, problem, words, settlement, note);
            }
            Err(_) => {
                locked.give_up(rt, Some(node));
                break;
            }
        }
    }
    finder
}

/// All workers, each in a thread of its own. What can't have a thread is done by the caller.
pub(crate) fn work_all<'a, B: Run + Send + Sync, G: Gate + Sync, R: Threads + Wait + Sync>(
    rt: &R,
    alloc: Global,
    problem: &Problem,
    words: &Words,
    locked: &LockedPool<'a, B>,
    gate: &G,
    workers: Vec<Worker<'a>>,
) -> Result<Vec<Finder<'a>>, AllocError>
    requires problem { posed problem.now ≡ B.problem }
    requires words { words.now ≡ B.table }
    requires workers { All (λ w. IsOf words.now problem.now w.finder) workers.items }
    ensures count { IfOk result (λ v. vec_len v ≡ vec_len workers.entry) }
    ensures finders { IfOk result (λ v. (k : ℕ) (d : Found) (e : Worker) → k < length workers.entry.items → IsNoWorse (slice_index_or workers.entry.items k e).finder (slice_index_or v.items k d)) }
{
    thread::map_vec(
        rt,
        workers,
        &|worker: Worker<'_>| -> Finder<'_>
            requires { (posed problem.now ≡ B.problem) × (words.now ≡ B.table) × IsOf words.now problem.now worker.finder }
            ensures { IsNoWorse worker.entry.finder result }
        { work::<B, G, R>(rt, alloc, problem, words, locked, gate, worker) },
    )
}

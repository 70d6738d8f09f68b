// The run of a crew.
ghost use Rattle.std.specs.Prelude.{◌≡◌, ◌<◌, ◌≤◌, ◌+◌, All, length, true, false, vec_len, IfOk};
ghost use Rattle.scenario_changes.specs.Problems.{problem as posed};
ghost use Rattle.incumbent_words.specs.Rule.{HasAll};
ghost use Rattle.finder.specs.Found.{Found, IsSound};
ghost use Rattle.open_pool.specs.Marks.{claimed};
ghost use Rattle.open_pool.specs.Pooled.{begun, HasNone, IsStopped};
ghost use Rattle.alone_run.specs.Runs.{IsRun};
ghost use Rattle.crew.specs.Crews.{HaveAll, IsAsGood, IsCrewRun, IsOf};

use crate::finders::{first_note, know, know_all, merge_all};
use crate::lock::LockedPool;
use crate::shared::SharedPool;
use crate::work::{numbered, work_all};
use alone_run::{Ended, run_alone};
use finder::Finder;
use incumbent_words::Words;
use open_pool::Pool;
use scenario_changes::Problem;
use std::alloc::{AllocError, Global};
use std::marker::Brand;
use std::sync::Wait;
use std::thread::Threads;
use worker_gate::Gate;

/// Names one run: the table of its words, its problem, and how many nodes its tree may have. It has no
/// members but in contracts, and each run picks a name of its own.
pub trait Run {
    ghost use Rattle.std.specs.Prelude.{ℕ};
    ghost use Rattle.atomic_table.specs.Seated.{TableId};
    ghost use Rattle.scenario_changes.specs.Problems.{Problem};

    ghost table: { TableId };

    ghost problem: { Problem };

    ghost nodes: { ℕ };
}

impl Run for Brand {
    ghost use Rattle.crew.specs.Names.{no_table, no_problem};

    ghost table = { no_table };

    ghost problem = { no_problem };

    ghost nodes = { 0 };
}

/// Works on the nodes of a fresh pool with a worker for each finder, and then claims what the tree and the
/// best points allow.
///
/// It may wait, as workers wait for one another, and need not return. If it returns answers, they are what
/// [`run_alone`] promises, with any of the finders: right answers, and a tree that is accepted with them. An
/// answer that is a limit is there only where there is no room for two more nodes and the points of the root
/// box allow more. A worker that wants memory stops the run, which then ends with `AllocError`.
pub fn run_crew<'a, G: Gate + Sync, R: Threads + Wait + Sync>(
    rt: &R,
    alloc: Global,
    problem: &'a Problem,
    pool: Pool<'a>,
    words: &Words,
    finders: Vec<Finder<'a>>,
    gate: &G,
) -> Result<Ended, AllocError>
    requires pool { pool ≡ begun (posed problem.now) pool.nodes }
    requires some { 0 < vec_len finders }
    requires few { vec_len finders ≤ 64 }
    requires of { All (IsOf words.now problem.now) finders.items }
    requires all { HaveAll finders.items }
    ensures { IfOk result (λ e. IsCrewRun (posed problem.now) pool.entry finders.entry.items e.answers e.tree) }
{
    crew_of::<Brand, G, R>(rt, alloc, problem, pool, words, finders, gate)
}

// The run, under a name of its own.
fn crew_of<'a, B: Run + Send + Sync, G: Gate + Sync, R: Threads + Wait + Sync>(
    rt: &R,
    alloc: Global,
    problem: &'a Problem,
    pool: Pool<'a>,
    words: &Words,
    finders: Vec<Finder<'a>>,
    gate: &G,
) -> Result<Ended, AllocError>
    requires table { words.now ≡ B.table }
    requires problem { posed problem.now ≡ B.problem }
    requires pool { pool ≡ begun B.problem B.nodes }
    requires some { 0 < vec_len finders }
    requires of { All (IsOf words.now problem.now) finders.items }
    requires all { HaveAll finders.items }
    ensures { IfOk result (λ e. IsCrewRun B.problem (begun B.problem B.nodes) finders.entry.items e.answers e.tree) }
{
    let mut finders = finders;
    know_all(problem, &finders);
    let seat = first_note(alloc, words, &mut finders)?;
    let workers = numbered(alloc, finders)?;
    let locked = LockedPool::<B>::new(SharedPool::new(pool, seat));
    let ended = work_all::<B, G, R>(rt, alloc, problem, words, &locked, gate, workers)?;
    let finder = merge_all(problem, words, ended);
    finish(alloc, problem, words, locked.into_shared(), finder)
}

// What is left to do when all workers have ended: their finder takes in the pool's seat, what they have
// claimed and not settled is given back, and one worker goes on.
fn finish<'a, B: Run>(
    alloc: Global,
    problem: &'a Problem,
    words: &Words,
    shared: SharedPool<'a, B>,
    finder: Finder<'a>,
) -> Result<Ended, AllocError>
    requires table { words.now ≡ B.table }
    requires problem { posed problem.now ≡ B.problem }
    requires finder { IsOf words.now problem.now finder }
    requires all { HasAll finder.seat.view }
    ensures { IfOk result (λ e. (f : Found) → IsSound f → IsAsGood finder.entry f → IsRun B.problem (begun B.problem B.nodes) f e.answers e.tree) }
{
    let mut finder = finder;
    let (mut pool, seat) = shared.into_parts();
    finder.absorb(words, seat);
    know(problem, &finder);
    release_all(&mut pool);
    if wants_memory(&pool) {
        return Err(AllocError);
    }
    run_alone(alloc, problem, pool, words, finder)
}

// Whether a worker stopped the pool for want of memory: it is stopped, and no settlement halted it.
fn wants_memory(pool: &Pool<'_>) -> bool
    ensures yes { result ≡ true → IsStopped pool.now }
    ensures no { result ≡ false → IsStopped pool.now → ⊥ }
{
    pool.is_stopped() && !pool.is_halted()
}

// Opens each node that is still claimed.
fn release_all(pool: &mut Pool<'_>)
    ensures same { pool.new ≡ record pool.old { slots = pool.new.slots } }
    ensures free { HasNone pool.new.slots claimed }
{
    for node in 0..pool.node_count() {
        pool.give_back(node);
    }
}

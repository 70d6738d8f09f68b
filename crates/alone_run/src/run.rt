// The run of one worker.
ghost use Rattle.std.specs.Prelude.{◌≡◌, true, false, IfOk, OnOk, length};
ghost use Rattle.scenario_changes.specs.Problems.{problem as posed};
ghost use Rattle.incumbent_words.specs.Rule.{HasAll};
ghost use Rattle.finder.specs.Found.{IsSound};
ghost use Rattle.open_pool.specs.Marks.{claimed};
ghost use Rattle.open_pool.specs.Pooled.{HasNone};
ghost use Rattle.alone_run.specs.Turns.{IsNoWorse};
ghost use Rattle.alone_run.specs.Runs.{AreAbove, IsRun};
ghost use Rattle.alone_run.specs.Steps.{AreLowered, GoesOn, IsOver, IsReady};

use crate::claims::claims;
use crate::turn;
use certs::Tree;
use finder::Finder;
use incumbent_words::{WordSeat, Words};
use open_pool::{Claim, Pool, Settled};
use scenario_changes::{Answers, Problem};
use std::alloc::{AllocError, Global};

/// What a run ends with: an answer for each scenario, and the search tree that shows them.
#[derive(Drop)]
pub struct Ended {
    pub answers: Answers,
    pub tree: Tree,
}

/// Works on the nodes of the pool until none is left or the pool is stopped, and then claims what the tree
/// and the best points allow.
///
/// The answers are right, and the tree is accepted with them. It has at most as many nodes as the pool
/// may have. An answer that is a limit is there only where somebody stopped the pool before, or where there
/// is no room for two more nodes, and for a whole tree: that may have 2V - 1 nodes, where the root box has
/// V points. Where the finder had a point of a scenario, the answer has one of at most its value.
pub fn run_alone(
    alloc: Global,
    problem: &Problem,
    pool: Pool<'_>,
    words: &Words,
    finder: Finder<'_>,
) -> Result<Ended, AllocError>
    requires pool { pool.problem ≡ posed problem.now }
    requires free { HasNone pool.slots claimed }
    requires caps { AreAbove finder pool.caps }
    requires problem { finder.problem ≡ problem.now }
    requires table { finder.seat.table ≡ words.now }
    requires all { HasAll finder.seat.view }
    ensures { IfOk result (λ e. IsRun (posed problem.now) pool.entry finder.entry e.answers e.tree) }
{
    let mut pool = pool;
    let mut finder = finder;
    knows(problem, &finder);
    'running: loop {
        if !step(alloc, problem, words, &mut pool, &mut finder)? {
            break;
        }
    }
    knows(problem, &finder);
    pool.is_covered();
    let _nodes = pool.node_count();
    let answers = claims(alloc, problem, &pool, &finder)?;
    Ok(Ended {
        answers,
        tree: pool.into_tree(),
    })
}

// What the type of a finder keeps.
fn knows(problem: &Problem, finder: &Finder<'_>)
    requires { finder.now.problem ≡ problem.now }
    ensures { IsSound finder.now }
{
    let _count = problem.count();
    let _best = finder.best(0);
}

// A turn of the node that is claimed next. False where the run is over.
fn step(
    alloc: Global,
    problem: &Problem,
    words: &Words,
    pool: &mut Pool<'_>,
    finder: &mut Finder<'_>,
) -> Result<bool, AllocError>
    requires { IsReady problem.now words.now pool.old finder.old }
    ensures ready { OnOk result (IsReady problem.now words.now pool.new finder.new) }
    ensures finder { OnOk result (IsNoWorse finder.old finder.new) }
    ensures on { result ≡ Ok true → GoesOn pool.old pool.new }
    ensures over { result ≡ Ok false → IsOver pool.old pool.new }
{
    match pool.claim()? {
        Claim::Node(work) => {
            knows(problem, finder);
            let (settlement, note) = turn(alloc, problem, words, finder, work)?;
            knows(problem, finder);
            lower_caps(problem, pool, &note);
            finder.absorb(words, note);
            match pool.settle(settlement) {
                Settled::Closed | Settled::Split => Ok(true),
                Settled::Halted | Settled::Stray => Ok(false),
            }
        }
        Claim::Wait | Claim::Done => Ok(false),
        Claim::Stopped => {
            // This call tells that a halted pool is full.
            let _halted = pool.is_halted();
            Ok(false)
        }
    }
}

/// Lowers each cap of the pool to the note's, where that is less. It takes no memory.
pub fn lower_caps(problem: &Problem, pool: &mut Pool<'_>, note: &WordSeat)
    requires pool { pool.old.problem ≡ posed problem.now }
    requires words { note.now.table.words ≡ length (posed problem.now).scenarios }
    ensures same { pool.new ≡ record pool.old { caps = pool.new.caps } }
    ensures caps { AreLowered pool.old.caps pool.new.caps note.now.view.caps }
    ensures count { length pool.old.caps ≡ length (posed problem.now).scenarios }
{
    // This call tells that there is a cap for each scenario.
    pool.is_covered();
    for s in 0..problem.count() {
        if let Some(value) = note.cap(s) {
            pool.lower(s, value);
        }
    }
}

// The lock round the shared pool, and how workers wait for it.
ghost use Rattle.std.specs.Prelude.{◌≡◌, length, IfOk, IfSome};
ghost use Rattle.scenario_changes.specs.Problems.{problem as posed};
ghost use Rattle.incumbent_words.specs.Rule.{IsNote};
ghost use Rattle.open_pool.specs.Pooled.{begun};
ghost use Rattle.crew.specs.Shares.{IsWorkFor};

use crate::run::Run;
use crate::shared::SharedPool;
use bb_core::{Settlement, Work};
use incumbent_words::{WordSeat, Words};
use open_pool::Claim;
use scenario_changes::Problem;
use std::alloc::AllocError;
use std::sync::{Condvar, Mutex, Wait};

/// The shared pool under its lock, and what workers sleep on where all nodes that are left are claimed by
/// others. Each change of the pool that can give them a node or an end wakes them.
#[derive(Drop)]
pub(crate) struct LockedPool<'a, B: Run> {
    shared: Mutex<SharedPool<'a, B>>,
    changed: Condvar,
}

impl<'a, B: Run> LockedPool<'a, B> {
    pub(crate) fn new(shared: SharedPool<'a, B>) -> LockedPool<'a, B> {
        LockedPool {
            shared: Mutex::new(shared),
            changed: Condvar::new(),
        }
    }

    /// Claims the next node. None where no node is left or the pool is stopped. Waits while other workers
    /// hold all nodes that are left.
    pub(crate) fn next<R: Wait>(&self, rt: &R) -> Result<Option<Work>, AllocError>
        ensures { IfOk result (λ o. IfSome o (IsWorkFor B.problem)) }
    {
        let mut guard = self.shared.lock(rt);
        for _ in rt.forever() {
            match guard.claim()? {
                Claim::Node(work) => return Ok(Some(work)),
                Claim::Wait => guard = self.changed.wait(rt, guard),
                Claim::Done => return Ok(None),
                Claim::Stopped => return Ok(None),
            }
        }
        unreachable!()
    }

    /// Settles what was made of a claimed node.
    pub(crate) fn settle<R: Wait>(
        &self,
        rt: &R,
        problem: &Problem,
        words: &Words,
        settlement: Settlement,
        note: WordSeat,
    )
        requires problem { posed problem.now ≡ B.problem }
        requires words { words.now ≡ B.table }
        requires table { note.table ≡ B.table }
        requires note { IsNote note.view }
    {
        self.shared
            .lock(rt)
            .settle(problem, words, settlement, note);
        self.changed.notify_all();
    }

    /// Gives a node back, where one is held, and stops the pool. It takes no memory.
    pub(crate) fn give_up<R: Wait>(&self, rt: &R, node: Option<u32>) {
        let mut guard = self.shared.lock(rt);
        if let Some(node) = node {
            guard.give_back(node);
        }
        guard.stop();
        drop(guard);
        self.changed.notify_all();
    }

    /// What lay under the lock.
    pub(crate) fn into_shared(self) -> SharedPool<'a, B> {
        let LockedPool { shared, changed: _ } = self;
        shared.into_inner()
    }
}

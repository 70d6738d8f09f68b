// What lies under the lock.
ghost use Rattle.std.specs.Prelude.{◌≡◌, length, true, IfOk, OnErr};
ghost use Rattle.scenario_changes.specs.Problems.{problem as posed};
ghost use Rattle.bb_core.specs.Shared.{settlement_of};
ghost use Rattle.incumbent_words.specs.Rule.{joined, IsNote};
ghost use Rattle.open_pool.specs.Pooled.{begun, is_claimed, reopened};
ghost use Rattle.open_pool.specs.Claims.{FitsProblem, IsClaim};
ghost use Rattle.crew.specs.Shares.{Shared, IsEntered, IsTied};

use crate::run::Run;
use alone_run::lower_caps;
use bb_core::Settlement;
use incumbent_words::{WordSeat, Words};
use open_pool::{Claim, Pool, Settled};
use scenario_changes::Problem;
use std::alloc::AllocError;
use std::marker::{Model, PhantomData};

/// The pool of nodes, and a seat of the words without number and offer that takes in the workers' notes.
///
/// Its type keeps that both are of the run that `B` names, that the closed nodes reach the pool's caps,
/// and that the seat's caps are at most the pool's. So whoever has all numbers and takes in the seat knows
/// that no cap went below the best value that is known.
#[derive(Drop)]
pub struct SharedPool<'a, B: Run> {
    pool: Pool<'a>,
    seat: WordSeat,
    of: PhantomData<B>,
}

impl<'a, B: Run> Model for SharedPool<'a, B> {
    ghost use Rattle.crew.specs.Shares.{Shared, IsTied};

    ghost Value = { Shared };

    ghost view = { λ s. record { pool = s.pool; seat = s.seat } };

    ghost invariant = { λ s. IsTied B.table B.problem B.nodes s.pool s.seat };
}

impl<'a, B: Run> SharedPool<'a, B> {
    /// A pool that is fresh, and a note of a seat.
    pub fn new(pool: Pool<'a>, seat: WordSeat) -> SharedPool<'a, B>
        requires pool { pool ≡ begun B.problem B.nodes }
        requires table { seat.table ≡ B.table }
        requires words { B.table.words ≡ length B.problem.scenarios }
        requires note { IsNote seat.view }
        ensures { result ≡ record { pool = pool.entry; seat = seat } }
    {
        pool.is_covered();
        SharedPool {
            pool,
            seat,
            of: PhantomData,
        }
    }

    /// Claims the open node with the least live level. After want of memory nothing has changed.
    pub fn claim(&mut self) -> Result<Claim, AllocError>
        ensures claim { IfOk result (λ c. IsClaim self.old.pool self.new.pool c) }
        ensures fits { IfOk result (FitsProblem B.problem) }
        ensures seat { self.new.seat ≡ self.old.seat }
        ensures err { OnErr result (self.new ≡ self.old) }
    {
        let _seat = &self.seat;
        let claim = self.pool.claim()?;
        self.pool.is_covered();
        Ok(claim)
    }

    /// Takes in a worker's note, lowers the pool's caps by what is then known, and settles. It takes no
    /// memory.
    pub fn settle(
        &mut self,
        problem: &Problem,
        words: &Words,
        settlement: Settlement,
        note: WordSeat,
    ) -> Settled
        requires problem { posed problem.now ≡ B.problem }
        requires words { words.now ≡ B.table }
        requires table { note.table ≡ B.table }
        requires note { IsNote note.view }
        ensures table { self.new.seat.table ≡ self.old.seat.table }
        ensures view { self.new.seat.view ≡ joined self.old.seat.view note.view }
        ensures pool { IsEntered self.old.pool self.new.seat.view.caps (settlement_of settlement) self.new.pool result }
    {
        words.join(&mut self.seat, note);
        lower_caps(problem, &mut self.pool, &self.seat);
        let settled = self.pool.settle(settlement);
        self.pool.is_covered();
        settled
    }

    /// Opens a claimed node again. False where it isn't claimed, and then nothing changes.
    pub fn give_back(&mut self, node: u32) -> bool
        ensures was { result ≡ is_claimed self.old.pool.slots node }
        ensures pool { self.new.pool ≡ record self.old.pool { slots = reopened self.old.pool.slots node } }
        ensures seat { self.new.seat ≡ self.old.seat }
    {
        let _seat = &self.seat;
        let was = self.pool.give_back(node);
        self.pool.is_covered();
        was
    }

    /// Stops the pool: no node is claimed from now on.
    pub fn stop(&mut self)
        ensures pool { self.new.pool ≡ record self.old.pool { stopped = true } }
        ensures seat { self.new.seat ≡ self.old.seat }
    {
        let _seat = &self.seat;
        self.pool.stop();
        self.pool.is_covered();
    }

    /// The pool and the seat, with what the type keeps of them.
    pub fn into_parts(self) -> (Pool<'a>, WordSeat)
        ensures { IsTied B.table B.problem B.nodes result.0 result.1 }
    {
        let SharedPool { pool, seat, of: _ } = self;
        (pool, seat)
    }
}

// The pool of open nodes.
ghost use Rattle.std.specs.Prelude.{◌≡◌, ◌<◌, ◌≤◌, ◌+◌, ℕ, true, false, length, map, vec_capacity, slice_set, slice_index_or, Some, IfOk, OnErr};
ghost use Rattle.scenario_changes.specs.Problems.{AreWithin};
ghost use Rattle.scenario_changes.specs.Problems as problems;
ghost use Rattle.certs.specs.Claims.{bound_of};
ghost use Rattle.certs.specs.Trees.{dropped};
ghost use Rattle.certs.specs.Levels.{cap_level, lesser_level, LevelFits};
ghost use Rattle.certs.specs.declared.level.Level.TheVariants.{Value, Inf};
ghost use Rattle.bb_core.specs.Settlements.{place_of};
ghost use Rattle.bb_core.specs.Coverage as coverage;
ghost use Rattle.bb_core.specs.Coverage.{Covers, slot_at, LevelsAreBounds, NothingIsLost, settled, placed_of, MaySettle};
ghost use Rattle.bb_core.specs.Shared.{settlement_of, outcome_of, work_of, stay_of};
ghost use Rattle.open_pool.specs.Marks.{claimed};
ghost use Rattle.open_pool.specs.Judged.{IsScratch, AreWide};
ghost use Rattle.open_pool.specs.Pooled.{IsFull, begun, is_claimed, reopened, nodes_of};
ghost use Rattle.open_pool.specs.Pooled as pooled;
ghost use Rattle.open_pool.specs.Claims.{IsClaim, ClosedIfDone, FitsProblem, IsSettled, IsAnswer, AreShort, IsSplit};
ghost use Rattle.open_pool.specs.Ends.{ended};

use crate::agenda::Agenda;
use crate::lawful::passes;
use crate::levels::{close_ends, lesser, level_at};
use crate::scan::{count_claimed, count_open, has_claimed, waiting_least};
use crate::scratch::Scratch;
use crate::slot::{Mark, Slot};
use bb_core::{Outcome, Settlement, Work};
use certs::{Level, Node, Tree, start_levels};
use live_sets::LiveSet;
use scenario_changes::Problem;
use std::alloc::{AllocError, Global};
use std::marker::Model;
use std::sync::Arc;

/// What someone who asks for a node gets.
#[derive(Drop)]
pub enum Claim {
    /// The open node with the least live level, and of these the one with the least number. It is claimed.
    Node(Work),
    /// No node is open, but some are claimed, and may leave open ones.
    Wait,
    /// No node is open or claimed.
    Done,
    /// The pool is stopped.
    Stopped,
}

/// What became of a settlement: of these answers the first that applies, in the order `Stray`, `Halted`,
/// and then `Closed` or `Split`.
#[derive(Clone, Copy, Debug, PartialEq, Eq)]
pub enum Settled {
    /// The node is closed.
    Closed,
    /// The node is split, and its two children are open.
    Split,
    /// There may be no two nodes more, though the root box has the points for them: the node is open again, and
    /// the pool is stopped.
    Halted,
    /// The settlement isn't recorded: its node isn't claimed, its work isn't that of the node, it isn't
    /// lawful, or a level that it drops is below the cap. The node is open again if it was claimed.
    Stray,
}

/// The tree of a search in the making: nodes that are closed, open or claimed, and for each scenario a
/// cap, a value that is to be undercut.
///
/// Its type keeps that the nodes are a search tree in which open and claimed ones record nothing, that
/// every end of a scenario at a closed node has a level of at least the scenario's cap, and that there
/// are no more nodes than were asked for. What follows is in [`nothing_is_lost`](Pool::nothing_is_lost)
/// and [`levels_are_bounds`](Pool::levels_are_bounds).
///
/// All places are reserved at the start, but no boxes: a node costs its box, its levels and what is
/// recorded of it, from when it is made until the pool is dropped or becomes a tree.
#[derive(Drop)]
pub struct Pool<'p> {
    problem: &'p Problem,
    slots: Vec<Slot>,
    // Which open node comes next.
    agenda: Agenda,
    caps: Vec<Level>,
    // For each scenario the least level over its ends at closed nodes.
    ends: Vec<Level>,
    // The places of the tree that the pool becomes, so that this takes no memory.
    spare: Vec<Node>,
    scratch: Scratch,
    alloc: Global,
    nodes: u32,
    stopped: bool,
    halted: bool,
}

impl<'p> Model for Pool<'p> {
    ghost use Rattle.open_pool.specs.Pooled.{Pooled};

    ghost Value = { Pooled };

    ghost use Rattle.open_pool.specs.PoolParts.{pooled, IsSound};

    ghost view = { pooled };

    ghost invariant = { IsSound };
}

impl<'p> Pool<'p> {
    /// The root alone, open, with all scenarios live and no caps, and places for so many nodes.
    pub fn begin(alloc: Global, problem: &'p Problem, nodes: u32) -> Result<Pool<'p>, AllocError>
        requires some { 0 < nodes }
        requires few { nodes ≤ 100001 }
        ensures { IfOk result (λ q. q ≡ begun (problems.problem problem.now) nodes) }
    {
        let count = problem.count() as usize;
        let mut slots = Vec::with_capacity(alloc, nodes as usize)?;
        slots.push_reserved(root_slot(alloc, problem)?);
        let mut agenda = Agenda::new(alloc, nodes as usize)?;
        agenda.refresh(slots.as_slice(), 0);
        let spare = Vec::with_capacity(alloc, nodes as usize)?;
        let caps = vec![in alloc; Level::Inf; count]?;
        let ends = vec![in alloc; Level::Inf; count]?;
        let scratch = Scratch::new(alloc, problem)?;
        Ok(Pool {
            problem,
            slots,
            agenda,
            caps,
            ends,
            spare,
            scratch,
            alloc,
            nodes,
            stopped: false,
            halted: false,
        })
    }

    /// Claims the open node with the least live level. Only a call that would answer a node can want
    /// memory; the pool is then as it was.
    pub fn claim(&mut self) -> Result<Claim, AllocError>
        ensures ok { IfOk result (λ c. IsClaim self.old self.new c) }
        ensures fits { IfOk result (FitsProblem self.old.problem) }
        ensures closed { IfOk result (ClosedIfDone self.old.slots) }
        ensures err { OnErr result (self.new ≡ self.old) }
    {
        if self.stopped {
            return Ok(Claim::Stopped);
        }
        let alloc = self.alloc;
        match self.agenda.next(self.slots.as_slice()) {
            Some(n) => {
                let slot = &mut self.slots[n as usize];
                let work = slot.work(alloc, n)?;
                slot.set_mark(Mark::Claimed);
                self.agenda.refresh(self.slots.as_slice(), n as usize);
                Ok(Claim::Node(work))
            }
            None => {
                let slots = self.slots.as_slice();
                if has_claimed(slots) {
                    Ok(Claim::Wait)
                } else {
                    Ok(Claim::Done)
                }
            }
        }
    }

    /// The cap becomes the lesser of itself and the value.
    pub fn lower(&mut self, s: u32, value: i64)
        requires { s < length self.old.problem.scenarios }
        ensures { self.new ≡ record self.old { caps = slice_set self.old.caps s (lesser_level (slice_index_or self.old.caps s Inf) (Value value)) } }
    {
        let s = s as usize;
        let value = Level::Value(value);
        if !self.caps[s].is_at_most(value) {
            self.caps[s] = value;
        }
    }

    /// Opens a claimed node again. False where it isn't claimed, and then nothing changes.
    pub fn give_back(&mut self, node: u32) -> bool
        ensures was { result ≡ is_claimed self.old.slots node }
        ensures pool { self.new ≡ record self.old { slots = reopened self.old.slots node } }
    {
        let n = node as usize;
        if n < self.slots.len() {
            let slot = &mut self.slots[n];
            if slot.is_claimed() {
                slot.set_mark(Mark::Open);
                self.agenda.refresh(self.slots.as_slice(), n);
                return true;
            }
        }
        false
    }

    /// Records what was made of a claimed node, unless it is stray or halts the pool. The settlement is
    /// judged again, by what it records and not by who made it. It takes no memory: boxes, levels and
    /// hints of the children are moved.
    ///
    /// Its time is that of replaying the steps twice for each live scenario, and of one evaluation of a
    /// vector.
    #[tactic(auto, using(crate::proofs::SoundLaws::length_reopened))]
    #[inline(never)]
    pub fn settle(&mut self, settlement: Settlement) -> Settled
        ensures { IsSettled self.old (settlement_of settlement) self.new result }
    {
        let node = settlement.work.node;
        let slots = self.slots.as_slice();
        let caps = self.caps.as_slice();
        let allowed = is_allowed(self.problem, slots, caps, &settlement, &mut self.scratch);
        if !allowed {
            self.give_back(node);
            return Settled::Stray;
        }
        if is_split(&settlement.outcome) && self.is_full() {
            self.give_back(node);
            self.halt();
            return Settled::Halted;
        }
        let stay = stayers(&settlement.outcome);
        let raised = self.scratch.raised.as_slice();
        close_ends(self.ends.as_mut_slice(), stay, raised);
        let count = self.slots.len();
        let settled = enter(&mut self.slots, settlement);
        self.agenda
            .refresh_all(self.slots.as_slice(), node as usize, count);
        settled
    }

    // Whether two more nodes are too many.
    fn is_full(&self) -> bool
        ensures yes { result ≡ true → self.now.nodes < length self.now.slots + 2 }
        ensures no { result ≡ false → length self.now.slots + 2 ≤ self.now.nodes }
    {
        self.slots.len() + 2 > self.nodes as usize
    }

    // Stops the pool for want of places.
    fn halt(&mut self)
        requires { IsFull self.old.problem self.old.nodes (length self.old.slots) }
        ensures { self.new ≡ record self.old { stopped = true; halted = true } }
    {
        self.stopped = true;
        self.halted = true;
    }

    /// Stops the pool: no node is claimed from now on.
    pub fn stop(&mut self)
        ensures { self.new ≡ record self.old { stopped = true } }
    {
        self.stopped = true;
    }

    /// Whether the pool is stopped.
    pub fn is_stopped(&self) -> bool
        ensures { result ≡ self.now.stopped }
    {
        self.stopped
    }

    /// Whether a settlement was answered with [`Settled::Halted`]. There are no places for two more nodes
    /// then, and fewer than 2V - 1 in all, where the root box has V points.
    pub fn is_halted(&self) -> bool
        ensures mark { result ≡ self.now.halted }
        ensures full { self.now.halted ≡ true → IsFull self.now.problem self.now.nodes (length self.now.slots) }
    {
        self.halted
    }

    /// How many nodes are open.
    pub fn open_count(&self) -> u32
        ensures { result ≡ pooled.count_open self.now.slots }
    {
        count_open(self.slots.as_slice())
    }

    /// How many nodes are claimed.
    pub fn claimed_count(&self) -> u32
        ensures { result ≡ pooled.count_claimed self.now.slots }
    {
        count_claimed(self.slots.as_slice())
    }

    /// The least level of a scenario over all its ends: where its search stopped, or waits. It is `Inf` or
    /// within ±2^60.
    pub fn end_level(&self, s: u32) -> Level
        requires { s < length self.now.problem.scenarios }
        ensures value { result ≡ bound_of self.now.problem (placed_of self.now.slots) s }
        ensures limit { LevelFits result }
    {
        let closed = level_at(self.ends.as_slice(), s);
        let waiting = waiting_least(self.slots.as_slice(), s);
        lesser(Some(closed), waiting)
    }

    /// The cap of a scenario, None where there is none.
    pub fn cap(&self, s: u32) -> Option<i64>
        requires { s < length self.now.problem.scenarios }
        ensures { cap_level result ≡ slice_index_or self.now.caps s Inf }
    {
        match level_at(self.caps.as_slice(), s) {
            Level::Value(value) => Some(value),
            Level::Inf => None,
        }
    }

    /// No feasible point of a scenario in the box of a node has a value below the scenario's level there.
    /// The call does nothing; its contract says what the type keeps.
    pub fn levels_are_bounds(&self)
        ensures { LevelsAreBounds self.now.problem self.now.slots }
    {
        let _ = &self.stopped;
    }

    /// Each feasible point of a scenario has at least the scenario's cap as value, or lies in the box of an
    /// open or claimed node where the scenario is live. The call does nothing.
    pub fn nothing_is_lost(&self)
        ensures { NothingIsLost self.now.problem self.now.slots self.now.caps }
    {
        let _ = &self.stopped;
    }

    /// The nodes are a search tree whose closed ends reach the caps, and there is a cap for each scenario. The
    /// call does nothing; its contract says what the type keeps.
    pub fn is_covered(&self)
        ensures limits { AreWithin self.now.problem }
        ensures covered { Covers self.now.problem self.now.slots self.now.caps }
        ensures caps { length self.now.caps ≡ length self.now.problem.scenarios }
    {
        let _ = &self.stopped;
    }

    /// The tree of what the nodes record. Open and claimed ones record nothing. It takes no memory.
    pub fn into_tree(self) -> Tree
        ensures { result ≡ nodes_of self.entry.slots }
    {
        let Pool {
            problem: _,
            slots,
            agenda: _,
            caps: _,
            ends: _,
            spare,
            scratch: _,
            alloc: _,
            nodes: _,
            stopped: _,
            halted: _,
        } = self;
        let mut tree = spare;
        for slot in slots {
            tree.push_reserved(slot.into_node());
        }
        Tree::from_vec(tree)
    }

    /// How many nodes there are, at most as many as were asked for.
    pub fn node_count(&self) -> u32
        ensures count { result ≡ length self.now.slots }
        ensures within { length self.now.slots ≤ self.now.nodes }
    {
        self.slots.len() as u32
    }
}

// Whether the node is split.
fn is_split(outcome: &Outcome) -> bool
    ensures yes { result ≡ true → IsSplit (outcome_of outcome.now) }
    ensures no { result ≡ false → IsSplit (outcome_of outcome.now) → ⊥ }
{
    match outcome {
        Outcome::Close => false,
        Outcome::Split { .. } => true,
    }
}

// Whether the settlement is that of a claimed node, lawful, and closes what it may. The raised levels are then in the scratch.
#[tactic(auto, using(crate::proofs::LawfulLaws::may_settle, crate::proofs::LawfulLaws::settle_passes))]
fn is_allowed(
    problem: &Problem,
    slots: &[Slot],
    caps: &[Level],
    settlement: &Settlement,
    scratch: &mut Scratch,
) -> bool
    requires caps { length caps.now ≡ length (problems.problem problem.now).scenarios }
    requires few { length (problems.problem problem.now).scenarios ≤ 64 }
    requires short { length slots.now ≤ 100001 }
    requires wide { AreWide (problems.problem problem.now).columns slots.now }
    requires scratch { IsScratch (problems.problem problem.now).columns (length (problems.problem problem.now).scenarios) scratch.old }
    ensures scratch { IsScratch (problems.problem problem.now).columns (length (problems.problem problem.now).scenarios) scratch.new }
    ensures yes { result ≡ true → MaySettle (problems.problem problem.now) slots.now caps.now claimed (settlement_of settlement.now) }
    ensures no { result ≡ false → MaySettle (problems.problem problem.now) slots.now caps.now claimed (settlement_of settlement.now) → ⊥ }
    ensures many { result ≡ true → length scratch.new.raised.items ≡ length (problems.problem problem.now).scenarios }
    ensures ends { result ≡ true → ended (problems.problem problem.now) (length slots.now) (settlement_of settlement.now) ≡ dropped (stay_of settlement.now.outcome) 0 scratch.new.raised.items }
{
    let n = settlement.work.node as usize;
    if n >= slots.len() {
        return false;
    }
    let slot = &slots[n];
    if !slot.is_claimed() || !slot.is_work(&settlement.work) {
        return false;
    }
    passes(
        problem,
        caps,
        slots.len() as u32,
        &settlement.work,
        &settlement.cert,
        &settlement.verdicts,
        &settlement.outcome,
        scratch,
    )
}

// Records a settlement that was judged, and opens its children.
fn enter(slots: &mut Vec<Slot>, settlement: Settlement) -> Settled
    requires below { settlement.work.node < length slots.old.items }
    requires place { (slot_at slots.old.items settlement.work.node).place ≡ place_of (work_of settlement.work) }
    requires short { AreShort (outcome_of settlement.outcome) }
    requires few { length slots.old.items ≤ 100001 }
    requires room { IsSplit (outcome_of settlement.outcome) → length slots.old.items + 2 ≤ vec_capacity slots.old }
    ensures slots { slots.new.items ≡ settled slots.old.items (settlement_of settlement) }
    ensures capacity { vec_capacity slots.new ≡ vec_capacity slots.old }
    ensures answer { IsAnswer (outcome_of settlement.outcome) result }
{
    let count = slots.len() as u32;
    let Settlement {
        work,
        cert,
        verdicts,
        outcome,
    } = settlement;
    let slot = &mut slots[work.node as usize];
    match outcome {
        Outcome::Close => {
            slot.close(Node::Leaf { cert, verdicts });
            Settled::Closed
        }
        Outcome::Split {
            stay,
            column,
            value,
            left,
            right,
            left_levels,
            right_levels,
            left_hint,
            right_hint,
        } => {
            slot.close(Node::Split {
                cert,
                verdicts,
                stay,
                child: count,
                column,
                value,
            });
            slots.push_reserved(Slot::open(left, stay, left_levels, left_hint));
            slots.push_reserved(Slot::open(right, stay, right_levels, right_hint));
            Settled::Split
        }
    }
}

// The scenarios that stay.
fn stayers(outcome: &Outcome) -> LiveSet
    ensures { result ≡ stay_of outcome.now }
{
    match outcome {
        Outcome::Close => LiveSet::none(),
        Outcome::Split { stay, .. } => *stay,
    }
}

// The root, open.
fn root_slot(alloc: Global, problem: &Problem) -> Result<Slot, AllocError>
    ensures { IfOk result (λ t. t ≡ coverage.root_slot (problems.problem problem.now)) }
{
    let count = problem.count();
    let bounds = Arc::new(alloc, problem.root(alloc)?)?;
    let levels = Arc::new(alloc, start_levels(alloc, problem)?)?;
    Ok(Slot::open(bounds, LiveSet::full(count), levels, None))
}

// Which open node comes next, found by blocks of nodes.
ghost use Rattle.std.specs.Prelude.{◌≡◌, ◌<◌, ◌≤◌, ◌+◌, ◌*◌, ◌/◌, ℕ, [], None, length, slice_index_or, IfOk, IfSome, MatchOption};
ghost use Rattle.certs.specs.Levels.{level_le};
ghost use Rattle.bb_core.specs.Coverage.{Open};
ghost use Rattle.open_pool.specs.Agenda.{least_at, FirstIn, IsRight, AreFirsts, IsRefreshed};
ghost use Rattle.open_pool.specs.Pooled.{HasNone, IsNext};

use crate::slot::Slot;
use std::alloc::{AllocError, Global};

// How many nodes a block has. A change of a node costs a walk through its block, and a claim one through
// the blocks.
const BLOCK: usize = 128;

/// For each block of nodes the open node that comes first: the one with the least live level, and of
/// several such nodes the one with the least number. None where no node of the block is open.
#[derive(Drop)]
pub(crate) struct Agenda {
    firsts: Vec<Option<u32>>,
}

impl Agenda {
    /// Blocks for so many nodes, of which none is open.
    pub(crate) fn new(alloc: Global, nodes: usize) -> Result<Agenda, AllocError>
        ensures none { IfOk result (λ a. AreFirsts [] a.firsts.items) }
        ensures room { IfOk result (λ a. nodes ≤ length a.firsts.items * 128) }
    {
        let firsts = vec![in alloc; None; nodes / BLOCK + 1]?;
        Ok(Agenda { firsts })
    }

    /// Finds anew what comes first in the block of a node, which changed.
    pub(crate) fn refresh(&mut self, slots: &[Slot], node: usize)
        requires short { length slots.now ≤ 100001 }
        requires there { node < length slots.now }
        requires room { length slots.now ≤ length self.old.firsts.items * 128 }
        ensures block { IsRight slots.now self.new.firsts.items (node / 128) }
        ensures others { (k : ℕ) → (k ≡ node / 128 → ⊥) → slice_index_or self.new.firsts.items k None ≡ slice_index_or self.old.firsts.items k None }
        ensures many { length self.new.firsts.items ≡ length self.old.firsts.items }
    {
        let block = node / BLOCK;
        self.firsts[block] = first_from(slots, block * BLOCK);
    }

    /// Finds anew what comes first in the block of a node, which changed, and in those of the nodes from
    /// `count` on, which are new.
    pub(crate) fn refresh_all(&mut self, slots: &[Slot], node: usize, count: usize)
        requires short { length slots.now ≤ 100001 }
        requires there { node < length slots.now }
        requires before { count ≤ length slots.now }
        requires room { length slots.now ≤ length self.old.firsts.items * 128 }
        ensures refreshed { (k : ℕ) → IsRefreshed slots.now node count (length slots.now) self.old.firsts.items self.new.firsts.items k }
        ensures many { length self.new.firsts.items ≡ length self.old.firsts.items }
    {
        self.refresh(slots, node);
        for n in count..slots.len() {
            self.refresh(slots, n);
        }
    }

    /// The open node with the least live level, and of these the one with the least number.
    pub(crate) fn next(&self, slots: &[Slot]) -> Option<u32>
        requires firsts { AreFirsts slots.now self.now.firsts.items }
        requires room { length slots.now ≤ length self.now.firsts.items * 128 }
        ensures { MatchOption result (HasNone slots.now Open) (IsNext slots.now) }
    {
        let mut best: Option<u32> = None;
        for k in 0..self.firsts.len() {
            best = better(slots, best, self.firsts[k]);
        }
        best
    }
}

// Which node comes first in a block that starts here.
fn first_from(slots: &[Slot], start: usize) -> Option<u32>
    requires short { length slots.now ≤ 100001 }
    requires within { start ≤ 100001 }
    ensures { FirstIn slots.now start (start + 128) result }
{
    let mut best: Option<u32> = None;
    for n in start..start + BLOCK {
        best = better(slots, best, if_open(slots, n));
    }
    best
}

// The node, where it is there and open.
fn if_open(slots: &[Slot], n: usize) -> Option<u32>
    requires { length slots.now ≤ 100001 }
    ensures { FirstIn slots.now n (n + 1) result }
{
    if n < slots.len() {
        let slot = &slots[n];
        if slot.is_open() {
            return Some(n as u32);
        }
    }
    None
}

// The first open node of two ranges, where these are the first ones of both, and the second range
// follows the first.
fn better(slots: &[Slot], best: Option<u32>, other: Option<u32>) -> Option<u32>
    requires best { IfSome best (λ b. b < length slots.now) }
    requires other { IfSome other (λ n. n < length slots.now) }
    ensures { (start middle end : ℕ) → start ≤ middle → middle ≤ end → FirstIn slots.now start middle best → FirstIn slots.now middle end other → FirstIn slots.now start end result }
{
    let Some(b) = best else {
        return other;
    };
    let Some(n) = other else {
        return best;
    };
    if is_at_most(slots, b, n) { best } else { other }
}

// Whether the least live level of a node is at most that of another one.
fn is_at_most(slots: &[Slot], b: u32, n: u32) -> bool
    requires here { b < length slots.now }
    requires there { n < length slots.now }
    ensures { result ≡ level_le (least_at slots.now b) (least_at slots.now n) }
{
    let slot = &slots[b as usize];
    let other = &slots[n as usize];
    slot.least().is_at_most(other.least())
}

// The places of the tree.
ghost use Rattle.std.specs.Prelude.{◌≡◌, ◌<◌, ◌≤◌, ◌+◌, ◌^◌, ℕ, true, false, length, MatchOption, IfOk, vec_capacity};
ghost use Rattle.scenario_changes.specs.Problems as problems;
ghost use Rattle.bb_core.specs.Settlements.{place_of};
ghost use Rattle.bb_core.specs.Shared.{settlement_of, outcome_of, work_of};
ghost use Rattle.bb_core.specs.Coverage as coverage;
ghost use Rattle.bb_core.specs.Coverage.{Open, Held, Stands, slot_at, marked_as, settled};
ghost use Rattle.bb_core.specs.Machine.{HoldsNone, held_at, MaySweep};
ghost use Rattle.bb_core.specs.Interleavings.{IsFinished};
ghost use Rattle.open_pool.specs.Claims.{AreShort, IsSplit};
ghost use Rattle.core_machine.specs.Marks.{mark_of};

use crate::caps::Caps;
use crate::slot::{Mark, Slot};
use bb_core::{Outcome, Settlement};
use certs::{Node, start_levels};
use live_sets::LiveSet;
use scenario_changes::Problem;
use std::alloc::{AllocError, Global};
use std::sync::Arc;

/// The root, open.
pub(crate) fn root_slot(alloc: Global, problem: &Problem) -> Result<Slot, AllocError>
    ensures { IfOk result (λ t. t ≡ coverage.root_slot (problems.problem problem.now)) }
{
    let count = problem.count();
    let bounds = Arc::new(alloc, problem.root(alloc)?)?;
    let levels = Arc::new(alloc, start_levels(alloc, problem)?)?;
    Ok(Slot::open(bounds, LiveSet::full(count), levels))
}

/// The node that the actor holds, None where it holds none.
#[tactic(auto, using(crate::proofs::SlotLaws::held_first, crate::proofs::SlotLaws::held_nowhere))]
pub(crate) fn find_held(slots: &[Slot], actor: u32) -> Option<u32>
    requires { length slots.now < 2 ^ 32 }
    ensures { MatchOption result (HoldsNone actor slots.now) (λ n. (n ≡ held_at actor slots.now) × Stands slots.now n (Held actor)) }
{
    for n in 0..slots.len() {
        let slot = &slots[n];
        if slot.is_held_by(actor) {
            return Some(n as u32);
        }
    }
    None
}

/// Whether the node is there and open.
#[tactic(auto, using(crate::proofs::SlotLaws::stands_at, crate::proofs::SlotLaws::stands_not, crate::proofs::SlotLaws::stands_nowhere))]
pub(crate) fn is_open_at(slots: &[Slot], node: u32) -> bool
    ensures yes { result ≡ true → Stands slots.now node Open }
    ensures no { result ≡ false → Stands slots.now node Open → ⊥ }
{
    let n = node as usize;
    if n >= slots.len() {
        return false;
    }
    let slot = &slots[n];
    slot.is_open()
}

/// Whether the node is there, open, and its levels reach the caps.
#[tactic(auto, using(crate::proofs::SlotLaws::sweeps, crate::proofs::SlotLaws::sweeps_not, crate::proofs::SlotLaws::stands_below))]
pub(crate) fn may_sweep(slots: &[Slot], caps: &Caps, node: u32) -> bool
    ensures yes { result ≡ true → MaySweep slots.now caps.now node }
    ensures no { result ≡ false → MaySweep slots.now caps.now node → ⊥ }
{
    if !is_open_at(slots, node) {
        return false;
    }
    let slot = &slots[node as usize];
    slot.reaches(caps)
}

/// Whether each node is closed.
#[tactic(auto, using(crate::proofs::SlotLaws::finished_all, crate::proofs::SlotLaws::finished_not))]
pub(crate) fn are_closed(slots: &[Slot]) -> bool
    ensures yes { result ≡ true → IsFinished slots.now }
    ensures no { result ≡ false → IsFinished slots.now → ⊥ }
{
    for n in 0..slots.len() {
        let slot = &slots[n];
        if !slot.is_closed() {
            return false;
        }
    }
    true
}

/// Marks a node.
pub(crate) fn set_mark(slots: &mut Vec<Slot>, node: u32, mark: Mark)
    requires { node < length slots.old.items }
    ensures { slots.new.items ≡ marked_as slots.old.items node (mark_of mark) }
{
    let slot = &mut slots[node as usize];
    slot.set_mark(mark);
}

/// Records a settlement that was judged, and opens its children.
pub(crate) fn enter(slots: &mut Vec<Slot>, settlement: Settlement)
    requires below { settlement.work.node < length slots.old.items }
    requires place { (slot_at slots.old.items settlement.work.node).place ≡ place_of (work_of settlement.work) }
    requires short { AreShort (outcome_of settlement.outcome) }
    requires few { length slots.old.items < 2 ^ 32 }
    requires room { length slots.old.items + 2 ≤ vec_capacity slots.old }
    ensures { slots.new.items ≡ settled slots.old.items (settlement_of settlement) }
{
    let count = slots.len() as u32;
    let Settlement {
        work,
        cert,
        verdicts,
        outcome,
    } = settlement;
    let slot = &mut slots[work.node as usize];
    match outcome {
        Outcome::Close => slot.close(Node::Leaf { cert, verdicts }),
        Outcome::Split {
            stay,
            column,
            value,
            left,
            right,
            left_levels,
            right_levels,
            left_hint: _,
            right_hint: _,
        } => {
            slot.close(Node::Split {
                cert,
                verdicts,
                stay,
                child: count,
                column,
                value,
            });
            slots.push_reserved(Slot::open(left, stay, left_levels));
            slots.push_reserved(Slot::open(right, stay, right_levels));
        }
    }
}

// Whether a settlement may be made.
ghost use Rattle.std.specs.Prelude.{◌≡◌, ◌<◌, ◌≤◌, ◌^◌, true, false, length};
ghost use Rattle.scenario_changes.specs.Problems as problems;
ghost use Rattle.bb_core.specs.Shared.{settlement_of, outcome_of};
ghost use Rattle.bb_core.specs.Coverage.{Held, MaySettle};
ghost use Rattle.bb_core.specs.Machine.{HasRoom};
ghost use Rattle.open_pool.specs.Judged.{IsScratch, AreWide};

use crate::slot::Slot;
use bb_core::{Outcome, Settlement};
use certs::Level;
use open_pool::{Scratch, passes};
use scenario_changes::Problem;

/// Whether the numbers of the children fit.
pub(crate) fn has_room(count: usize, outcome: &Outcome) -> bool
    requires { count < 2 ^ 32 }
    ensures yes { result ≡ true → HasRoom count (outcome_of outcome.now) }
    ensures no { result ≡ false → HasRoom count (outcome_of outcome.now) → ⊥ }
{
    match outcome {
        Outcome::Close => true,
        Outcome::Split { .. } => count + 2 <= u32::MAX as usize,
    }
}

/// Whether the settlement is that of the node that the actor holds, lawful, and closes what it may.
#[tactic(auto, using(crate::proofs::SettleLaws::may_settle, crate::proofs::SettleLaws::settle_passes))]
pub(crate) fn may_settle(
    problem: &Problem,
    slots: &[Slot],
    caps: &[Level],
    actor: u32,
    settlement: &Settlement,
    scratch: &mut Scratch,
) -> bool
    requires caps { length caps.now ≡ length (problems.problem problem.now).scenarios }
    requires few { length (problems.problem problem.now).scenarios ≤ 64 }
    requires short { length slots.now < 2 ^ 32 }
    requires wide { AreWide (problems.problem problem.now).columns slots.now }
    requires scratch { IsScratch (problems.problem problem.now).columns (length (problems.problem problem.now).scenarios) scratch.old }
    ensures yes { result ≡ true → MaySettle (problems.problem problem.now) slots.now caps.now (Held actor) (settlement_of settlement.now) }
    ensures no { result ≡ false → MaySettle (problems.problem problem.now) slots.now caps.now (Held actor) (settlement_of settlement.now) → ⊥ }
{
    let n = settlement.work.node as usize;
    if n >= slots.len() {
        return false;
    }
    let slot = &slots[n];
    if !slot.is_held_by(actor) || !slot.is_work(&settlement.work) {
        return false;
    }
    passes(
        problem,
        caps,
        slots.len() as u32,
        &settlement.work,
        &settlement.cert,
        &settlement.verdicts,
        &settlement.outcome,
        scratch,
    )
}

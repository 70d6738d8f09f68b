// What becomes of a node.
ghost use Rattle.std.specs.Prelude.{◌≡◌, ◌≢◌, ◌<◌, ◌≤◌, ℕ, [], None, Some, true, false, length, vec_capacity, slice_index_or, nat_eq, All, IfOk};
ghost use Rattle.std.specs.Arc.{arc_value};
ghost use Rattle.std.specs.List.{list_any};
ghost use Rattle.int_model.specs.Boxes.{interval_at, is_empty, is_single};
ghost use Rattle.tighten.specs.Steps.{IsStep};
ghost use Rattle.scenario_changes.specs.Problems.{problem as posed};
ghost use Rattle.certs.specs.Trees.{raised, splits_inside};
ghost use Rattle.certs.specs.Verdicts.{AllRowsBelow};
ghost use Rattle.bb_core.specs.Settlements.{IsLawful, place_of};
ghost use Rattle.bb_core.specs.Shared.{outcome_of, settlement_of, stay_of, work_of};
ghost use Rattle.node_work.specs.Branches.{IsSplit};
ghost use Rattle.node_work.specs.Probes.{IsGoodProbe};
ghost use Rattle.node_work.specs.Stayers.{AreOpen, AreStayers, CutsAreReached};

use crate::Probe;
use crate::stayers::{hull_stayers, stayers};
use bb_core::{Hint, Outcome, Settlement, Work};
use branching::{Branch, choose};
use certs::{Cert, Level, Levels, Verdicts, children_levels, raise, rising};
use int_model::PointBox;
use live_sets::LiveSet;
use scenario_changes::Problem;
use std::alloc::{AllocError, Global};
use std::sync::Arc;

fn share_box(alloc: Global, bounds: PointBox) -> Result<Arc<PointBox>, AllocError>
    ensures { IfOk result (λ shared. arc_value shared ≡ bounds) }
{
    match Arc::new(alloc, bounds) {
        Ok(shared) => Ok(shared),
        Err(_) => Err(AllocError),
    }
}

fn share_levels(alloc: Global, levels: Levels) -> Result<Arc<Levels>, AllocError>
    ensures { IfOk result (λ shared. arc_value shared ≡ levels) }
{
    match Arc::new(alloc, levels) {
        Ok(shared) => Ok(shared),
        Err(_) => Err(AllocError),
    }
}

fn share_hint(hint: &Option<Arc<Hint>>) -> Result<Option<Arc<Hint>>, AllocError> {
    match hint {
        Some(hint) => Ok(Some(Arc::try_clone(hint)?)),
        None => Ok(None),
    }
}

// Whether both parts of a box that is split there have numbers in the column.
fn is_inside(hull: &PointBox, branch: Branch) -> bool
    requires { branch.column < length hull.now }
    ensures { result ≡ splits_inside (Some hull.now) branch.column branch.value }
{
    let j = branch.column as usize;
    hull.lows()[j] <= branch.value && branch.value < hull.highs()[j]
}

// Where the box is split: as the hint says, if both parts then hold a point.
fn chosen(problem: &Problem, hull: &PointBox, stay: LiveSet, hint: Option<Branch>) -> Branch
    requires columns { length hull.now ≡ length problem.now.model.columns }
    requires occupied { is_empty hull.now ≡ false }
    requires several { is_single hull.now ≡ false }
    ensures column { result.column < length hull.now }
    ensures inside { splits_inside (Some hull.now) result.column result.value ≡ true }
{
    if let Some(branch) = hint {
        if branch.column < problem.model().columns() {
            if is_inside(hull, branch) {
                return branch;
            }
        }
    }
    choose(problem, hull, stay)
}

// The split in which these scenarios stay, where the levels were raised to these.
fn split(
    alloc: Global,
    problem: &Problem,
    work: &Work,
    probe: &Probe,
    stay: LiveSet,
    raised: &[Option<Level>],
) -> Result<Outcome, AllocError>
    requires columns { length (arc_value work.now.bounds) ≡ length problem.now.model.columns }
    requires few { length raised.now ≤ 64 }
    requires count { length raised.now ≡ length (arc_value work.now.levels) }
    requires steps { All (IsStep problem.now.model) probe.now.cert.steps }
    requires vectors { AllRowsBelow (length problem.now.model.rows) probe.now.cert.vectors }
    requires some { stay ≢ [] }
    requires open { AreOpen (posed problem.now) (arc_value work.now.bounds) probe.now.cert stay }
    requires stay { (k : ℕ) → list_any (nat_eq k) stay ≡ true → slice_index_or raised.now k None ≡ None → ⊥ }
    ensures { IfOk result (λ o. IsSplit (posed problem.now) (arc_value work.now.bounds) probe.now.cert stay raised.now (outcome_of o)) }
{
    let mut hull = work.bounds.copy(alloc)?;
    let mut replay = work.bounds.copy(alloc)?;
    hull_stayers(
        problem,
        &work.bounds,
        &probe.cert,
        stay,
        &mut hull,
        &mut replay,
    );
    let branch = chosen(problem, &hull, stay, probe.split);
    let (left, right) = hull.cut(alloc, branch.column, branch.value)?;
    let levels = children_levels(alloc, &work.levels, stay, raised)?;
    let left_levels = share_levels(alloc, levels)?;
    let right_levels = Arc::try_clone(&left_levels)?;
    Ok(Outcome::Split {
        stay,
        column: branch.column,
        value: branch.value,
        left: share_box(alloc, left)?,
        right: share_box(alloc, right)?,
        left_levels,
        right_levels,
        left_hint: share_hint(&probe.hint)?,
        right_hint: share_hint(&probe.hint)?,
    })
}

// Puts the raised levels of the work's live scenarios into the list. False where a verdict isn't valid, is
// missing or is one too many.
fn raise_levels(
    problem: &Problem,
    work: &Work,
    cert: &Cert,
    verdicts: &Verdicts,
    out: &mut Vec<Option<Level>>,
    scratch: &mut PointBox,
) -> bool
    requires room { length (posed problem.now).scenarios ≤ vec_capacity out.old }
    requires columns { length (arc_value work.now.bounds) ≡ length problem.now.model.columns }
    requires steps { All (IsStep problem.now.model) cert.now.steps }
    requires vectors { AllRowsBelow (length problem.now.model.rows) cert.now.vectors }
    requires scratch { length scratch.old ≡ length problem.now.model.columns }
    ensures yes { result ≡ true → raised (arc_value work.now.bounds) cert.now (posed problem.now).scenarios (place_of (work_of work.now)).levels verdicts.now ≡ Some out.new.items }
    ensures many { result ≡ true → length out.new.items ≡ length (posed problem.now).scenarios }
    ensures no { result ≡ false → raised (arc_value work.now.bounds) cert.now (posed problem.now).scenarios (place_of (work_of work.now)).levels verdicts.now ≡ None }
{
    raise(
        problem,
        &work.bounds,
        work.live,
        &work.levels,
        cert,
        verdicts,
        out,
        scratch,
    )
}

// What becomes of a node that was probed.
fn outcome(
    alloc: Global,
    problem: &Problem,
    work: &Work,
    probe: &Probe,
    cuts: &[Option<i64>],
) -> Result<Outcome, AllocError>
    requires columns { length (arc_value work.now.bounds) ≡ length problem.now.model.columns }
    requires levels { length (arc_value work.now.levels) ≡ length (posed problem.now).scenarios }
    requires live { All (λ s. s < length (posed problem.now).scenarios) work.now.live }
    requires good { IsGoodProbe (posed problem.now) (work_of work.now) probe.now.cert probe.now.verdicts probe.now.found.items }
    requires count { length cuts.now ≡ length (posed problem.now).scenarios }
    requires cuts { CutsAreReached (posed problem.now) probe.now.found.items cuts.now }
    ensures lawful { IfOk result (λ o. (count : ℕ) → work.now.node < count → IsLawful (posed problem.now) count (record { work = work_of work.now; cert = probe.now.cert; verdicts = probe.now.verdicts; outcome = outcome_of o })) }
    ensures stay { IfOk result (λ o. AreStayers (posed problem.now) (work_of work.now) probe.now.cert probe.now.verdicts cuts.now (stay_of o)) }
{
    // These calls tell that the certificate's rows and columns are the problem's, and that a set rises.
    let _fits = probe.cert.fits(problem);
    let _members = work.live.iter();
    let mut raised = Vec::with_capacity(alloc, problem.count() as usize)?;
    let mut replay = work.bounds.copy(alloc)?;
    let _is_valid = raise_levels(
        problem,
        work,
        &probe.cert,
        &probe.verdicts,
        &mut raised,
        &mut replay,
    );
    let stay = stayers(&raised, cuts);
    rising(stay);
    if stay.is_empty() {
        return Ok(Outcome::Close);
    }
    let outcome = split(alloc, problem, work, probe, stay, &raised)?;
    Ok(outcome)
}

/// Decides what becomes of a node that was probed: exactly the live scenarios stay whose level, raised by
/// their verdict, is below their cut. A cut that isn't there is above every number, and each cut is at
/// most the values of the points that the probe found for the scenario.
///
/// The settlement is lawful in every tree that has the work's node.
pub fn decide(
    alloc: Global,
    problem: &Problem,
    work: Work,
    probe: Probe,
    cuts: &[Option<i64>],
) -> Result<Settlement, AllocError>
    requires columns { length (arc_value work.bounds) ≡ length problem.now.model.columns }
    requires levels { length (arc_value work.levels) ≡ length (posed problem.now).scenarios }
    requires live { All (λ s. s < length (posed problem.now).scenarios) work.live }
    requires good { IsGoodProbe (posed problem.now) (work_of work) probe.cert probe.verdicts probe.found.items }
    requires count { length cuts.now ≡ length (posed problem.now).scenarios }
    requires cuts { CutsAreReached (posed problem.now) probe.found.items cuts.now }
    ensures lawful { IfOk result (λ s. (count : ℕ) → work.node < count → IsLawful (posed problem.now) count (settlement_of s)) }
    ensures work { IfOk result (λ s. work_of s.work ≡ work_of work) }
    ensures cert { IfOk result (λ s. s.cert ≡ probe.cert) }
    ensures verdicts { IfOk result (λ s. s.verdicts ≡ probe.verdicts) }
    ensures stay { IfOk result (λ s. AreStayers (posed problem.now) (work_of work) probe.cert probe.verdicts cuts.now (stay_of s.outcome)) }
{
    let outcome = outcome(alloc, problem, &work, &probe, cuts)?;
    let Probe {
        cert,
        verdicts,
        found: _,
        split: _,
        hint: _,
    } = probe;
    Ok(Settlement {
        work,
        cert,
        verdicts,
        outcome,
    })
}

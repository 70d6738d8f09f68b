// Whether a settlement may be recorded.
ghost use Rattle.scenario_changes.specs.Problems as problems;
ghost use Rattle.std.specs.Prelude.{◌≡◌, ◌<◌, ◌≤◌, ℕ, true, false, [], List, Option, length, vec_capacity};
ghost use Rattle.std.specs.Arc.{arc_value};
ghost use Rattle.bb_core.specs.Settlements.{Settlement as Settles, place_of, recorded};
ghost use Rattle.certs.specs.Trees.{is_rising, end_levels, dropped};
ghost use Rattle.certs.specs.declared.level.Level.{Level as Bound};
ghost use Rattle.open_pool.specs.Judged.{FitsModel, IsScratch, IsRaised, IsBranched, IsHullSplit, Passes};
ghost use Rattle.bb_core.specs.Shared.{work_of, outcome_of, stay_of};

use crate::boxes::{are_cut, is_inside};
use crate::levels::{are_kept, reach};
use crate::scratch::Scratch;
use bb_core::{Outcome, Work};
use certs::{Cert, Level, Levels, Verdicts, are_live, hull_stayers, raise, rising};
use int_model::PointBox;
use live_sets::LiveSet;
use scenario_changes::Problem;

// Whether the certificate fits and the verdicts are valid. The raised levels are then in the scratch.
fn is_raised(
    problem: &Problem,
    work: &Work,
    cert: &Cert,
    verdicts: &Verdicts,
    scratch: &mut Scratch,
) -> bool
    requires columns { length (arc_value work.now.bounds) ≡ length problem.now.model.columns }
    requires scratch { IsScratch (problems.problem problem.now).columns (length (problems.problem problem.now).scenarios) scratch.old }
    ensures scratch { IsScratch (problems.problem problem.now).columns (length (problems.problem problem.now).scenarios) scratch.new }
    ensures fits { result ≡ true → FitsModel problem.now.model cert.now }
    ensures yes { result ≡ true → IsRaised (problems.problem problem.now) (work_of work.now) cert.now verdicts.now scratch.new.raised.items }
    ensures many { result ≡ true → length scratch.new.raised.items ≡ length (problems.problem problem.now).scenarios }
    ensures no { result ≡ false → (rs : List (Option Bound)) → IsRaised (problems.problem problem.now) (work_of work.now) cert.now verdicts.now rs → ⊥ }
{
    if !cert.fits(problem) {
        return false;
    }
    raise(
        problem,
        &work.bounds,
        work.live,
        &work.levels,
        cert,
        verdicts,
        &mut scratch.raised,
        &mut scratch.replay,
    )
}

// Whether the split is that of the stayers' hull.
fn is_hull_split(
    problem: &Problem,
    work: &Work,
    cert: &Cert,
    stay: LiveSet,
    column: u32,
    value: i32,
    left: &PointBox,
    right: &PointBox,
    scratch: &mut Scratch,
) -> bool
    requires columns { length (arc_value work.now.bounds) ≡ length problem.now.model.columns }
    requires fits { FitsModel problem.now.model cert.now }
    requires column { column < length problem.now.model.columns }
    requires scratch { IsScratch (problems.problem problem.now).columns (length (problems.problem problem.now).scenarios) scratch.old }
    ensures scratch { IsScratch (problems.problem problem.now).columns (length (problems.problem problem.now).scenarios) scratch.new }
    ensures same { scratch.new.raised ≡ scratch.old.raised }
    ensures yes { result ≡ true → IsHullSplit (problems.problem problem.now) (arc_value work.now.bounds) cert.now stay column value left.now right.now }
    ensures no { result ≡ false → IsHullSplit (problems.problem problem.now) (arc_value work.now.bounds) cert.now stay column value left.now right.now → ⊥ }
{
    if !hull_stayers(
        problem,
        &work.bounds,
        cert,
        stay,
        &mut scratch.hull,
        &mut scratch.replay,
    ) {
        return false;
    }
    is_inside(&scratch.hull, column, value)
        && are_cut(&mut scratch.hull, column, value, left, right)
}

// Whether the split is right, where the scratch has the raised levels.
fn is_branched(
    problem: &Problem,
    work: &Work,
    cert: &Cert,
    stay: LiveSet,
    column: u32,
    value: i32,
    left: &PointBox,
    right: &PointBox,
    left_levels: &Levels,
    right_levels: &Levels,
    scratch: &mut Scratch,
) -> bool
    requires columns { length (arc_value work.now.bounds) ≡ length problem.now.model.columns }
    requires fits { FitsModel problem.now.model cert.now }
    requires few { length scratch.old.raised.items ≤ 64 }
    requires scratch { IsScratch (problems.problem problem.now).columns (length (problems.problem problem.now).scenarios) scratch.old }
    ensures scratch { IsScratch (problems.problem problem.now).columns (length (problems.problem problem.now).scenarios) scratch.new }
    ensures same { scratch.new.raised ≡ scratch.old.raised }
    ensures yes { result ≡ true → IsBranched (problems.problem problem.now) (work_of work.now) cert.now scratch.old.raised.items stay column value left.now right.now left_levels.now right_levels.now }
    ensures no { result ≡ false → IsBranched (problems.problem problem.now) (work_of work.now) cert.now scratch.old.raised.items stay column value left.now right.now left_levels.now right_levels.now → ⊥ }
{
    if !are_live(stay, work.live, &work.levels) {
        return false;
    }
    if column >= problem.model().columns() {
        return false;
    }
    if !is_hull_split(
        problem, work, cert, stay, column, value, left, right, scratch,
    ) {
        return false;
    }
    let raised = scratch.raised.as_slice();
    are_kept(stay, raised, left_levels) && are_kept(stay, raised, right_levels)
}

/// Whether the settlement is lawful and each dropped level reaches its cap.
#[tactic(auto, using(crate::proofs::LawfulLaws::not_closed_raised, crate::proofs::LawfulLaws::not_raised, crate::proofs::LawfulLaws::branch_ends_are))]
pub fn passes(
    problem: &Problem,
    caps: &[Level],
    count: u32,
    work: &Work,
    cert: &Cert,
    verdicts: &Verdicts,
    outcome: &Outcome,
    scratch: &mut Scratch,
) -> bool
    requires node { work.now.node < count }
    requires caps { length caps.now ≡ length (problems.problem problem.now).scenarios }
    requires few { length (problems.problem problem.now).scenarios ≤ 64 }
    requires columns { length (arc_value work.now.bounds) ≡ length problem.now.model.columns }
    requires scratch { IsScratch (problems.problem problem.now).columns (length (problems.problem problem.now).scenarios) scratch.old }
    ensures scratch { IsScratch (problems.problem problem.now).columns (length (problems.problem problem.now).scenarios) scratch.new }
    ensures yes { result ≡ true → Passes (problems.problem problem.now) caps.now count (record { work = work_of work.now; cert = cert.now; verdicts = verdicts.now; outcome = outcome_of outcome.now }) }
    ensures many { result ≡ true → length scratch.new.raised.items ≡ length (problems.problem problem.now).scenarios }
    ensures ends { result ≡ true → end_levels (problems.problem problem.now) (place_of (work_of work.now)) (recorded count cert.now verdicts.now (outcome_of outcome.now)) ≡ dropped (stay_of outcome.now) 0 scratch.new.raised.items }
    ensures no { result ≡ false → Passes (problems.problem problem.now) caps.now count (record { work = work_of work.now; cert = cert.now; verdicts = verdicts.now; outcome = outcome_of outcome.now }) → ⊥ }
{
    let is_valid = is_raised(problem, work, cert, verdicts, scratch);
    match outcome {
        Outcome::Close => is_valid && reach(caps, LiveSet::none(), scratch.raised.as_slice()),
        Outcome::Split {
            stay,
            column,
            value,
            left,
            right,
            left_levels,
            right_levels,
            ..
        } => {
            rising(*stay);
            is_valid
                && is_branched(
                    problem,
                    work,
                    cert,
                    *stay,
                    *column,
                    *value,
                    left,
                    right,
                    left_levels,
                    right_levels,
                    scratch,
                )
                && reach(caps, *stay, scratch.raised.as_slice())
        }
    }
}

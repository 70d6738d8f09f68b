// Dives into a box.
ghost use Rattle.std.specs.Prelude.{◌≡◌, ◌<◌, length, false, IfOk, IfSome, OnOk};
ghost use Rattle.int_model.specs.Boxes.{is_empty};
ghost use Rattle.scenario_changes.specs.Problems.{program_at};
ghost use Rattle.scenario_changes.specs.Problems as problems;
ghost use Rattle.tighten.specs.Engines.{IsSized, IsLoaded, box_in};
ghost use Rattle.dive.specs.Dives.{DecidesSingle, IsDive, IsPart, LiesIn};
ghost use Rattle.dive.specs.Plans.{IsPlan};

use crate::Dive;
use crate::conclusion::conclude;
use crate::diver::Diver;
use crate::plan::Plan;
use int_model::{NearPoint, PointBox};
use scenario_changes::Problem;
use std::alloc::{AllocError, Global};

// After so many conflicts a dive by costs ends.
const MOST_CONFLICTS: u32 = 40;

// Fixes the columns in their order. Answers the place of the first one where that fails.
fn fix_all(
    diver: &mut Diver,
    problem: &Problem,
    s: u32,
    plan: &Plan,
) -> Result<Option<usize>, AllocError>
    requires scenario { s < length (problems.problem problem.now).scenarios }
    requires loaded { IsLoaded problem.now.model diver.old.engine }
    requires plan { IsPlan (length problem.now.model.columns) plan.now }
    ensures loaded { IsLoaded problem.now.model diver.new.engine }
    ensures part { OnOk result (IsPart (box_in diver.new.engine) (box_in diver.old.engine)) }
    ensures place { IfOk result (λ found. IfSome found (λ place. place < length plan.now.order.items)) }
{
    for (place, column) in plan.order.iter().enumerate() {
        let target = plan.targets[*column as usize];
        if !diver.fix(problem, s, *column, target)? {
            return Ok(Some(place));
        }
    }
    Ok(None)
}

// Fixes the columns, and begins again at a dead end, with the column that was the dead end as the first
// one. After half of the conflicts the other numbers of all columns are tried.
fn descend(
    diver: &mut Diver,
    problem: &Problem,
    s: u32,
    bounds: &PointBox,
    plan: &mut Plan,
) -> Result<(), AllocError>
    requires scenario { s < length (problems.problem problem.now).scenarios }
    requires sized { IsSized problem.now.model diver.old.engine }
    requires columns { length bounds.now ≡ length problem.now.model.columns }
    requires occupied { is_empty bounds.now ≡ false }
    requires plan { IsPlan (length problem.now.model.columns) plan.old }
    ensures loaded { OnOk result (IsLoaded problem.now.model diver.new.engine) }
    ensures part { OnOk result (IsPart (box_in diver.new.engine) bounds.now) }
{
    if !diver.restart(problem, s, bounds)? {
        return Ok(());
    }
    for _ in 0..diver.most() {
        let Some(place) = fix_all(diver, problem, s, plan)? else {
            break;
        };
        if diver.is_at_limit() {
            break;
        }
        plan.revise(place, diver.is_past_half())?;
        if !diver.restart(problem, s, bounds)? {
            break;
        }
    }
    Ok(())
}

// A dive by a plan.
fn dive_by(
    alloc: Global,
    problem: &Problem,
    s: u32,
    bounds: &PointBox,
    plan: &mut Plan,
    most: u32,
) -> Result<Dive, AllocError>
    requires scenario { s < length (problems.problem problem.now).scenarios }
    requires columns { length bounds.now ≡ length problem.now.model.columns }
    requires occupied { is_empty bounds.now ≡ false }
    requires within { LiesIn bounds.now (program_at (problems.problem problem.now) s).bounds }
    requires plan { IsPlan (length problem.now.model.columns) plan.old }
    ensures { IfOk result (IsDive (program_at (problems.problem problem.now) s) bounds.now) }
{
    let mut diver = Diver::new(alloc, problem.model(), most)?;
    descend(&mut diver, problem, s, bounds, plan)?;
    let part = PointBox::from_ends(alloc, diver.lows(), diver.highs())?;
    conclude(alloc, problem, s, bounds, part)
}

/// Looks for a feasible point of a scenario in a box that isn't empty and lies in the scenario's bounds.
/// The dearest columns are fixed first, each at the end of its interval that its cost prefers. A point
/// that is found is improved as far as moves of one or two columns do so.
///
/// The same arguments give the same answer, unless memory is wanting.
pub fn dive(alloc: Global, problem: &Problem, s: u32, bounds: &PointBox) -> Result<Dive, AllocError>
    requires scenario { s < length (problems.problem problem.now).scenarios }
    requires occupied { is_empty bounds.now ≡ false }
    requires within { LiesIn bounds.now (program_at (problems.problem problem.now) s).bounds }
    ensures answer { IfOk result (IsDive (program_at (problems.problem problem.now) s) bounds.now) }
    ensures single { IfOk result (DecidesSingle (program_at (problems.problem problem.now) s) bounds.now) }
{
    // This call tells how many columns the scenario has.
    let _costs = problem.costs(s);
    let mut plan = Plan::by_cost(alloc, problem, s, bounds)?;
    dive_by(alloc, problem, s, bounds, &mut plan, MOST_CONFLICTS)
}

/// The same near a point: the columns whose near number is nearest to a whole one are fixed first, each
/// at its near number. A near point without a number for each column counts as none. The dive gives up
/// after `most` conflicts.
pub fn dive_near(
    alloc: Global,
    problem: &Problem,
    s: u32,
    bounds: &PointBox,
    near: &NearPoint,
    most: u32,
) -> Result<Dive, AllocError>
    requires scenario { s < length (problems.problem problem.now).scenarios }
    requires occupied { is_empty bounds.now ≡ false }
    requires within { LiesIn bounds.now (program_at (problems.problem problem.now) s).bounds }
    ensures answer { IfOk result (IsDive (program_at (problems.problem problem.now) s) bounds.now) }
    ensures single { IfOk result (DecidesSingle (program_at (problems.problem problem.now) s) bounds.now) }
{
    // This call tells how many columns the scenario has.
    let _costs = problem.costs(s);
    if near.len() != problem.model().columns() as usize {
        return dive(alloc, problem, s, bounds);
    }
    let mut plan = Plan::near(alloc, near)?;
    dive_by(alloc, problem, s, bounds, &mut plan, most)
}

// Dives: feasible points of the scenarios of a node.
ghost use Rattle.std.specs.Prelude.{◌≡◌, ◌<◌, true, false, length, All, IfOk, OnOk};
ghost use Rattle.int_model.specs.Boxes.{is_empty};
ghost use Rattle.int_model.specs.Programs.{Feasible};
ghost use Rattle.scenario_changes.specs.Problems.{problem as posed, program_at};
ghost use Rattle.dive.specs.Dives.{LiesIn};
ghost use Rattle.node_work.specs.Probes.{AreFound};
ghost use Rattle.node_work.specs.Refusals.{HaveParts};
ghost use Rattle.node_work.specs.Choices.{IsKept};

use crate::climbs::Climb;
use crate::remaining::Remaining;
use crate::standings::Standings;
use bb_core::Work;
use dive::{Dive, dive, dive_near};
use int_model::{NearPoint, Point, PointBox};
use live_sets::LiveSet;
use scenario_changes::Problem;
use std::alloc::{AllocError, Global};

// After so many conflicts a dive ends, at the root and elsewhere: there is a point to find at the root, and
// elsewhere another node may find one.
const ROOT_CONFLICTS: u32 = 40;

const CONFLICTS: u32 = 8;

// Keeps a copy of a point, if it is one of the scenario.
fn keep_copy(
    alloc: Global,
    found: &mut Vec<(u32, Point)>,
    s: u32,
    x: &[i32],
    is_point: bool,
) -> Result<(), AllocError>
    ensures { OnOk result (IsKept found.old.items s x.now is_point found.new.items) }
{
    if is_point {
        let point = Point::from_vec(x.to_vec(alloc)?);
        found.push((s, point))?;
    }
    Ok(())
}

// Whether a point is of use to a scenario: its value is below the one to undercut, and it is feasible.
fn is_useful(problem: &Problem, standings: &Standings, s: u32, x: &[i32]) -> bool
    requires { s < length (posed problem.now).scenarios }
    ensures { result ≡ true → Feasible (program_at (posed problem.now) s) x.now }
{
    standings.is_undercut(problem, s, x) && problem.meets(s, x)
}

// Adds the point for each live scenario to which it is of use.
fn add_for_all(
    alloc: Global,
    problem: &Problem,
    live: LiveSet,
    standings: &Standings,
    x: &[i32],
    found: &mut Vec<(u32, Point)>,
) -> Result<(), AllocError>
    requires live { All (λ s. s < length (posed problem.now).scenarios) live }
    requires found { AreFound (posed problem.now) found.old.items }
    ensures { OnOk result (AreFound (posed problem.now) found.new.items) }
{
    for s in live.iter() {
        let is_point = is_useful(problem, standings, s, x);
        keep_copy(alloc, found, s, x, is_point)?;
    }
    Ok(())
}

// The point that a dive near a point finds in a scenario's box; at the root also one by costs, if the
// first one is stuck.
fn dive_in(
    alloc: Global,
    problem: &Problem,
    s: u32,
    part: &PointBox,
    near: &NearPoint,
    is_root: bool,
) -> Result<Option<Point>, AllocError>
    requires scenario { s < length (posed problem.now).scenarios }
    requires occupied { is_empty part.now ≡ false }
    requires within { LiesIn part.now (program_at (posed problem.now) s).bounds }
{
    let most = if is_root { ROOT_CONFLICTS } else { CONFLICTS };
    if let Dive::Point(point) = dive_near(alloc, problem, s, part, near, most)? {
        return Ok(Some(point));
    }
    if !is_root {
        return Ok(None);
    }
    match dive(alloc, problem, s, part)? {
        Dive::Point(point) => Ok(Some(point)),
        Dive::Stuck { .. } => Ok(None),
    }
}

// Adds a point for all live scenarios, if there is one.
fn add_if_found(
    alloc: Global,
    problem: &Problem,
    live: LiveSet,
    standings: &Standings,
    point: Option<Point>,
    found: &mut Vec<(u32, Point)>,
) -> Result<(), AllocError>
    requires live { All (λ s. s < length (posed problem.now).scenarios) live }
    requires found { AreFound (posed problem.now) found.old.items }
    ensures { OnOk result (AreFound (posed problem.now) found.new.items) }
{
    let Some(point) = point else {
        return Ok(());
    };
    add_for_all(alloc, problem, live, standings, point.as_slice(), found)?;
    Ok(())
}

// Whether to dive for a scenario: at the root for each one that is open, elsewhere for the one of the climb.
fn is_wanted(work: &Work, standings: &Standings, first: &Climb, s: u32) -> bool {
    let is_root = work.hint.is_none();
    (is_root || s == first.scenario) && standings.is_open(s)
}

// Dives into the box of a scenario that remains. What is found is tried on each live scenario.
fn dive_for(
    alloc: Global,
    problem: &Problem,
    work: &Work,
    remaining: &Remaining,
    standings: &Standings,
    s: u32,
    near: &NearPoint,
    found: &mut Vec<(u32, Point)>,
) -> Result<(), AllocError>
    requires live { All (λ s. s < length (posed problem.now).scenarios) work.now.live }
    requires parts { HaveParts (posed problem.now) remaining.now.scenarios remaining.now.boxes.items }
    requires scenario { s < length (posed problem.now).scenarios }
    requires found { AreFound (posed problem.now) found.old.items }
    ensures { OnOk result (AreFound (posed problem.now) found.new.items) }
{
    let Some(part) = remaining.part(s) else {
        return Ok(());
    };
    let is_root = work.hint.is_none();
    let point = dive_in(alloc, problem, s, part, near, is_root)?;
    add_if_found(alloc, problem, work.live, standings, point, found)?;
    Ok(())
}

// The same, if it is wanted.
fn dive_if_wanted(
    alloc: Global,
    problem: &Problem,
    work: &Work,
    remaining: &Remaining,
    standings: &Standings,
    first: &Climb,
    s: u32,
    found: &mut Vec<(u32, Point)>,
) -> Result<(), AllocError>
    requires live { All (λ s. s < length (posed problem.now).scenarios) work.now.live }
    requires parts { HaveParts (posed problem.now) remaining.now.scenarios remaining.now.boxes.items }
    requires scenario { s < length (posed problem.now).scenarios }
    requires found { AreFound (posed problem.now) found.old.items }
    ensures { OnOk result (AreFound (posed problem.now) found.new.items) }
{
    if !is_wanted(work, standings, first, s) {
        return Ok(());
    }
    dive_for(
        alloc,
        problem,
        work,
        remaining,
        standings,
        s,
        &first.near,
        found,
    )?;
    Ok(())
}

/// Dives near the end of the first climb: for its scenario, and at the root for each one that is open.
pub(crate) fn dive_open(
    alloc: Global,
    problem: &Problem,
    work: &Work,
    remaining: &Remaining,
    standings: &Standings,
    first: &Option<Climb>,
) -> Result<Vec<(u32, Point)>, AllocError>
    requires live { All (λ s. s < length (posed problem.now).scenarios) work.now.live }
    requires parts { HaveParts (posed problem.now) remaining.now.scenarios remaining.now.boxes.items }
    ensures { IfOk result (λ found. AreFound (posed problem.now) found.items) }
{
    let mut found = Vec::new(alloc);
    let Some(first) = first else {
        return Ok(found);
    };
    for s in 0..problem.count() {
        dive_if_wanted(
            alloc, problem, work, remaining, standings, first, s, &mut found,
        )?;
    }
    Ok(found)
}

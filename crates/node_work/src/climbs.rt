// Climbs: vectors of multipliers made for single scenarios of a node.
ghost use Rattle.std.specs.Prelude.{◌≡◌, ◌<◌, false, length, IfOk, IfSome};
ghost use Rattle.int_model.specs.Boxes.{is_empty};
ghost use Rattle.scenario_changes.specs.Problems.{problem as posed};
ghost use Rattle.dual_bounds.specs.Vectors.{RowsBelow};
ghost use Rattle.node_work.specs.Refusals.{HaveParts};

use crate::multipliers::without_entries;
use crate::remaining::Remaining;
use crate::standings::{Aim, Standings};
use crate::starts::better_start;
use bb_core::Work;
use certs::Vectors;
use dual_bounds::Vector;
use dual_climb::climb;
use int_model::{NearPoint, PointBox};
use scenario_changes::Problem;
use std::alloc::{AllocError, Global};

// The most passes of a climb: at the root, and elsewhere of the first and of the second one.
const ROOT_PASSES: u32 = 300;

const PASSES: u32 = 160;

const LATER_PASSES: u32 = 40;

/// Where a climb for a scenario ended.
#[derive(Drop)]
pub(crate) struct Climb {
    pub(crate) scenario: u32,
    pub(crate) near: NearPoint,
}

// Which scenario a node's vector is made for. The two vectors of a node have different aims, and take
// turns from node to node.
fn aim_of(work: &Work, before: Option<&Climb>) -> Aim {
    let is_even = work.node % 2 == 0;
    if is_even == before.is_none() {
        Aim::LeastLevel
    } else {
        Aim::GreatestGap
    }
}

fn passes_of(work: &Work, before: Option<&Climb>) -> u32 {
    if work.hint.is_none() {
        ROOT_PASSES
    } else if before.is_none() {
        PASSES
    } else {
        LATER_PASSES
    }
}

// The near point of the climb before, or else of the work's hint.
fn near_of<'a>(work: &'a Work, before: Option<&'a Climb>) -> Option<&'a NearPoint> {
    if let Some(climb) = before {
        return Some(&climb.near);
    }
    match &work.hint {
        Some(hint) => Some(&hint.near),
        None => None,
    }
}

// A climb in the replay of a scenario, from the best one of the vectors that are there.
fn climb_in(
    alloc: Global,
    problem: &Problem,
    work: &Work,
    s: u32,
    part: &PointBox,
    made: &Vectors,
    before: Option<&Climb>,
    cut: Option<i64>,
) -> Result<(Vector, NearPoint), AllocError>
    requires scenario { s < length (posed problem.now).scenarios }
    requires columns { length part.now ≡ length problem.now.model.columns }
    requires occupied { is_empty part.now ≡ false }
    ensures scale { IfOk result (λ r. r.0.scale ≡ 4096) }
    ensures rows { IfOk result (λ r. RowsBelow (length problem.now.model.rows) r.0.entries) }
{
    let none = without_entries(alloc)?;
    let near = near_of(work, before);
    let passes = passes_of(work, before);
    let start = better_start(problem, s, part, made, &none);
    match &work.hint {
        Some(hint) => {
            let start = better_start(problem, s, part, &hint.vectors, start);
            climb(alloc, problem, s, part, start, near, passes, cut)
        }
        None => climb(alloc, problem, s, part, start, near, passes, cut),
    }
}

/// A vector made for the scenario that is next. None where none is open that had no vector made for it.
pub(crate) fn climb_next(
    alloc: Global,
    problem: &Problem,
    work: &Work,
    remaining: &Remaining,
    standings: &mut Standings,
    made: &Vectors,
    before: Option<&Climb>,
) -> Result<Option<(Vector, Climb)>, AllocError>
    requires parts { HaveParts (posed problem.now) remaining.now.scenarios remaining.now.boxes.items }
    ensures scale { IfOk result (λ o. IfSome o (λ r. r.0.scale ≡ 4096)) }
    ensures rows { IfOk result (λ o. IfSome o (λ r. RowsBelow (length problem.now.model.rows) r.0.entries)) }
{
    let Some(s) = standings.first(problem, aim_of(work, before)) else {
        return Ok(None);
    };
    standings.serve(s);
    let Some(part) = remaining.part(s) else {
        return Ok(None);
    };
    let cut = standings.cut(s);
    let (vector, near) = climb_in(alloc, problem, work, s, part, made, before, cut)?;
    Ok(Some((vector, Climb { scenario: s, near })))
}

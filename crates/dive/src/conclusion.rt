// How a dive ends: with a feasible point, or with a part of the box that a row misses.
ghost use Rattle.std.specs.Prelude.{◌≡◌, ◌≤◌, length, false, IfOk, MatchOption};
ghost use Rattle.std.specs.Prelude.{◌<◌};
ghost use Rattle.int_model.specs.Boxes.{InBox, is_empty};
ghost use Rattle.int_model.specs.Programs.{Feasible};
ghost use Rattle.scenario_changes.specs.Problems.{program_at};
ghost use Rattle.scenario_changes.specs.Problems as problems;
ghost use Rattle.dive.specs.Dives.{IsDive, IsFound, IsMissing, IsPart, LiesIn, MissesNone};

use crate::Dive;
use crate::improving::improved;
use activity::misses;
use int_model::{Point, PointBox};
use scenario_changes::Problem;
use std::alloc::{AllocError, Global};

// The first row that misses a box.
fn missed_row(problem: &Problem, s: u32, bounds: &PointBox) -> Option<u32>
    requires scenario { s < length (problems.problem problem.now).scenarios }
    requires columns { length bounds.now ≡ length problem.now.model.columns }
    ensures row { MatchOption result (MissesNone (program_at (problems.problem problem.now) s) bounds.now) (IsMissing (program_at (problems.problem problem.now) s) bounds.now) }
    ensures shape { length (program_at (problems.problem problem.now) s).ends ≡ length (program_at (problems.problem problem.now) s).rows }
{
    let model = problem.model();
    let ends = problem.ends(s);
    for i in 0..model.rows() {
        let terms = model.row(i).terms.as_slice();
        if misses(terms, ends[i as usize], bounds) {
            return Some(i);
        }
    }
    None
}

// A feasible point of the box: an improvement of this one, or this one.
fn better_point(
    alloc: Global,
    problem: &Problem,
    s: u32,
    bounds: &PointBox,
    x: &[i32],
) -> Result<Point, AllocError>
    requires scenario { s < length (problems.problem problem.now).scenarios }
    requires columns { length bounds.now ≡ length problem.now.model.columns }
    requires found { IsFound (program_at (problems.problem problem.now) s) bounds.now x.now }
    ensures { IfOk result (IsFound (program_at (problems.problem problem.now) s) bounds.now) }
{
    let better = improved(alloc, problem, s, bounds, x)?;
    if bounds.contains(&better) && problem.meets(s, &better) {
        return Ok(Point::from_vec(better));
    }
    let point = x.to_vec(alloc)?;
    Ok(Point::from_vec(point))
}

/// The answer of a dive into a box that came to a part of it: the part, where a row misses it, and
/// otherwise what its least corner is.
pub(crate) fn conclude(
    alloc: Global,
    problem: &Problem,
    s: u32,
    bounds: &PointBox,
    part: PointBox,
) -> Result<Dive, AllocError>
    requires scenario { s < length (problems.problem problem.now).scenarios }
    requires columns { length bounds.now ≡ length problem.now.model.columns }
    requires within { LiesIn bounds.now (program_at (problems.problem problem.now) s).bounds }
    requires part { IsPart part bounds.now }
    requires occupied { is_empty part ≡ false }
    ensures { IfOk result (IsDive (program_at (problems.problem problem.now) s) bounds.now) }
{
    if let Some(row) = missed_row(problem, s, &part) {
        return Ok(Dive::Stuck { bounds: part, row });
    }
    let corner = PointBox::from_ends(alloc, part.lows(), part.lows())?;
    if let Some(row) = missed_row(problem, s, &corner) {
        return Ok(Dive::Stuck {
            bounds: corner,
            row,
        });
    }
    let point = better_point(alloc, problem, s, bounds, corner.lows())?;
    Ok(Dive::Point(point))
}

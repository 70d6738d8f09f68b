// The climb of each scenario in the box of its bounds, again and again.
ghost use Rattle.std.specs.Prelude.{◌≡◌, ◌<◌, length, IfOk};
ghost use Rattle.scenario_changes.specs.Problems.{problem as problem_of_scenarios};

use dual_bounds::{Vector, VectorError, bound};
use dual_climb::climb;
use int_model::PointBox;
use scenario_changes::Problem;
use std::alloc::{AllocError, Global};

/// What the costs are multiplied by.
const SCALE: u32 = 4096;

/// The bound of a scenario after so many climbs, each of so many passes and from the zero vector. None where
/// the scenario's own bounds leave no point.
pub(crate) fn repeat(
    alloc: Global,
    problem: &Problem,
    s: u32,
    passes: u32,
    rounds: u32,
) -> Result<Option<i64>, AllocError>
    requires { s < length (problem_of_scenarios problem.now).scenarios }
{
    let bounds = PointBox::from_ends(alloc, problem.lows(s), problem.highs(s))?;
    if bounds.is_empty() || bounds.lows().len() != problem.model().columns() as usize {
        return Ok(None);
    }
    let Some(start) = zero_vector(alloc)? else {
        return Ok(None);
    };
    let mut reached = None;
    for _ in 0..rounds {
        let (vector, _) = climb(alloc, problem, s, &bounds, &start, None, passes, None)?;
        if vector.scale() > 0 {
            reached = Some(bound(
                problem.model(),
                problem.costs(s),
                problem.constant(),
                problem.ends(s),
                &vector,
                &bounds,
            ));
        }
    }
    Ok(reached)
}

// The vector without entries.
fn zero_vector(alloc: Global) -> Result<Option<Vector>, AllocError> {
    match Vector::new(alloc, SCALE, &[]) {
        Ok(vector) => Ok(Some(vector)),
        Err(VectorError::Memory) => Err(AllocError),
        Err(_) => Ok(None),
    }
}

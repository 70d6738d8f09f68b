// One call on each row of a model, or on the whole of it, again and again.
ghost use Rattle.std.specs.Prelude.{◌≡◌, ◌<◌, length, IfOk, All};
ghost use Rattle.scenario_changes.specs.Problems.{problem as problem_of_scenarios};
ghost use Rattle.tighten.specs.Steps.{IsStep};

use activity::least;
use int_model::{Model, PointBox};
use scenario_changes::Problem;
use std::alloc::{AllocError, Global};
use tighten::{RowEnd, Step, propose, replay};

/// What is repeated.
#[derive(Clone, Copy, Debug, PartialEq, Eq)]
pub(crate) enum Call {
    /// The terms of each row are read.
    Terms,
    /// The least sum of each row is made.
    Least,
    /// A step at each row is replayed.
    Replay,
    /// Steps are proposed.
    Propose,
}

/// The sum of what so many rounds answer.
pub(crate) fn repeat(
    alloc: Global,
    problem: &Problem,
    call: Call,
    rounds: i64,
) -> Result<i64, AllocError> {
    let steps = steps_of(alloc, problem.model())?;
    let mut total: i64 = 0;
    for _ in 0..rounds {
        let answer = match call {
            Call::Terms => sum_of_terms(problem.model()),
            Call::Least => sum_of_least(problem),
            Call::Replay => replayed(alloc, problem, &steps)?,
            Call::Propose => proposed(alloc, problem)?,
        };
        total = total.wrapping_add(answer);
    }
    Ok(total)
}

// A step at each row, at columns that go round.
fn steps_of(alloc: Global, model: &Model) -> Result<Vec<Step>, AllocError>
    ensures { IfOk result (λ steps. All (IsStep model.now) steps.items) }
{
    let mut steps = Vec::new(alloc);
    let columns = model.columns();
    if columns == 0 {
        return Ok(steps);
    }
    for row in 0..model.rows() {
        steps.push(Step {
            row,
            column: row % columns,
            side: RowEnd::Upper,
        })?;
    }
    Ok(steps)
}

fn sum_of_terms(model: &Model) -> i64 {
    let mut total: i64 = 0;
    for i in 0..model.rows() {
        for &(_, coefficient) in model.row(i).terms.as_slice() {
            total = total.wrapping_add(coefficient);
        }
    }
    total
}

fn sum_of_least(problem: &Problem) -> i64 {
    if problem.count() == 0 {
        return 0;
    }
    let model = problem.model();
    let lows = problem.lows(0);
    let highs = problem.highs(0);
    let mut total: i64 = 0;
    for i in 0..model.rows() {
        total = total.wrapping_add(least(model.row(i).terms.as_slice(), lows, highs));
    }
    total
}

// Whether the steps leave a box with points, as a number.
fn replayed(alloc: Global, problem: &Problem, steps: &[Step]) -> Result<i64, AllocError>
    requires { All (IsStep problem.now.model) steps.now }
{
    if problem.count() == 0 {
        return Ok(0);
    }
    let mut bounds = PointBox::from_ends(alloc, problem.lows(0), problem.highs(0))?;
    if bounds.lows().len() != problem.model().columns() as usize {
        return Ok(0);
    }
    Ok(i64::from(replay(problem.model(), problem.ends(0), steps, &mut bounds)))
}

// How many steps are proposed.
fn proposed(alloc: Global, problem: &Problem) -> Result<i64, AllocError> {
    if problem.count() == 0 {
        return Ok(0);
    }
    let bounds = PointBox::from_ends(alloc, problem.lows(0), problem.highs(0))?;
    if bounds.lows().len() != problem.model().columns() as usize {
        return Ok(0);
    }
    let mut steps = Vec::new(alloc);
    propose(alloc, problem.model(), problem.ends(0), &bounds, &mut steps)?;
    Ok(steps.len() as i64)
}

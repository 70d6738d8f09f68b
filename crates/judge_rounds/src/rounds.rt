// One call on a certificate that is as long as it may be, again and again.
ghost use Rattle.std.specs.Prelude.{◌≡◌, ◌<◌, length, All};
ghost use Rattle.scenario_changes.specs.Problems.{problem as problem_of_scenarios};
ghost use Rattle.tighten.specs.Steps.{IsStep};
ghost use Rattle.certs.specs.Verdicts.{AllRowsBelow};

use certs::{Cert, Level, Steps, VectorShares, Vectors, Verdict, judge};
use dual_bounds::{Vector, VectorError, evaluate};
use int_model::PointBox;
use scenario_changes::Problem;
use std::alloc::{AllocError, Global};
use tighten::{RowEnd, Step, replay};

const LONGEST: u32 = 128;

/// What is repeated.
#[derive(Clone, Copy, Debug, PartialEq, Eq)]
pub(crate) enum Call {
    /// The certificate's steps are replayed on a copy of the box.
    Replay,
    /// The sum of the certificate's vector over the box is made.
    Evaluate,
    /// The verdict of the certificate's vector is judged at the box.
    Judge,
}

/// The sum of what so many rounds answer, 0 where no certificate could be made.
pub(crate) fn repeat(
    alloc: Global,
    problem: &Problem,
    call: Call,
    rounds: i64,
) -> Result<i64, AllocError> {
    let Some(cert) = cert_of(alloc, problem)? else {
        return Ok(0);
    };
    if problem.count() == 0 || !cert.fits(problem) {
        return Ok(0);
    }
    let bounds = PointBox::from_ends(alloc, problem.lows(0), problem.highs(0))?;
    let mut scratch = bounds.copy(alloc)?;
    let mut total: i64 = 0;
    for _ in 0..rounds {
        let columns = problem.model().columns() as usize;
        if bounds.lows().len() != columns || scratch.lows().len() != columns {
            return Ok(0);
        }
        let answer = match call {
            Call::Replay => replayed(alloc, problem, &cert, &bounds)?,
            Call::Evaluate => evaluated(problem, &cert, &bounds),
            Call::Judge => judged(problem, &cert, &bounds, &mut scratch),
        };
        total = total.wrapping_add(answer);
    }
    Ok(total)
}

// A step and an entry at each of the first rows, at most 128.
fn cert_of(alloc: Global, problem: &Problem) -> Result<Option<Cert>, AllocError> {
    let model = problem.model();
    let columns = model.columns();
    if columns == 0 {
        return Ok(None);
    }
    let mut steps = Vec::new(alloc);
    let mut entries = Vec::new(alloc);
    for row in 0..model.rows().min(LONGEST) {
        steps.push(Step {
            row,
            column: row % columns,
            side: RowEnd::Upper,
        })?;
        entries.push((row, -1))?;
    }
    let vector = match Vector::new(alloc, 1, &entries) {
        Ok(vector) => vector,
        Err(VectorError::Memory) => return Err(AllocError),
        Err(_) => return Ok(None),
    };
    let mut vectors = Vectors::new(alloc);
    vectors.push(vector);
    Ok(Some(Cert {
        steps: Steps::from_vec(steps),
        vectors,
    }))
}

// Whether the steps leave a box with points, as a number.
fn replayed(
    alloc: Global,
    problem: &Problem,
    cert: &Cert,
    bounds: &PointBox,
) -> Result<i64, AllocError>
    requires scenario { 0 < length (problem_of_scenarios problem.now).scenarios }
    requires columns { length bounds.now ≡ length problem.now.model.columns }
    requires steps { All (IsStep problem.now.model) cert.now.steps }
{
    let mut part = bounds.copy(alloc)?;
    let left = replay(
        problem.model(),
        problem.ends(0),
        cert.steps.as_slice(),
        &mut part,
    );
    Ok(i64::from(left))
}

// The sum of the first vector.
fn evaluated(problem: &Problem, cert: &Cert, bounds: &PointBox) -> i64
    requires scenario { 0 < length (problem_of_scenarios problem.now).scenarios }
    requires columns { length bounds.now ≡ length problem.now.model.columns }
    requires vectors { AllRowsBelow (length problem.now.model.rows) cert.now.vectors }
{
    let _columns = problem.model().columns();
    match cert.vectors.get(0) {
        Some(vector) => {
            let sum = evaluate(
                problem.model(),
                problem.costs(0),
                problem.ends(0),
                vector,
                bounds,
            );
            i64::from(sum > 0)
        }
        None => 0,
    }
}

// The level of the first vector's bound, 0 where there is none.
fn judged(problem: &Problem, cert: &Cert, bounds: &PointBox, scratch: &mut PointBox) -> i64
    requires scenario { 0 < length (problem_of_scenarios problem.now).scenarios }
    requires columns { length bounds.now ≡ length problem.now.model.columns }
    requires steps { All (IsStep problem.now.model) cert.now.steps }
    requires vectors { AllRowsBelow (length problem.now.model.rows) cert.now.vectors }
    requires scratch { length scratch.old ≡ length problem.now.model.columns }
    ensures { length scratch.new ≡ length problem.now.model.columns }
{
    let shares = VectorShares::of(problem.model(), &cert.vectors);
    match judge(
        problem,
        0,
        bounds,
        cert,
        &shares,
        Verdict::Bound(0),
        scratch,
    ) {
        Some(Level::Value(value)) => value,
        _ => 0,
    }
}

// The vectors of a node: one or two for all of its scenarios.
ghost use Rattle.std.specs.Prelude.{◌≡◌, ◌<◌, ◌++◌, ◌∷◌, [], Some, None, length, All, IfOk, IfSome};
ghost use Rattle.scenario_changes.specs.Problems.{problem as posed};
ghost use Rattle.dual_bounds.specs.Vectors.{RowsBelow};
ghost use Rattle.certs.specs.Verdicts.{AllRowsBelow};
ghost use Rattle.node_work.specs.Refusals.{HaveParts};
ghost use Rattle.node_work.specs.Choices.{AreBounding};

use crate::climbs::{Climb, climb_next};
use crate::multipliers::first_vector;
use crate::remaining::Remaining;
use crate::standings::Standings;
use crate::starts::hinted;
use bb_core::Work;
use certs::Vectors;
use dual_bounds::Vector;
use scenario_changes::Problem;
use std::alloc::{AllocError, Global};

/// The vectors of a node, and where the climbs ended that made them.
#[derive(Drop)]
pub(crate) struct Bounding {
    pub(crate) vectors: Vectors,
    pub(crate) first: Option<Climb>,
    pub(crate) second: Option<Climb>,
}

// A candidate for the first vector, made by a climb where some scenario is open.
fn first_candidate(
    alloc: Global,
    problem: &Problem,
    work: &Work,
    remaining: &Remaining,
    standings: &mut Standings,
) -> Result<(Vector, Option<Climb>), AllocError>
    requires parts { HaveParts (posed problem.now) remaining.now.scenarios remaining.now.boxes.items }
    ensures scale { IfOk result (λ r. r.0.scale ≡ 4096) }
    ensures rows { IfOk result (λ r. RowsBelow (length problem.now.model.rows) r.0.entries) }
{
    let none = Vectors::new(alloc);
    match climb_next(alloc, problem, work, remaining, standings, &none, None)? {
        Some((vector, climb)) => Ok((vector, Some(climb))),
        None => {
            let vector = hinted(alloc, problem, work)?;
            Ok((vector, None))
        }
    }
}

// The vector of the same entries with the scale 0.
fn without_scale(alloc: Global, vector: &Vector) -> Result<Vector, AllocError>
    ensures { IfOk result (λ v. v ≡ record { scale = 0; entries = vector.now.entries }) }
{
    match Vector::new(alloc, 0, vector.entries()) {
        Ok(copy) => Ok(copy),
        Err(_) => Err(AllocError),
    }
}

// The same entries as those of the first vector with the scale 0, if they show of some open scenario that
// it has no point here.
fn ray_of(
    alloc: Global,
    problem: &Problem,
    remaining: &Remaining,
    standings: &mut Standings,
    made: &Vectors,
) -> Result<Option<Vector>, AllocError>
    requires columns { All (λ b. length b ≡ length problem.now.model.columns) remaining.now.boxes.items }
    requires made { AllRowsBelow (length problem.now.model.rows) made.now }
    ensures { IfOk result (λ o. IfSome o (λ v. RowsBelow (length problem.now.model.rows) v.entries)) }
{
    let Some(vector) = made.get(0) else {
        return Ok(None);
    };
    let ray = without_scale(alloc, vector)?;
    let shows = standings.raise_by(problem, remaining, &ray);
    if shows { Ok(Some(ray)) } else { Ok(None) }
}

// One more vector, where the first one was made by a climb: its ray, or else what one more climb makes.
fn second_vector(
    alloc: Global,
    problem: &Problem,
    work: &Work,
    remaining: &Remaining,
    standings: &mut Standings,
    made: &Vectors,
    first: &Climb,
) -> Result<(Option<Vector>, Option<Climb>), AllocError>
    requires parts { HaveParts (posed problem.now) remaining.now.scenarios remaining.now.boxes.items }
    requires columns { All (λ b. length b ≡ length problem.now.model.columns) remaining.now.boxes.items }
    requires made { AllRowsBelow (length problem.now.model.rows) made.now }
    ensures { IfOk result (λ r. IfSome r.0 (λ v. RowsBelow (length problem.now.model.rows) v.entries)) }
{
    if let Some(ray) = ray_of(alloc, problem, remaining, standings, made)? {
        return Ok((Some(ray), None));
    }
    match climb_next(
        alloc,
        problem,
        work,
        remaining,
        standings,
        made,
        Some(first),
    )? {
        Some((vector, climb)) => {
            standings.raise_by(problem, remaining, &vector);
            Ok((Some(vector), Some(climb)))
        }
        None => Ok((None, None)),
    }
}

// The same, or nothing where no climb made the first vector.
fn more_of(
    alloc: Global,
    problem: &Problem,
    work: &Work,
    remaining: &Remaining,
    standings: &mut Standings,
    made: &Vectors,
    first: &Option<Climb>,
) -> Result<(Option<Vector>, Option<Climb>), AllocError>
    requires parts { HaveParts (posed problem.now) remaining.now.scenarios remaining.now.boxes.items }
    requires columns { All (λ b. length b ≡ length problem.now.model.columns) remaining.now.boxes.items }
    requires made { AllRowsBelow (length problem.now.model.rows) made.now }
    ensures { IfOk result (λ r. IfSome r.0 (λ v. RowsBelow (length problem.now.model.rows) v.entries)) }
{
    match first {
        Some(first) => second_vector(alloc, problem, work, remaining, standings, made, first),
        None => Ok((None, None)),
    }
}

// The list with one vector more, if there is one.
fn with_more(vectors: Vectors, more: Option<Vector>) -> Vectors
    requires { length vectors < 2 }
    ensures none { more ≡ None → result ≡ vectors }
    ensures some { IfSome more (λ v. result ≡ vectors ++ v ∷ []) }
{
    let mut vectors = vectors;
    if let Some(vector) = more {
        vectors.push(vector);
    }
    vectors
}

/// Makes the vectors of a node: the first one as the promise on multipliers asks, and a second one, if there
/// is some use in it.
pub(crate) fn bound_all(
    alloc: Global,
    problem: &Problem,
    work: &Work,
    remaining: &Remaining,
    standings: &mut Standings,
) -> Result<Bounding, AllocError>
    requires parts { HaveParts (posed problem.now) remaining.now.scenarios remaining.now.boxes.items }
    requires count { length remaining.now.boxes.items ≡ length remaining.now.scenarios }
    requires scenarios { All (λ s. s < length (posed problem.now).scenarios) remaining.now.scenarios }
    requires columns { All (λ b. length b ≡ length problem.now.model.columns) remaining.now.boxes.items }
    ensures { IfOk result (λ b. AreBounding (posed problem.now) (length problem.now.model.rows) remaining.now.scenarios remaining.now.boxes.items b.vectors) }
{
    let (candidate, first) = first_candidate(alloc, problem, work, remaining, standings)?;
    let vector = first_vector(alloc, problem, remaining, candidate)?;
    standings.raise_by(problem, remaining, &vector);
    let mut vectors = Vectors::new(alloc);
    vectors.push(vector);
    let (more, second) = more_of(alloc, problem, work, remaining, standings, &vectors, &first)?;
    let vectors = with_more(vectors, more);
    Ok(Bounding {
        vectors,
        first,
        second,
    })
}

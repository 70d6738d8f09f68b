// The verdicts of a probe.
ghost use Rattle.std.specs.Prelude.{◌≡◌, ◌<◌, Some, None, length, slice_get, All, IsSome, IfOk, OnOk};
ghost use Rattle.std.specs.Arc.{arc_value};
ghost use Rattle.dual_bounds.specs.Shared.{AreShares};
ghost use Rattle.dual_bounds.specs.Vectors.{RowsBelow};
ghost use Rattle.scenario_changes.specs.Problems.{program_at, problem as posed};
ghost use Rattle.certs.specs.Shared.{HaveShares};
ghost use Rattle.certs.specs.Verdicts.{AllRowsBelow};
ghost use Rattle.node_work.specs.Probes.{EachLive, AreFound, IsGoodVerdict, IsBestVerdict, lows_of, scenarios_of, boxes_of};
ghost use Rattle.node_work.specs.Probes as probes;
ghost use Rattle.node_work.specs.Refusals.{EachRefusal, HaveParts, part_of};
ghost use Rattle.node_work.specs.Choices.{IsJudged, IsStrongest, HasFirst, IsStronger};
ghost use Rattle.node_work.specs.Choices as spec;

use crate::remaining::Remaining;
use bb_core::Work;
use certs::{Cert, Level, VectorShares, Vectors, Verdict, Verdicts, bound_level, farkas_level};
use dual_bounds::{Shares, Vector};
use int_model::{Point, PointBox};
use scenario_changes::Problem;
use std::alloc::{AllocError, Global};

/// A verdict and its level.
#[derive(Clone, Copy)]
pub(crate) struct Choice {
    pub(crate) verdict: Verdict,
    pub(crate) level: Level,
}

/// The level that a vector shows of a scenario in a box, None where that is nothing.
pub(crate) fn shown_level(
    problem: &Problem,
    s: u32,
    part: &PointBox,
    vector: &Vector,
    shares: &Shares,
) -> Option<Level>
    requires scenario { s < length (posed problem.now).scenarios }
    requires shares { AreShares problem.now.model vector.now.entries shares.now }
    requires columns { length part.now ≡ length problem.now.model.columns }
    requires rows { RowsBelow (length problem.now.model.rows) vector.now.entries }
{
    match bound_level(problem, s, part, vector, shares) {
        Some(level) => Some(level),
        None => farkas_level(problem, s, part, vector, shares),
    }
}

// What a vector shows of a scenario in a box, None where that is nothing.
fn shown_by(
    problem: &Problem,
    s: u32,
    part: &PointBox,
    vectors: &Vectors,
    shares: &VectorShares,
    k: u32,
) -> Option<Choice>
    requires shares { HaveShares problem.now.model vectors.now shares.now }
    requires scenario { s < length (posed problem.now).scenarios }
    requires columns { length part.now ≡ length problem.now.model.columns }
    requires rows { AllRowsBelow (length problem.now.model.rows) vectors.now }
    ensures { result ≡ spec.choice_by (program_at (posed problem.now) s) part.now k (slice_get vectors.now k) }
{
    let vector = match vectors.get(k as usize) {
        Some(vector) => vector,
        None => return None,
    };
    let shares = shares.get(k);
    if let Some(level) = bound_level(problem, s, part, vector, shares) {
        let verdict = Verdict::Bound(k);
        return Some(Choice { verdict, level });
    }
    match farkas_level(problem, s, part, vector, shares) {
        Some(level) => {
            let verdict = Verdict::Farkas(k);
            Some(Choice { verdict, level })
        }
        None => None,
    }
}

// The one of two choices with the greater level, the first one of two with the same.
fn stronger(first: Choice, second: Option<Choice>) -> Choice
    ensures { IsStronger first second result }
{
    match second {
        Some(second) => {
            if second.level.is_at_most(first.level) {
                first
            } else {
                second
            }
        }
        None => first,
    }
}

// The point of a single box, None where the box has more.
fn single_point(problem: &Problem, s: u32, part: &PointBox) -> Option<Choice>
    requires scenario { s < length (posed problem.now).scenarios }
    requires columns { length part.now ≡ length problem.now.model.columns }
    ensures { result ≡ spec.single_choice (program_at (posed problem.now) s) part.now }
{
    if !part.is_single() {
        return None;
    }
    Some(Choice {
        verdict: Verdict::Point,
        level: Level::Value(problem.value(s, part.lows())),
    })
}

// The verdict with the greatest level over a replay that isn't empty and that no row misses.
fn strongest(
    problem: &Problem,
    s: u32,
    part: &PointBox,
    vectors: &Vectors,
    shares: &VectorShares,
) -> Choice
    requires shares { HaveShares problem.now.model vectors.now shares.now }
    requires scenario { s < length (posed problem.now).scenarios }
    requires columns { length part.now ≡ length problem.now.model.columns }
    requires rows { AllRowsBelow (length problem.now.model.rows) vectors.now }
    requires first { HasFirst vectors.now }
    ensures { IsStrongest (program_at (posed problem.now) s) vectors.now part.now result }
{
    let _count = vectors.len();
    let Some(first) = shown_by(problem, s, part, vectors, shares, 0) else {
        unreachable!()
    };
    let second = shown_by(problem, s, part, vectors, shares, 1);
    let best = stronger(first, second);
    stronger(best, single_point(problem, s, part))
}

// Keeps the point of the low ends, if it is one that is found.
fn keep_point(
    alloc: Global,
    found: &mut Vec<(u32, Point)>,
    s: u32,
    part: &PointBox,
    is_point: bool,
) -> Result<(), AllocError>
    ensures { OnOk result (spec.IsKept found.old.items s (lows_of part.now) is_point found.new.items) }
{
    if is_point {
        let point = Point::from_vec(part.lows().to_vec(alloc)?);
        found.push((s, point))?;
    }
    Ok(())
}

// The verdict of a live scenario: its refusal, or else the strongest one over its box, whose point is kept
// if it is the only one.
fn judge_one(
    alloc: Global,
    problem: &Problem,
    s: u32,
    refusal: Option<Verdict>,
    remaining: &Remaining,
    vectors: &Vectors,
    shares: &VectorShares,
    found: &mut Vec<(u32, Point)>,
) -> Result<Verdict, AllocError>
    requires shares { HaveShares problem.now.model vectors.now shares.now }
    requires scenario { s < length (posed problem.now).scenarios }
    requires rows { AllRowsBelow (length problem.now.model.rows) vectors.now }
    requires first { HasFirst vectors.now }
    requires parts { HaveParts (posed problem.now) remaining.now.scenarios remaining.now.boxes.items }
    requires remains { refusal ≡ None → IsSome (part_of remaining.now.scenarios remaining.now.boxes.items s) }
    ensures { IfOk result (λ v. IsJudged (program_at (posed problem.now) s) vectors.now s refusal (part_of remaining.now.scenarios remaining.now.boxes.items s) found.old.items v found.new.items) }
{
    if let Some(verdict) = refusal {
        return Ok(verdict);
    }
    let Some(part) = remaining.part(s) else {
        unreachable!()
    };
    let choice = strongest(problem, s, part, vectors, shares);
    keep_point(alloc, found, s, part, part.is_single())?;
    Ok(choice.verdict)
}

/// Verdicts of the live scenarios, and feasible points.
#[derive(Drop)]
pub(crate) struct Judgement {
    pub(crate) verdicts: Verdicts,
    pub(crate) found: Vec<(u32, Point)>,
}

/// A verdict for each live scenario: the one with the greatest level that the certificate shows. Points
/// are added to those that were found.
pub(crate) fn judge_live(
    alloc: Global,
    problem: &Problem,
    work: &Work,
    cert: &Cert,
    remaining: &Remaining,
    found: Vec<(u32, Point)>,
) -> Result<Judgement, AllocError>
    requires live { All (λ s. s < length (posed problem.now).scenarios) work.now.live }
    requires vectors { AllRowsBelow (length problem.now.model.rows) cert.now.vectors }
    requires first { HasFirst cert.now.vectors }
    requires scenarios { remaining.now.scenarios ≡ scenarios_of (probes.remaining (posed problem.now) (arc_value work.now.bounds) cert.now work.now.live) }
    requires boxes { remaining.now.boxes.items ≡ boxes_of (probes.remaining (posed problem.now) (arc_value work.now.bounds) cert.now work.now.live) }
    requires refusals { EachRefusal (posed problem.now) (arc_value work.now.bounds) cert.now.steps work.now.live remaining.now.refusals.items }
    requires parts { HaveParts (posed problem.now) remaining.now.scenarios remaining.now.boxes.items }
    requires found { AreFound (posed problem.now) found.items }
    ensures good { IfOk result (λ j. EachLive (IsGoodVerdict (posed problem.now) (arc_value work.now.bounds) cert.now j.found.items) work.now.live j.verdicts) }
    ensures best { IfOk result (λ j. EachLive (IsBestVerdict (posed problem.now) (arc_value work.now.bounds) cert.now) work.now.live j.verdicts) }
    ensures found { IfOk result (λ j. AreFound (posed problem.now) j.found.items) }
{
    let mut verdicts = Vec::new(alloc);
    let mut found = found;
    let shares = VectorShares::of(problem.model(), &cert.vectors);
    let mut i = 0;
    for s in work.live.iter() {
        let verdict = judge_one(
            alloc,
            problem,
            s,
            remaining.refusals[i],
            remaining,
            &cert.vectors,
            &shares,
            &mut found,
        )?;
        verdicts.push(verdict)?;
        i += 1;
    }
    Ok(Judgement {
        verdicts: Verdicts::from_vec(verdicts),
        found,
    })
}

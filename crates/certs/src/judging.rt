// Whether a verdict is valid at a box, and its level.
ghost use Rattle.std.specs.Prelude.{◌≡◌, ◌≤◌, ◌<◌, true, false, Some, None, length, All, IfSome};
ghost use Rattle.int_model.specs.Boxes.{meet};
ghost use Rattle.int_model.specs.RowSums as sums;
ghost use Rattle.tighten.specs.Replay as steps;
ghost use Rattle.tighten.specs.Steps.{IsStep};
ghost use Rattle.dual_bounds.specs.Shared.{AreShares};
ghost use Rattle.dual_bounds.specs.Vectors.{RowsBelow};
ghost use Rattle.scenario_changes.specs.Problems.{program_at};
ghost use Rattle.scenario_changes.specs.Problems as problems;
ghost use Rattle.certs.specs.Shared.{HaveShares};
ghost use Rattle.certs.specs.Verdicts.{AllRowsBelow, judged, level_over};
ghost use Rattle.certs.specs.Verdicts as spec;

use crate::{Cert, Level, VectorShares, Vectors, Verdict};
use activity::misses;
use dual_bounds::{Shares, Vector, bound_with, evaluate_with};
use int_model::PointBox;
use scenario_changes::Problem;
use tighten::replay;

// Makes a box the part of another one that lies in a scenario's bounds.
fn cut_to_scenario(problem: &Problem, s: u32, bounds: &PointBox, part: &mut PointBox)
    requires scenario { s < length (problems.problem problem.now).scenarios }
    requires columns { length bounds.now ≡ length problem.now.model.columns }
    requires part { length part.old ≡ length problem.now.model.columns }
    ensures value { part.new ≡ meet bounds.now (program_at (problems.problem problem.now) s).bounds }
    ensures count { length part.new ≡ length problem.now.model.columns }
{
    let _limits = problem.costs(s);
    let _columns = bounds.lows();
    part.copy_from(bounds);
    part.meet(problem.lows(s), problem.highs(s));
}

// The level of a missed row, None where the row isn't missed or doesn't exist.
fn row_level(problem: &Problem, s: u32, part: &PointBox, row: u32) -> Option<Level>
    requires scenario { s < length (problems.problem problem.now).scenarios }
    requires columns { length part.now ≡ length problem.now.model.columns }
    ensures { result ≡ spec.row_level (program_at (problems.problem problem.now) s) row part.now }
{
    let _limits = problem.costs(s);
    let model = problem.model();
    let _columns = model.columns();
    if row >= model.rows() {
        return None;
    }
    let ends = problem.ends(s)[row as usize];
    if misses(model.row(row).terms.as_slice(), ends, part) {
        Some(Level::Inf)
    } else {
        None
    }
}

/// The level that a vector whose scale is 0 shows over a box: Inf where its sum is positive, None where it
/// shows nothing.
pub fn farkas_level(
    problem: &Problem,
    s: u32,
    part: &PointBox,
    vector: &Vector,
    shares: &Shares,
) -> Option<Level>
    requires scenario { s < length (problems.problem problem.now).scenarios }
    requires shares { AreShares problem.now.model vector.now.entries shares.now }
    requires columns { length part.now ≡ length problem.now.model.columns }
    requires rows { RowsBelow (length problem.now.model.rows) vector.now.entries }
    ensures { result ≡ spec.farkas_level (program_at (problems.problem problem.now) s) part.now vector.now }
{
    if vector.scale() != 0 {
        return None;
    }
    let sum = evaluate_with(
        shares,
        problem.model(),
        problem.costs(s),
        problem.ends(s),
        vector,
        part,
    );
    if sum > 0 { Some(Level::Inf) } else { None }
}

/// The level that a vector with a scale above 0 shows over a box, which is its bound; None where the scale
/// is 0.
pub fn bound_level(
    problem: &Problem,
    s: u32,
    part: &PointBox,
    vector: &Vector,
    shares: &Shares,
) -> Option<Level>
    requires scenario { s < length (problems.problem problem.now).scenarios }
    requires shares { AreShares problem.now.model vector.now.entries shares.now }
    requires columns { length part.now ≡ length problem.now.model.columns }
    requires rows { RowsBelow (length problem.now.model.rows) vector.now.entries }
    ensures { result ≡ spec.bound_level (program_at (problems.problem problem.now) s) part.now vector.now }
{
    if vector.scale() == 0 {
        return None;
    }
    let value = bound_with(
        shares,
        problem.model(),
        problem.costs(s),
        problem.constant(),
        problem.ends(s),
        vector,
        part,
    );
    Some(Level::Value(value))
}

// The value of the only point, None where the box isn't one point.
fn point_level(problem: &Problem, s: u32, part: &PointBox) -> Option<Level>
    requires scenario { s < length (problems.problem problem.now).scenarios }
    requires columns { length part.now ≡ length problem.now.model.columns }
    ensures { result ≡ spec.point_level (program_at (problems.problem problem.now) s) part.now }
{
    if !part.is_single() {
        return None;
    }
    Some(Level::Value(problem.value(s, part.lows())))
}

// The level of a verdict over a replay that isn't empty, None where the verdict isn't valid there.
fn level_on_replay(
    problem: &Problem,
    s: u32,
    part: &PointBox,
    vectors: &Vectors,
    shares: &VectorShares,
    verdict: Verdict,
) -> Option<Level>
    requires scenario { s < length (problems.problem problem.now).scenarios }
    requires columns { length part.now ≡ length problem.now.model.columns }
    requires rows { AllRowsBelow (length problem.now.model.rows) vectors.now }
    requires shares { HaveShares problem.now.model vectors.now shares.now }
    ensures { result ≡ level_over (program_at (problems.problem problem.now) s) vectors.now verdict part.now }
{
    match verdict {
        Verdict::Empty => None,
        Verdict::Misses(row) => row_level(problem, s, part, row),
        Verdict::Farkas(k) => match vectors.get(k as usize) {
            Some(vector) => farkas_level(problem, s, part, vector, shares.get(k)),
            None => None,
        },
        Verdict::Bound(k) => match vectors.get(k as usize) {
            Some(vector) => bound_level(problem, s, part, vector, shares.get(k)),
            None => None,
        },
        Verdict::Point => point_level(problem, s, part),
    }
}

// The level of a verdict over an empty replay.
fn level_on_nothing(verdict: Verdict) -> Option<Level>
    ensures { result ≡ spec.empty_level verdict }
{
    match verdict {
        Verdict::Empty => Some(Level::Inf),
        _ => None,
    }
}

/// Replays the certificate's steps for scenario s on the part of a box that lies in the scenario's bounds. False
/// where the replay is empty; else it is in `part`. It takes no memory.
pub fn replay_at(
    problem: &Problem,
    s: u32,
    bounds: &PointBox,
    cert: &Cert,
    part: &mut PointBox,
) -> bool
    requires scenario { s < length (problems.problem problem.now).scenarios }
    requires columns { length bounds.now ≡ length problem.now.model.columns }
    requires steps { All (IsStep problem.now.model) cert.now.steps }
    requires part { length part.old ≡ length problem.now.model.columns }
    ensures yes { result ≡ true → steps.replay (program_at (problems.problem problem.now) s) cert.now.steps bounds.now ≡ Some part.new }
    ensures no { result ≡ false → steps.replay (program_at (problems.problem problem.now) s) cert.now.steps bounds.now ≡ None }
    ensures count { length part.new ≡ length problem.now.model.columns }
{
    cut_to_scenario(problem, s, bounds, part);
    replay(
        problem.model(),
        problem.ends(s),
        cert.steps.as_slice(),
        part,
    )
}

/// The level of a verdict for scenario s at a box. None exactly where the verdict isn't valid there.
/// `shares` are those of the certificate's vectors. `scratch` has the box's length, and holds the replay of
/// the certificate's steps after the call, unless that is empty. It takes no memory.
///
/// Its time is that of the replay, and for a vector of one [`evaluate_with`].
pub fn judge(
    problem: &Problem,
    s: u32,
    bounds: &PointBox,
    cert: &Cert,
    shares: &VectorShares,
    verdict: Verdict,
    scratch: &mut PointBox,
) -> Option<Level>
    requires scenario { s < length (problems.problem problem.now).scenarios }
    requires columns { length bounds.now ≡ length problem.now.model.columns }
    requires steps { All (IsStep problem.now.model) cert.now.steps }
    requires vectors { AllRowsBelow (length problem.now.model.rows) cert.now.vectors }
    requires shares { HaveShares problem.now.model cert.now.vectors shares.now }
    requires scratch { length scratch.old ≡ length problem.now.model.columns }
    ensures level { result ≡ judged (program_at (problems.problem problem.now) s) bounds.now cert.now verdict }
    ensures replay { IfSome (steps.replay (program_at (problems.problem problem.now) s) cert.now.steps bounds.now) (λ part. scratch.new ≡ part) }
    ensures count { length scratch.new ≡ length problem.now.model.columns }
{
    if !replay_at(problem, s, bounds, cert, scratch) {
        return level_on_nothing(verdict);
    }
    level_on_replay(problem, s, scratch, &cert.vectors, shares, verdict)
}

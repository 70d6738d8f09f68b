// The stayers of a split, and the hull of their replays.
ghost use Rattle.std.specs.Prelude.{◌≡◌, ◌≢◌, ◌<◌, ◌↔◌, ◌≤◌, ℕ, [], false, length, Some, IsTrue, Contains, All};
ghost use Rattle.int_model.specs.Boxes.{is_empty, is_single};
ghost use Rattle.tighten.specs.Steps.{IsStep};
ghost use Rattle.scenario_changes.specs.Problems.{program_at};
ghost use Rattle.scenario_changes.specs.Problems as problems;
ghost use Rattle.certs.specs.Trees.{stayers_hull, stayer_box};
ghost use Rattle.node_work.specs.Stayers.{AreOpen, IsOpen, undercuts};
ghost use Rattle.node_work.specs.Stayers as spec;

use certs::{Cert, Level, replay_at};
use int_model::PointBox;
use live_sets::LiveSet;
use scenario_changes::Problem;

// Whether there is a level that is below the cut.
fn is_below(cut: Option<i64>, level: Option<Level>) -> bool
    ensures { result ≡ spec.is_below cut level }
{
    match level {
        None => false,
        Some(level) => !level.reaches(cut),
    }
}

/// The scenarios whose raised level is below their cut.
pub(crate) fn stayers(raised: &[Option<Level>], cuts: &[Option<i64>]) -> LiveSet
    requires few { length raised.now ≤ 64 }
    requires cuts { length cuts.now ≡ length raised.now }
    ensures { (k : ℕ) → Contains result k ↔ IsTrue (undercuts cuts.now raised.now k) }
{
    let mut stay = LiveSet::none();
    for k in 0..raised.len() {
        if is_below(cuts[k], raised[k]) {
            stay.insert(k as u32);
        }
    }
    stay
}

// Puts the replay of an open scenario into the box. No row misses it, so that the rows needn't be tried.
fn replay_open(problem: &Problem, s: u32, bounds: &PointBox, cert: &Cert, part: &mut PointBox)
    requires columns { length bounds.now ≡ length problem.now.model.columns }
    requires steps { All (IsStep problem.now.model) cert.now.steps }
    requires open { IsOpen (problems.problem problem.now) bounds.now cert.now s }
    requires part { length part.old ≡ length problem.now.model.columns }
    ensures here { stayer_box (problems.problem problem.now) bounds.now cert.now (program_at (problems.problem problem.now) s) ≡ Some part.new }
    ensures occupied { is_empty part.new ≡ false }
    ensures several { is_single part.new ≡ false }
    ensures count { length part.new ≡ length problem.now.model.columns }
{
    let _limits = problem.costs(s);
    replay_at(problem, s, bounds, cert, part);
}

/// Puts the hull of the replays of the stayers, of which there are some, into the box.
pub(crate) fn hull_stayers(
    problem: &Problem,
    bounds: &PointBox,
    cert: &Cert,
    stay: LiveSet,
    hull: &mut PointBox,
    replay: &mut PointBox,
)
    requires columns { length bounds.now ≡ length problem.now.model.columns }
    requires steps { All (IsStep problem.now.model) cert.now.steps }
    requires some { stay ≢ [] }
    requires open { AreOpen (problems.problem problem.now) bounds.now cert.now stay }
    requires hull { length hull.old ≡ length problem.now.model.columns }
    requires replay { length replay.old ≡ length problem.now.model.columns }
    ensures hull { stayers_hull (problems.problem problem.now) bounds.now cert.now stay ≡ Some hull.new }
    ensures occupied { is_empty hull.new ≡ false }
    ensures several { is_single hull.new ≡ false }
    ensures count { length hull.new ≡ length problem.now.model.columns }
{
    let mut is_begun = false;
    for s in stay.iter() {
        if is_begun {
            replay_open(problem, s, bounds, cert, replay);
            hull.hull(replay);
        } else {
            replay_open(problem, s, bounds, cert, hull);
            is_begun = true;
        }
    }
}

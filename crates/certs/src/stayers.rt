// The scenarios that stay at a split, and the hull of their replays.
ghost use Rattle.std.specs.Prelude.{◌≡◌, ◌<◌, ◌≤◌, true, false, length, Some, None, IfSome, nat_eq, All, slice_index_or};
ghost use Rattle.std.specs.List.{list_any, list_all};
ghost use Rattle.int_model.specs.Boxes.{is_empty};
ghost use Rattle.int_model.specs.RowSums.{row_misses};
ghost use Rattle.tighten.specs.Steps.{IsStep};
ghost use Rattle.scenario_changes.specs.Problems.{program_at};
ghost use Rattle.scenario_changes.specs.Problems as problems;
ghost use Rattle.certs.specs.Trees.{of_live, is_live, is_rising, some_row_misses, stayer_box, stayers_hull};

use crate::{Cert, Level, Levels, replay_at};
use activity::misses;
use int_model::PointBox;
use live_sets::LiveSet;
use scenario_changes::Problem;

/// Whether a scenario is one of a set.
pub fn is_member(set: LiveSet, s: u32) -> bool
    ensures { result ≡ list_any (nat_eq s) set }
{
    set.contains(s)
}

/// A set of scenarios is a rising list. The call does nothing; its contract says so.
pub fn rising(set: LiveSet)
    ensures { is_rising set ≡ true }
{
    let _members = set.iter();
}

/// The level of a scenario where it is live, None where it isn't or has none in the list.
#[tactic(auto, using(crate::proofs::LevelLists::live_none, crate::proofs::LevelLists::live_past, crate::proofs::LevelLists::live_some))]
pub fn live_level(live: LiveSet, levels: &Levels, s: u32) -> Option<Level>
    ensures { result ≡ slice_index_or (of_live live 0 levels.now) s None }
{
    if !is_member(live, s) {
        return None;
    }
    let items = levels.as_slice();
    if (s as usize) < items.len() {
        Some(items[s as usize])
    } else {
        None
    }
}

/// Whether each scenario that stays is live and has a level.
pub fn are_live(stay: LiveSet, live: LiveSet, levels: &Levels) -> bool
    ensures { result ≡ list_all (is_live (of_live live 0 levels.now)) stay }
{
    for s in stay.iter() {
        let level = live_level(live, levels, s);
        if level.is_none() {
            return false;
        }
    }
    true
}

/// The first row of a scenario that misses the box: no point of the box meets it.
pub fn missed_row(problem: &Problem, s: u32, part: &PointBox) -> Option<u32>
    requires scenario { s < length (problems.problem problem.now).scenarios }
    requires columns { length part.now ≡ length problem.now.model.columns }
    ensures some { IfSome result (λ i. row_misses (program_at (problems.problem problem.now) s) i part.now ≡ true) }
    ensures missed { IfSome result (λ i. some_row_misses (program_at (problems.problem problem.now) s) (length problem.now.model.rows) part.now ≡ true) }
    ensures none { result ≡ None → some_row_misses (program_at (problems.problem problem.now) s) (length problem.now.model.rows) part.now ≡ false }
{
    let _limits = problem.costs(s);
    let model = problem.model();
    let _columns = model.columns();
    let ends = problem.ends(s);
    for i in 0..model.rows() {
        let row = model.row(i);
        if misses(row.terms.as_slice(), ends[i as usize], part) {
            return Some(i);
        }
    }
    None
}

/// Whether a scenario's replay of the steps isn't empty and no row misses it, so that the scenario may
/// stay. The replay is then in `part`.
pub fn is_stayer(
    problem: &Problem,
    s: u32,
    bounds: &PointBox,
    cert: &Cert,
    part: &mut PointBox,
) -> bool
    requires scenario { s < length (problems.problem problem.now).scenarios }
    requires columns { length bounds.now ≡ length problem.now.model.columns }
    requires steps { All (IsStep problem.now.model) cert.now.steps }
    requires part { length part.old ≡ length problem.now.model.columns }
    ensures yes { result ≡ true → stayer_box (problems.problem problem.now) bounds.now cert.now (program_at (problems.problem problem.now) s) ≡ Some part.new }
    ensures no { result ≡ false → stayer_box (problems.problem problem.now) bounds.now cert.now (program_at (problems.problem problem.now) s) ≡ None }
    ensures occupied { result ≡ true → is_empty part.new ≡ false }
    ensures count { length part.new ≡ length problem.now.model.columns }
{
    let _limits = problem.costs(s);
    replay_at(problem, s, bounds, cert, part) && missed_row(problem, s, part).is_none()
}

/// Puts the hull of the stayers' replays into `hull`. False where there is none: no scenario stays, or the
/// replay of one that does is empty or missed by a row.
pub fn hull_stayers(
    problem: &Problem,
    bounds: &PointBox,
    cert: &Cert,
    stay: LiveSet,
    hull: &mut PointBox,
    replay: &mut PointBox,
) -> bool
    requires columns { length bounds.now ≡ length problem.now.model.columns }
    requires steps { All (IsStep problem.now.model) cert.now.steps }
    requires hull { length hull.old ≡ length problem.now.model.columns }
    requires replay { length replay.old ≡ length problem.now.model.columns }
    ensures yes { result ≡ true → stayers_hull (problems.problem problem.now) bounds.now cert.now stay ≡ Some hull.new }
    ensures no { result ≡ false → stayers_hull (problems.problem problem.now) bounds.now cert.now stay ≡ None }
    ensures occupied { result ≡ true → is_empty hull.new ≡ false }
    ensures hull { length hull.new ≡ length problem.now.model.columns }
    ensures replay { length replay.new ≡ length problem.now.model.columns }
{
    let mut is_begun = false;
    for s in stay.iter() {
        if s >= problem.count() {
            return false;
        }
        if is_begun {
            if !is_stayer(problem, s, bounds, cert, replay) {
                return false;
            }
            hull.hull(replay);
        } else {
            if !is_stayer(problem, s, bounds, cert, hull) {
                return false;
            }
            is_begun = true;
        }
    }
    is_begun
}

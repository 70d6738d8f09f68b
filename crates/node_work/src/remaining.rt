// The scenarios that remain at a node: their replay isn't empty, and no row misses it.
ghost use Rattle.std.specs.Prelude.{◌≡◌, ◌<◌, None, Some, length, option_copied, All, IfOk, IsSome};
ghost use Rattle.tighten.specs.Steps.{IsStep};
ghost use Rattle.scenario_changes.specs.Problems.{problem as posed, program_at};
ghost use Rattle.certs.specs.Trees.{stayer_box};
ghost use Rattle.node_work.specs.Probes.{remaining, scenarios_of, boxes_of};
ghost use Rattle.node_work.specs.Refusals.{EachRefusal, HaveParts, IsPart, IsRefusal, part_of};

use certs::{Cert, Verdict, missed_row, replay_at};
use int_model::PointBox;
use live_sets::LiveSet;
use scenario_changes::Problem;
use std::alloc::{AllocError, Global};

/// Scenarios with a box for each of them, in rising order of the scenarios, and for each live scenario the
/// verdict by which it isn't one of these, None for one that is.
#[derive(Drop)]
pub(crate) struct Remaining {
    pub(crate) scenarios: LiveSet,
    pub(crate) boxes: Vec<PointBox>,
    pub(crate) refusals: Vec<Option<Verdict>>,
}

// The verdict by which a scenario doesn't remain. Where it does, its replay is in `part`.
fn refusal_at(
    problem: &Problem,
    s: u32,
    bounds: &PointBox,
    cert: &Cert,
    part: &mut PointBox,
) -> Option<Verdict>
    requires scenario { s < length (posed problem.now).scenarios }
    requires columns { length bounds.now ≡ length problem.now.model.columns }
    requires steps { All (IsStep problem.now.model) cert.now.steps }
    requires part { length part.old ≡ length problem.now.model.columns }
    ensures refusal { IsRefusal (posed problem.now) bounds.now cert.now.steps s result }
    ensures remains { result ≡ None → stayer_box (posed problem.now) bounds.now cert.now (program_at (posed problem.now) s) ≡ Some part.new }
    ensures leaves { IsSome result → stayer_box (posed problem.now) bounds.now cert.now (program_at (posed problem.now) s) ≡ None }
    ensures part { result ≡ None → IsPart (posed problem.now) s part.new }
    ensures count { length part.new ≡ length problem.now.model.columns }
{
    let _limits = problem.costs(s);
    if !replay_at(problem, s, bounds, cert, part) {
        return Some(Verdict::Empty);
    }
    match missed_row(problem, s, part) {
        Some(row) => Some(Verdict::Misses(row)),
        None => None,
    }
}

impl Remaining {
    /// The live scenarios whose replay isn't empty and that no row misses, each with its replay.
    pub(crate) fn new(
        alloc: Global,
        problem: &Problem,
        live: LiveSet,
        bounds: &PointBox,
        cert: &Cert,
    ) -> Result<Remaining, AllocError>
        requires live { All (λ s. s < length (posed problem.now).scenarios) live }
        requires columns { length bounds.now ≡ length problem.now.model.columns }
        requires steps { All (IsStep problem.now.model) cert.now.steps }
        ensures scenarios { IfOk result (λ r. r.scenarios ≡ scenarios_of (remaining (posed problem.now) bounds.now cert.now live)) }
        ensures boxes { IfOk result (λ r. r.boxes.items ≡ boxes_of (remaining (posed problem.now) bounds.now cert.now live)) }
        ensures count { IfOk result (λ r. length r.boxes.items ≡ length r.scenarios) }
        ensures below { IfOk result (λ r. All (λ s. s < length (posed problem.now).scenarios) r.scenarios) }
        ensures columns { IfOk result (λ r. All (λ b. length b ≡ length problem.now.model.columns) r.boxes.items) }
        ensures parts { IfOk result (λ r. HaveParts (posed problem.now) r.scenarios r.boxes.items) }
        ensures refusals { IfOk result (λ r. EachRefusal (posed problem.now) bounds.now cert.now.steps live r.refusals.items) }
    {
        let mut scenarios = LiveSet::none();
        let mut boxes = Vec::new(alloc);
        let mut refusals = Vec::new(alloc);
        let mut part = bounds.copy(alloc)?;
        for s in live.iter() {
            let refusal = refusal_at(problem, s, bounds, cert, &mut part);
            refusals.push(refusal)?;
            if refusal.is_none() {
                boxes.push(part.copy(alloc)?)?;
                scenarios.insert(s);
            }
        }
        Ok(Remaining {
            scenarios,
            boxes,
            refusals,
        })
    }

    /// The box of a scenario, None where it doesn't remain.
    pub(crate) fn part(&self, s: u32) -> Option<&PointBox>
        ensures { option_copied result ≡ part_of self.now.scenarios self.now.boxes.items s }
    {
        let mut scenarios = self.scenarios.iter();
        for k in 0..self.boxes.len() {
            match scenarios.next() {
                Some(other) => {
                    if other == s {
                        return Some(&self.boxes[k]);
                    }
                }
                None => return None,
            }
        }
        None
    }
}

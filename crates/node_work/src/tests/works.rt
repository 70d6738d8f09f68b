// Works at roots, their probes, and what is decided.
ghost use Rattle.std.specs.Prelude.{◌≡◌, ◌<◌, true, length, All, IsTrue};
ghost use Rattle.std.specs.Arc.{arc_value};
ghost use Rattle.scenario_changes.specs.Problems.{problem as posed};

use super::reached::are_reached;
use crate::{Probe, decide, probe};
use bb_core::{Cuts, Hint, Outcome, Settlement, Work};
use branching::Branch;
use certs::start_levels;
use live_sets::LiveSet;
use scenario_changes::Problem;
use std::alloc::Global;
use std::process::Abort;
use std::sync::Arc;
use std::test::Fail;

/// No cuts.
pub(super) fn no_cuts(alloc: Global) -> Cuts {
    Cuts::from_vec(Vec::new(alloc))
}

/// The work at the root, where all scenarios are live, with these hints.
pub(super) fn root(
    alloc: Global,
    problem: &Problem,
    hint: Option<Arc<Hint>>,
    cuts: Cuts,
) -> Result<Work, Fail> {
    Ok(Work {
        node: 0,
        bounds: Arc::new(alloc, problem.root(alloc)?)?,
        live: LiveSet::full(problem.count()),
        levels: Arc::new(alloc, start_levels(alloc, problem)?)?,
        hint,
        cuts,
    })
}

fn are_below(live: LiveSet, count: u32) -> bool
    ensures { IsTrue result → All (λ s. s < count) live }
{
    live.iter().all(|s| s < count)
}

/// Whether a work's box and lists are those of the problem.
pub(super) fn is_fit(problem: &Problem, work: &Work) -> bool
    ensures columns { result ≡ true → length (arc_value work.now.bounds) ≡ length problem.now.model.columns }
    ensures levels { result ≡ true → length (arc_value work.now.levels) ≡ length (posed problem.now).scenarios }
    ensures live { result ≡ true → All (λ s. s < length (posed problem.now).scenarios) work.now.live }
{
    let count = problem.count();
    let columns = problem.model().columns() as usize;
    if work.bounds.lows().len() != columns {
        return false;
    }
    if work.levels.len() != count as usize {
        return false;
    }
    are_below(work.live, count)
}

/// The probe of a work.
pub(super) fn probed(
    rt: &impl Abort,
    alloc: Global,
    problem: &Problem,
    work: &Work,
) -> Result<Probe, Fail> {
    assert!(rt; is_fit(problem, work));
    Ok(probe(alloc, problem, work)?)
}

/// What is decided of a work that is probed.
pub(super) fn settled(
    rt: &impl Abort,
    alloc: Global,
    problem: &Problem,
    work: Work,
    cuts: &[Option<i64>],
) -> Result<Settlement, Fail> {
    assert!(rt; is_fit(problem, &work));
    let made = probe(alloc, problem, &work)?;
    assert!(rt; cuts.len() == problem.count() as usize);
    assert!(rt; are_reached(problem, &made.found, cuts));
    Ok(decide(alloc, problem, work, made, cuts)?)
}

/// The same, where the box is to be split there.
pub(super) fn settled_at(
    rt: &impl Abort,
    alloc: Global,
    problem: &Problem,
    work: Work,
    cuts: &[Option<i64>],
    split: Branch,
) -> Result<Settlement, Fail> {
    assert!(rt; is_fit(problem, &work));
    let mut made = probe(alloc, problem, &work)?;
    made.split = Some(split);
    assert!(rt; cuts.len() == problem.count() as usize);
    assert!(rt; are_reached(problem, &made.found, cuts));
    Ok(decide(alloc, problem, work, made, cuts)?)
}

/// The scenarios that stay.
pub(super) fn stay_of(outcome: &Outcome) -> LiveSet {
    match outcome {
        Outcome::Close => LiveSet::none(),
        Outcome::Split { stay, .. } => *stay,
    }
}

// Nodes that wait, and the work at one of them.
ghost use Rattle.std.specs.Prelude.{◌≡◌, ◌<◌, true, length, All, IsTrue};
ghost use Rattle.std.specs.Arc.{arc_value};
ghost use Rattle.scenario_changes.specs.Problems.{problem as posed};

use crate::reached::{are_reached, value_of};
use bb_core::{Cuts, Outcome, Work};
use certs::{Level, Levels, start_level};
use int_model::{Point, PointBox};
use live_sets::LiveSet;
use node_work::{decide, probe};
use scenario_changes::Problem;
use std::alloc::{AllocError, Global};
use std::sync::Arc;

/// A search: the works that wait, the least value found for each scenario, and how many nodes there are.
#[derive(Drop)]
pub(crate) struct Search {
    pub(crate) waiting: Vec<Work>,
    pub(crate) cuts: Vec<Option<i64>>,
    pub(crate) made: u32,
}

fn level_at(work: &Work, s: u32) -> Level {
    match work.levels.get(s as usize) {
        Some(level) => *level,
        None => Level::Inf,
    }
}

fn cut_at(cuts: &[Option<i64>], s: u32) -> Option<i64> {
    match cuts.get(s as usize) {
        Some(cut) => *cut,
        None => None,
    }
}

// Whether one level is less than another, or the node was made before where they are the same.
fn is_before(first: (Level, u32), second: (Level, u32)) -> bool {
    if first.0.is_at_most(second.0) {
        !second.0.is_at_most(first.0) || first.1 < second.1
    } else {
        false
    }
}

// Whether some live scenario's level is below its cut.
fn is_wanted(work: &Work, cuts: &[Option<i64>]) -> bool {
    for s in work.live.iter() {
        if !level_at(work, s).reaches(cut_at(cuts, s)) {
            return true;
        }
    }
    false
}

// The least level of a live scenario.
fn least_level(work: &Work) -> Level {
    let mut least = Level::Inf;
    for s in work.live.iter() {
        least = least.lesser_level(level_at(work, s));
    }
    least
}

// Whether all live scenarios are below a number.
fn are_below(live: LiveSet, count: u32) -> bool
    ensures { IsTrue result → All (λ s. s < count) live }
{
    live.iter().all(|s| s < count)
}

// Whether a work's box and lists are those of the problem.
fn is_fit(problem: &Problem, work: &Work) -> bool
    ensures columns { result ≡ true → length (arc_value work.now.bounds) ≡ length problem.now.model.columns }
    ensures levels { result ≡ true → length (arc_value work.now.levels) ≡ length (posed problem.now).scenarios }
    ensures live { result ≡ true → All (λ s. s < length (posed problem.now).scenarios) work.now.live }
{
    let count = problem.count();
    let columns = problem.model().columns() as usize;
    if work.bounds.lows().len() != columns || work.levels.len() != count as usize {
        return false;
    }
    are_below(work.live, count)
}

fn share_box(alloc: Global, bounds: PointBox) -> Result<Arc<PointBox>, AllocError> {
    match Arc::new(alloc, bounds) {
        Ok(shared) => Ok(shared),
        Err(_) => Err(AllocError),
    }
}

fn share_levels(alloc: Global, levels: Levels) -> Result<Arc<Levels>, AllocError> {
    match Arc::new(alloc, levels) {
        Ok(shared) => Ok(shared),
        Err(_) => Err(AllocError),
    }
}

// Lowers the cuts to the values of points.
fn lower(problem: &Problem, found: &[(u32, Point)], cuts: &mut [Option<i64>]) {
    for i in 0..found.len() {
        let entry = &found[i];
        let k = entry.0 as usize;
        if k < cuts.len() {
            cuts[k] = lesser(cuts[k], value_of(problem, entry.0, entry.1.as_slice()));
        }
    }
}

// The lesser one of two cuts, where one that isn't there is above every number.
fn lesser(first: Option<i64>, second: Option<i64>) -> Option<i64> {
    match (first, second) {
        (Some(first), Some(second)) => Some(first.min(second)),
        (Some(first), None) => Some(first),
        (None, second) => second,
    }
}

impl Search {
    /// The search at whose root all scenarios are live.
    pub(crate) fn new(alloc: Global, problem: &Problem) -> Result<Search, AllocError> {
        let count = problem.count();
        let mut levels = Vec::new(alloc);
        for s in 0..count {
            levels.push(start_level(problem, s))?;
        }
        let root = Work {
            node: 0,
            bounds: share_box(alloc, problem.root(alloc)?)?,
            live: LiveSet::full(count),
            levels: share_levels(alloc, Levels::from_vec(levels))?,
            hint: None,
            cuts: Cuts::from_vec(Vec::new(alloc)),
        };
        Ok(Search {
            waiting: vec![in alloc; root]?,
            cuts: vec![in alloc; None; count as usize]?,
            made: 1,
        })
    }

    // Takes the wanted node with the least level out of those that wait, the first made one of two.
    fn next(&mut self) -> Option<Work> {
        let mut first = None;
        let mut least = (Level::Inf, u32::MAX);
        for i in 0..self.waiting.len() {
            let work = &self.waiting[i];
            let key = (least_level(work), work.node);
            if is_wanted(work, &self.cuts) && (first.is_none() || is_before(key, least)) {
                first = Some(i);
                least = key;
            }
        }
        match first {
            Some(i) if i < self.waiting.len() => Some(self.waiting.swap_remove(i)),
            _ => None,
        }
    }

    // Adds the children of a node.
    fn add(&mut self, alloc: Global, outcome: Outcome) -> Result<(), AllocError> {
        match outcome {
            Outcome::Close => Ok(()),
            Outcome::Split {
                stay,
                column: _,
                value: _,
                left,
                right,
                left_levels,
                right_levels,
                left_hint,
                right_hint,
            } => {
                let node = self.made;
                self.made = self.made.saturating_add(2);
                self.waiting.push(Work {
                    node,
                    bounds: left,
                    live: stay,
                    levels: left_levels,
                    hint: left_hint,
                    cuts: Cuts::from_vec(Vec::new(alloc)),
                })?;
                self.waiting.push(Work {
                    node: node.saturating_add(1),
                    bounds: right,
                    live: stay,
                    levels: right_levels,
                    hint: right_hint,
                    cuts: Cuts::from_vec(Vec::new(alloc)),
                })?;
                Ok(())
            }
        }
    }

    /// Works at the wanted node with the least level. False where there is none.
    pub(crate) fn step(&mut self, alloc: Global, problem: &Problem) -> Result<bool, AllocError> {
        let Some(work) = self.next() else {
            return Ok(false);
        };
        let mut work = work;
        work.cuts = Cuts::from_vec(self.cuts.to_vec(alloc)?);
        if !is_fit(problem, &work) {
            return Ok(false);
        }
        let probe = probe(alloc, problem, &work)?;
        lower(problem, &probe.found, &mut self.cuts);
        let are_all = self.cuts.len() == problem.count() as usize;
        if !are_all || !are_reached(problem, &probe.found, &self.cuts) {
            return Ok(false);
        }
        let settlement = decide(alloc, problem, work, probe, &self.cuts)?;
        self.add(alloc, settlement.outcome)?;
        Ok(true)
    }

    /// Whether some node waits at which a scenario is live with a level below its cut.
    pub(crate) fn is_open(&self, s: u32) -> bool {
        let cut = self.cut(s);
        for work in &self.waiting {
            if work.live.contains(s) && !level_at(work, s).reaches(cut) {
                return true;
            }
        }
        false
    }

    /// The least value that was found for a scenario.
    pub(crate) fn cut(&self, s: u32) -> Option<i64> {
        cut_at(&self.cuts, s)
    }
}

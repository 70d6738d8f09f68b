// How far the scenarios are that remain at a node, while vectors are made for them.
ghost use Rattle.std.specs.Prelude.{◌≡◌, ◌<◌, length, IfSome, All};
ghost use Rattle.scenario_changes.specs.Problems.{problem as posed};
ghost use Rattle.dual_bounds.specs.Vectors.{RowsBelow};

use crate::remaining::Remaining;
use crate::verdicts::shown_level;
use bb_core::Work;
use certs::Level;
use dual_bounds::{Shares, Vector};
use int_model::Point;
use scenario_changes::Problem;
use std::alloc::{AllocError, Global};

/// Which scenario a vector is made for: one with the least level, or one whose level is the furthest below
/// the value to undercut.
#[derive(Clone, Copy)]
pub(crate) enum Aim {
    LeastLevel,
    GreatestGap,
}

// What is known of a scenario: its level, the value to undercut, and whether a vector was made for it.
#[derive(Clone, Copy)]
struct Standing {
    level: Level,
    cut: Option<i64>,
    remains: bool,
    is_served: bool,
}

impl Standing {
    // The order in which vectors are made: a scenario with a lesser key comes first.
    fn key(&self, aim: Aim) -> (bool, i64) {
        let level = match self.level {
            Level::Value(value) => value,
            Level::Inf => i64::MAX,
        };
        match (aim, self.cut) {
            (Aim::GreatestGap, Some(cut)) => (true, level.saturating_sub(cut)),
            _ => (false, level),
        }
    }

    fn is_open(&self) -> bool {
        self.remains && !self.level.reaches(self.cut)
    }
}

/// For each scenario of a problem how far it is. It serves for choices that no clause sees.
#[derive(Drop)]
pub(crate) struct Standings {
    items: Vec<Standing>,
}

// The level of a scenario at a node.
fn level_at(work: &Work, s: u32) -> Level {
    match work.levels.get(s as usize) {
        Some(level) => *level,
        None => Level::Inf,
    }
}

// The value that is to be undercut, as far as the work's hint tells.
fn cut_at(problem: &Problem, work: &Work, s: u32) -> Option<i64> {
    if work.cuts.len() != problem.count() as usize {
        return None;
    }
    match work.cuts.get(s as usize) {
        Some(cut) => *cut,
        None => None,
    }
}

// The value of a point in a scenario. It stops at the type's ends, which no point of a model reaches.
fn value_of(problem: &Problem, s: u32, x: &[i32]) -> i64
    requires { s < length (posed problem.now).scenarios }
{
    let mut value = problem.constant();
    for (cost, number) in problem.costs(s).iter().zip(x) {
        value = value.saturating_add(cost.saturating_mul(i64::from(*number)));
    }
    value
}

// Whether one key is less than another.
fn is_less(first: (bool, i64), second: (bool, i64)) -> bool {
    if first.0 == second.0 {
        first.1 < second.1
    } else {
        second.0
    }
}

impl Standings {
    /// The standings at a node before any vector is made. A scenario whose box is a single point needs none.
    pub(crate) fn new(
        alloc: Global,
        problem: &Problem,
        work: &Work,
        remaining: &Remaining,
    ) -> Result<Standings, AllocError> {
        let mut items = Vec::new(alloc);
        let mut k = 0;
        for s in 0..problem.count() {
            let mut remains = false;
            if remaining.scenarios.contains(s) && k < remaining.boxes.len() {
                remains = !remaining.boxes[k].is_single();
                k += 1;
            }
            items.push(Standing {
                level: level_at(work, s),
                cut: cut_at(problem, work, s),
                remains,
                is_served: false,
            })?;
        }
        Ok(Standings { items })
    }

    /// Whether a scenario remains, has more than one point, and has a level below the value to undercut.
    pub(crate) fn is_open(&self, s: u32) -> bool {
        match self.items.get(s as usize) {
            Some(standing) => standing.is_open(),
            None => false,
        }
    }

    /// The value to undercut.
    pub(crate) fn cut(&self, s: u32) -> Option<i64> {
        match self.items.get(s as usize) {
            Some(standing) => standing.cut,
            None => None,
        }
    }

    /// Whether a point has a value below the one to undercut.
    pub(crate) fn is_undercut(&self, problem: &Problem, s: u32, x: &[i32]) -> bool
        requires { s < length (posed problem.now).scenarios }
    {
        match self.cut(s) {
            Some(cut) => value_of(problem, s, x) < cut,
            None => true,
        }
    }

    /// The open scenario that comes first of those that no vector was made for.
    pub(crate) fn first(&self, problem: &Problem, aim: Aim) -> Option<u32>
        ensures { IfSome result (λ s. s < length (posed problem.now).scenarios) }
    {
        let mut first = None;
        let mut least = (true, i64::MAX);
        for s in 0..problem.count() {
            let Some(standing) = self.items.get(s as usize) else {
                break;
            };
            let key = standing.key(aim);
            let is_wanted = standing.is_open() && !standing.is_served;
            if is_wanted && (first.is_none() || is_less(key, least)) {
                first = Some(s);
                least = key;
            }
        }
        first
    }

    /// Notes that a vector was made for a scenario.
    pub(crate) fn serve(&mut self, s: u32) {
        if let Some(standing) = self.items.get_mut(s as usize) {
            standing.is_served = true;
        }
    }

    // Lowers the value to undercut of a scenario.
    fn lower(&mut self, s: u32, value: i64) {
        if let Some(standing) = self.items.get_mut(s as usize) {
            let cut = standing.cut.unwrap_or(i64::MAX);
            standing.cut = Some(cut.min(value));
        }
    }

    /// Lowers the values to undercut to those of the points that were found.
    pub(crate) fn lower_by(&mut self, problem: &Problem, found: &[(u32, Point)]) {
        let count = problem.count();
        for i in 0..found.len() {
            let entry = &found[i];
            if entry.0 < count {
                let value = value_of(problem, entry.0, entry.1.as_slice());
                self.lower(entry.0, value);
            }
        }
    }

    // Raises the level of a scenario.
    fn raise(&mut self, s: u32, level: Level) {
        if let Some(standing) = self.items.get_mut(s as usize) {
            standing.level = standing.level.greater_level(level);
        }
    }

    /// Raises the levels of the open scenarios by what a vector shows of them, and tells whether it shows
    /// something of one.
    pub(crate) fn raise_by(
        &mut self,
        problem: &Problem,
        remaining: &Remaining,
        vector: &Vector,
    ) -> bool
        requires columns { All (λ b. length b ≡ length problem.now.model.columns) remaining.now.boxes.items }
        requires rows { RowsBelow (length problem.now.model.rows) vector.now.entries }
    {
        let shares = Shares::of(problem.model(), vector);
        let mut shows = false;
        let mut k = 0;
        for s in 0..problem.count() {
            if remaining.scenarios.contains(s) && k < remaining.boxes.len() {
                if self.is_open(s) {
                    if let Some(level) = shown_level(
                        problem,
                        s,
                        &remaining.boxes[k],
                        vector,
                        &shares,
                    ) {
                        self.raise(s, level);
                        shows = true;
                    }
                }
                k += 1;
            }
        }
        shows
    }
}

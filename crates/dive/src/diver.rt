// The engine of a dive: columns are fixed one after the other, and what a conflict refutes is taken back.
ghost use Rattle.std.specs.Prelude.{◌≡◌, ◌<◌, ◌≤ℤ◌, length, false, IfOk, OnOk};
ghost use Rattle.int_model.specs.Boxes.{interval_at, is_empty};
ghost use Rattle.scenario_changes.specs.Problems as problems;
ghost use Rattle.tighten.specs.Engines.{IsSized, IsLoaded, box_in};
ghost use Rattle.dive.specs.Dives.{IsPart};
ghost use Rattle.dive.specs.Divers.{IsTried, IsTightenedFrom};

use crate::rounding::{beside, nearest};
use int_model::{Model, PointBox};
use scenario_changes::Problem;
use std::alloc::{AllocError, Global};
use tighten::Engine;

/// The engine of bound tightening, with the number of conflicts and after how many of them the dive ends.
#[derive(Drop)]
pub(crate) struct Diver {
    engine: Engine,
    conflicts: u32,
    most: u32,
}

// The most rows that are looked at after one column was fixed.
fn most_rows(model: &Model) -> usize {
    20 * model.rows() as usize + 200
}

impl Diver {
    /// A diver for a model that has had no conflict, and gives up after so many.
    pub(crate) fn new(alloc: Global, model: &Model, most: u32) -> Result<Diver, AllocError>
        ensures { IfOk result (λ d. IsSized model.now d.engine) }
    {
        Ok(Diver {
            engine: Engine::new(alloc, model)?,
            conflicts: 0,
            most,
        })
    }

    /// After how many conflicts the dive ends.
    pub(crate) fn most(&self) -> u32 {
        self.most
    }

    /// Whether there were so many conflicts that the dive ends.
    pub(crate) fn is_at_limit(&self) -> bool {
        self.conflicts >= self.most
    }

    /// Whether there were half as many conflicts.
    pub(crate) fn is_past_half(&self) -> bool {
        self.conflicts >= self.most / 2
    }

    /// The low end of each interval.
    pub(crate) fn lows(&self) -> &[i32]
        ensures { result.now ≡ self.now.engine.low.items }
    {
        self.engine.lows()
    }

    /// The high end of each interval.
    pub(crate) fn highs(&self) -> &[i32]
        ensures { result.now ≡ self.now.engine.high.items }
    {
        self.engine.highs()
    }

    /// Begins at a box again, and tightens it. False where it would become empty.
    pub(crate) fn restart(
        &mut self,
        problem: &Problem,
        s: u32,
        bounds: &PointBox,
    ) -> Result<bool, AllocError>
        requires scenario { s < length (problems.problem problem.now).scenarios }
        requires sized { IsSized problem.now.model self.old.engine }
        requires columns { length bounds.now ≡ length problem.now.model.columns }
        requires occupied { is_empty bounds.now ≡ false }
        ensures loaded { IsLoaded problem.now.model self.new.engine }
        ensures part { OnOk result (IsPart (box_in self.new.engine) bounds.now) }
    {
        let model = problem.model();
        self.engine.load(model, bounds);
        let mark = self.engine.mark();
        self.tighten(problem, s, mark)
    }

    // Tightens the box. On a conflict the changes since a mark are taken back, and false is answered.
    fn tighten(&mut self, problem: &Problem, s: u32, mark: usize) -> Result<bool, AllocError>
        requires scenario { s < length (problems.problem problem.now).scenarios }
        requires loaded { IsLoaded problem.now.model self.old.engine }
        ensures loaded { IsLoaded problem.now.model self.new.engine }
        ensures tightened { IsTightenedFrom mark self.old.engine result self.new.engine }
    {
        let model = problem.model();
        let ends = problem.ends(s);
        if self
            .engine
            .propagate(model, ends, most_rows(model), usize::MAX)?
        {
            return Ok(true);
        }
        self.engine.undo(model, mark);
        self.conflicts = self.conflicts.saturating_add(1);
        Ok(false)
    }

    // The interval of a column.
    fn interval(&self, column: u32) -> (i32, i32)
        requires column { column < length self.now.engine.low.items }
        requires sides { length self.now.engine.low.items ≡ length self.now.engine.high.items }
        requires occupied { is_empty (box_in self.now.engine) ≡ false }
        ensures low { result.0 ≡ (interval_at (box_in self.now.engine) column).low }
        ensures high { result.1 ≡ (interval_at (box_in self.now.engine) column).high }
        ensures order { result.0 ≤ℤ result.1 }
    {
        let place = column as usize;
        (self.engine.lows()[place], self.engine.highs()[place])
    }

    // Gives a column a part of its interval, and tightens the box. False on a conflict.
    fn try_interval(
        &mut self,
        problem: &Problem,
        s: u32,
        column: u32,
        low: i32,
        high: i32,
    ) -> Result<bool, AllocError>
        requires scenario { s < length (problems.problem problem.now).scenarios }
        requires loaded { IsLoaded problem.now.model self.old.engine }
        requires column { column < length problem.now.model.columns }
        requires low { (interval_at (box_in self.old.engine) column).low ≤ℤ low }
        requires high { high ≤ℤ (interval_at (box_in self.old.engine) column).high }
        requires order { low ≤ℤ high }
        ensures loaded { IsLoaded problem.now.model self.new.engine }
        ensures tightened { IsTried (box_in self.old.engine) result (box_in self.new.engine) }
    {
        let model = problem.model();
        let mark = self.engine.mark();
        self.engine.set(model, column, low, high)?;
        self.tighten(problem, s, mark)
    }

    /// Gives a column one number near the target: the nearest one, the next one on the target's side, or
    /// the last one on that side. False where each is in conflict with the rows.
    pub(crate) fn fix(
        &mut self,
        problem: &Problem,
        s: u32,
        column: u32,
        target: i64,
    ) -> Result<bool, AllocError>
        requires scenario { s < length (problems.problem problem.now).scenarios }
        requires loaded { IsLoaded problem.now.model self.old.engine }
        requires column { column < length problem.now.model.columns }
        ensures loaded { IsLoaded problem.now.model self.new.engine }
        ensures part { OnOk result (IsPart (box_in self.new.engine) (box_in self.old.engine)) }
    {
        let (low, high) = self.interval(column);
        if low == high {
            return Ok(true);
        }
        let number = nearest(target, low, high);
        if self.try_interval(problem, s, column, number, number)? {
            return Ok(true);
        }
        if self.is_at_limit() {
            return Ok(false);
        }
        let (next, end) = beside(target, number, low, high);
        if self.try_interval(problem, s, column, next, next)? {
            return Ok(true);
        }
        if next == end {
            return Ok(false);
        }
        self.fix_towards(problem, s, column, next, end)
    }

    // Gives a column the numbers from one to an end of its interval, and then the last of these that is
    // left.
    fn fix_towards(
        &mut self,
        problem: &Problem,
        s: u32,
        column: u32,
        next: i32,
        end: i32,
    ) -> Result<bool, AllocError>
        requires scenario { s < length (problems.problem problem.now).scenarios }
        requires loaded { IsLoaded problem.now.model self.old.engine }
        requires column { column < length problem.now.model.columns }
        requires next_low { (interval_at (box_in self.old.engine) column).low ≤ℤ next }
        requires next_high { next ≤ℤ (interval_at (box_in self.old.engine) column).high }
        requires end_low { (interval_at (box_in self.old.engine) column).low ≤ℤ end }
        requires end_high { end ≤ℤ (interval_at (box_in self.old.engine) column).high }
        ensures loaded { IsLoaded problem.now.model self.new.engine }
        ensures part { OnOk result (IsPart (box_in self.new.engine) (box_in self.old.engine)) }
    {
        if !self.try_interval(problem, s, column, next.min(end), next.max(end))? {
            return Ok(false);
        }
        let (low, high) = self.interval(column);
        let last = end.clamp(low, high);
        self.try_interval(problem, s, column, last, last)
    }
}

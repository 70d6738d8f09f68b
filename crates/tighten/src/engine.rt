// The engine of bound tightening: a box whose rows' sums are kept while its intervals change.
ghost use Rattle.std.specs.Prelude.{◌≡◌, ◌<◌, ◌≤◌, ◌-ℤ◌, ◌*ℤ◌, ◌≤ℤ◌, pos, unsigned_abs, [], ◌++◌, ◌∷◌, drop, take, length, slice_index_or, slice_set, IfOk, OnOk, false, vec_capacity};
ghost use Rattle.int_model.specs.Boxes.{interval_at, is_empty};
ghost use Rattle.int_model.specs.ByColumn.{column_terms};
ghost use Rattle.int_model.specs.Limits.{IsBound, IsEntry};
ghost use Rattle.int_model.specs.RowSums as row_sums;
ghost use Rattle.tighten.specs.Cuts.{IsCut, IsSlack, interval, no_ends};
ghost use Rattle.tighten.specs.Queues.{AllWait, IsIdle, StillWait};
ghost use Rattle.tighten.specs.Replay.{left_of};
ghost use Rattle.tighten.specs.Steps.{AreEnds, IsStep, rows_of};
ghost use Rattle.tighten.specs.Engines.{IsSized, IsLoaded, IsSet, IsTightened, IsKept, IsStill, IsFresh, IsAtRest, Leaves, ColumnStays, RowStays, Follows, box_in, restored};
ghost use Rattle.tighten.specs.declared.engine.Engine.{Engine};

use crate::narrowing::Narrowing;
use crate::row_queue::RowQueue;
use crate::slack::{above, allows, below, slack, spread, width};
use crate::{RowEnd, Step, sums};
use int_model::{Ends, Model, PointBox};
use std::alloc::{AllocError, Global};

/// The most steps of a list.
pub const MOST_STEPS: usize = 128;

// The interval of a column before a change.
#[derive(Clone, Copy, Debug, PartialEq, Eq)]
struct Change {
    column: u32,
    low: i32,
    high: i32,
}

/// A box with the least and the greatest sum of each row over it, and a queue of the rows that have to
/// be looked at. One model goes with it in each call, that of `new`.
#[derive(Drop)]
pub struct Engine {
    low: Vec<i32>,
    high: Vec<i32>,
    least: Vec<i64>,
    most: Vec<i64>,
    // No term of the row has a wider spread.
    spread: Vec<u64>,
    queue: RowQueue,
    trail: Vec<Change>,
    steps: Vec<Step>,
}

impl Engine {
    /// An engine for a model's columns and rows, which takes its box by `load`.
    pub fn new(alloc: Global, model: &Model) -> Result<Engine, AllocError>
        ensures sized { IfOk result (λ e. IsSized model.now e) }
        ensures steps { IfOk result (λ e. e.steps.items ≡ []) }
        ensures trail { IfOk result (λ e. e.trail.items ≡ []) }
    {
        let columns = model.columns() as usize;
        let rows = model.rows() as usize;
        Ok(Engine {
            low: vec![in alloc; 0; columns]?,
            high: vec![in alloc; 0; columns]?,
            least: vec![in alloc; 0; rows]?,
            most: vec![in alloc; 0; rows]?,
            spread: vec![in alloc; 0; rows]?,
            queue: RowQueue::new(alloc, rows)?,
            trail: Vec::new(alloc),
            steps: Vec::with_capacity(alloc, MOST_STEPS)?,
        })
    }

    /// Takes a box that isn't empty, forgets every change and step, and queues all rows. It takes no memory.
    pub fn load(&mut self, model: &Model, bounds: &PointBox)
        requires sized { IsSized model.now self.old }
        requires columns { length bounds.now ≡ length model.now.columns }
        requires occupied { is_empty bounds.now ≡ false }
        ensures loaded { IsLoaded model.now self.new }
        ensures bounds { box_in self.new ≡ bounds.now }
        ensures trail { self.new.trail.items ≡ [] }
        ensures steps { self.new.steps.items ≡ [] }
        ensures fresh { IsFresh model.now self.new }
    {
        let _columns = model.columns();
        self.low.copy_from_slice(bounds.lows());
        self.high.copy_from_slice(bounds.highs());
        sums::take(
            model,
            bounds,
            &mut self.least,
            &mut self.most,
            &mut self.spread,
        );
        self.queue.fill();
        self.trail.clear();
        self.steps.clear();
    }

    /// The low end of each interval.
    pub fn lows(&self) -> &[i32]
        ensures { result.now ≡ self.now.low.items }
    {
        &self.low
    }

    /// The high end of each interval.
    pub fn highs(&self) -> &[i32]
        ensures { result.now ≡ self.now.high.items }
    {
        &self.high
    }

    /// The steps that narrowed intervals since the box was taken, the first 128 of them.
    pub fn steps(&self) -> &[Step]
        ensures { result.now ≡ self.now.steps.items }
    {
        &self.steps
    }

    /// How many changes stand since the box was taken.
    pub fn mark(&self) -> usize
        ensures { result ≡ length self.now.trail.items }
    {
        self.trail.len()
    }

    /// Gives a column another interval, which `undo` takes back, and queues the column's rows. On want of
    /// memory the box stays.
    pub fn set(&mut self, model: &Model, column: u32, low: i32, high: i32) -> Result<(), AllocError>
        requires loaded { IsLoaded model.now self.old }
        requires column { column < length model.now.columns }
        requires low { IsBound low }
        requires high { IsBound high }
        requires occupied { low ≤ℤ high }
        ensures loaded { IsLoaded model.now self.new }
        ensures set { IsSet column low high self.old result self.new }
        ensures queued { OnOk result (AllWait (column_terms column 0 (rows_of model.now)) self.new.queue) }
        ensures kept { StillWait self.old.queue self.new.queue }
    {
        let _columns = model.columns();
        self.queue.add_rows(model.column_terms(column))?;
        let place = column as usize;
        let before = Change {
            column,
            low: self.low[place],
            high: self.high[place],
        };
        self.trail.push(before)?;
        self.move_column(model, column, low, high);
        Ok(())
    }

    // Gives a column another interval, and its rows their new sums.
    fn move_column(&mut self, model: &Model, column: u32, low: i32, high: i32)
        requires loaded { IsLoaded model.now self.old }
        requires column { column < length model.now.columns }
        requires low { IsBound low }
        requires high { IsBound high }
        requires occupied { low ≤ℤ high }
        ensures loaded { IsLoaded model.now self.new }
        ensures bounds { box_in self.new ≡ slice_set (box_in self.old) column (interval low high) }
        ensures queue { self.new.queue ≡ self.old.queue }
        ensures trail { self.new.trail ≡ self.old.trail }
        ensures steps { self.new.steps ≡ self.old.steps }
    {
        let _columns = model.columns();
        let place = column as usize;
        let low_change = i64::from(low) - i64::from(self.low[place]);
        let high_change = i64::from(high) - i64::from(self.high[place]);
        let terms = model.column_terms(column);
        sums::shift(
            &mut self.least,
            &mut self.most,
            terms,
            low_change,
            high_change,
        );
        sums::widen(&mut self.spread, terms, width(low, high));
        self.low[place] = low;
        self.high[place] = high;
    }

    /// Takes back the changes since a mark, the last one first, and lets no row wait. So a mark is to be
    /// taken where no row waits, as after `propagate` came to an end by itself. It takes no memory.
    pub fn undo(&mut self, model: &Model, mark: usize)
        requires { IsLoaded model.now self.old }
        ensures loaded { IsLoaded model.now self.new }
        ensures bounds { box_in self.new ≡ restored (drop mark self.old.trail.items) (box_in self.old) }
        ensures trail { self.new.trail.items ≡ take mark self.old.trail.items }
        ensures steps { self.new.steps.items ≡ self.old.steps.items }
        ensures idle { IsIdle self.new.queue }
        ensures back { (before : Engine) → length before.trail.items ≡ mark → Follows before self.old → box_in self.new ≡ box_in before }
    {
        'changes: while self.trail.len() > mark {
            let Some(change) = self.trail.pop() else {
                break;
            };
            self.move_column(model, change.column, change.low, change.high);
        }
        self.queue.clear();
    }

    /// Narrows intervals until no row narrows one any more, so many rows were looked at, or so many
    /// changes stand. False where an interval would become empty: the step that empties it is the last
    /// then.
    pub fn propagate(
        &mut self,
        model: &Model,
        ends: &[Ends],
        rows: usize,
        changes: usize,
    ) -> Result<bool, AllocError>
        requires loaded { IsLoaded model.now self.old }
        requires ends { AreEnds model.now ends.now }
        ensures loaded { IsLoaded model.now self.new }
        ensures steps { IsTightened model.now ends.now self.old result self.new }
        ensures rest { IsFresh model.now self.old → length model.now.rows ≤ rows → length self.old.trail.items < changes → IsAtRest model.now ends.now self.old result self.new }
    {
        'rows: for _ in 0..rows {
            let Some(row) = self.queue.take() else {
                return Ok(true);
            };
            if !self.narrow_by_row(model, ends, row, changes)? {
                return Ok(false);
            }
        }
        Ok(true)
    }

    // Narrows the intervals of a row's columns, until so many changes stand. False where one would
    // become empty.
    fn narrow_by_row(
        &mut self,
        model: &Model,
        ends: &[Ends],
        row: u32,
        changes: usize,
    ) -> Result<bool, AllocError>
        requires loaded { IsLoaded model.now self.old }
        requires ends { AreEnds model.now ends.now }
        requires row { row < length model.now.rows }
        ensures loaded { IsLoaded model.now self.new }
        ensures steps { IsTightened model.now ends.now self.old result self.new }
        ensures still { length self.old.trail.items < changes → IsStill (RowStays (rows_of model.now) ends.now row (box_in self.old)) self.old result self.new }
    {
        let _columns = model.columns();
        let mut slack = self.slack_of(model, ends, row);
        if self.reach_of(model, row) <= slack {
            return Ok(true);
        }
        if allows(slack, self.spread[row as usize]) {
            return Ok(true);
        }
        let line = model.row(row);
        let terms = line.terms.as_slice();
        for &(column, coefficient) in terms {
            if self.spread_of(model, column, coefficient) <= slack {
                continue;
            }
            if self.trail.len() >= changes {
                return Ok(true);
            }
            if !self.narrow_column(model, ends, row, column, coefficient)? {
                return Ok(false);
            }
            slack = self.slack_of(model, ends, row);
        }
        Ok(true)
    }

    // A slack that neither end of a row exceeds.
    fn slack_of(&self, model: &Model, ends: &[Ends], row: u32) -> i64
        requires loaded { IsLoaded model.now self.now }
        requires ends { AreEnds model.now ends.now }
        requires row { row < length model.now.rows }
        ensures { IsSlack (slice_index_or ends.now row no_ends) (row_sums.least_sum (slice_index_or (rows_of model.now) row []) (box_in self.now)) (row_sums.greatest_sum (slice_index_or (rows_of model.now) row []) (box_in self.now)) result }
    {
        let _columns = model.columns();
        let place = row as usize;
        slack(ends[place], self.least[place], self.most[place])
    }

    // How far the least and the greatest sum of a row lie apart.
    fn reach_of(&self, model: &Model, row: u32) -> i64
        requires loaded { IsLoaded model.now self.now }
        requires row { row < length model.now.rows }
        ensures { result ≡ row_sums.greatest_sum (slice_index_or (rows_of model.now) row []) (box_in self.now) -ℤ row_sums.least_sum (slice_index_or (rows_of model.now) row []) (box_in self.now) }
    {
        let _columns = model.columns();
        let place = row as usize;
        self.most[place] - self.least[place]
    }

    // How far the least and the greatest product of a column with this coefficient lie apart.
    fn spread_of(&self, model: &Model, column: u32, coefficient: i64) -> i64
        requires loaded { IsLoaded model.now self.now }
        requires column { column < length model.now.columns }
        requires coefficient { IsEntry coefficient }
        ensures { result ≡ pos (unsigned_abs coefficient) *ℤ ((interval_at (box_in self.now) column).high -ℤ (interval_at (box_in self.now) column).low) }
    {
        let _columns = model.columns();
        let place = column as usize;
        spread(coefficient, self.low[place], self.high[place])
    }

    // Narrows the interval of one column of a row by both of its ends. False where it would become empty.
    fn narrow_column(
        &mut self,
        model: &Model,
        ends: &[Ends],
        row: u32,
        column: u32,
        coefficient: i64,
    ) -> Result<bool, AllocError>
        requires loaded { IsLoaded model.now self.old }
        requires ends { AreEnds model.now ends.now }
        requires row { row < length model.now.rows }
        requires column { column < length model.now.columns }
        requires coefficient { coefficient ≡ row_sums.coefficient column (slice_index_or (rows_of model.now) row []) }
        ensures loaded { IsLoaded model.now self.new }
        ensures steps { IsTightened model.now ends.now self.old result self.new }
        ensures still { IsStill (ColumnStays (rows_of model.now) ends.now row column (box_in self.old)) self.old result self.new }
    {
        let upper = Step {
            row,
            column,
            side: RowEnd::Upper,
        };
        if !self.narrow_by(model, ends, upper, coefficient)? {
            return Ok(false);
        }
        let lower = Step {
            row,
            column,
            side: RowEnd::Lower,
        };
        self.narrow_by(model, ends, lower, coefficient)
    }

    // Narrows the interval of a step's column, and keeps the step where it narrows. False where the
    // interval would become empty.
    fn narrow_by(
        &mut self,
        model: &Model,
        ends: &[Ends],
        step: Step,
        coefficient: i64,
    ) -> Result<bool, AllocError>
        requires loaded { IsLoaded model.now self.old }
        requires ends { AreEnds model.now ends.now }
        requires step { IsStep model.now step }
        requires coefficient { coefficient ≡ row_sums.coefficient step.column (slice_index_or (rows_of model.now) step.row []) }
        ensures loaded { IsLoaded model.now self.new }
        ensures steps { IsTightened model.now ends.now self.old result self.new }
        ensures still { IsStill (Leaves (rows_of model.now) ends.now step (box_in self.old)) self.old result self.new }
    {
        match self.left_by(model, ends, step, coefficient) {
            Narrowing::Same => Ok(true),
            Narrowing::Less(low, high) => {
                self.set(model, step.column, low, high)?;
                self.keep(step);
                Ok(true)
            }
            Narrowing::Empty => {
                self.keep(step);
                Ok(false)
            }
        }
    }

    // What a step leaves of the interval of its column, by the sums of its row.
    fn left_by(&self, model: &Model, ends: &[Ends], step: Step, coefficient: i64) -> Narrowing
        requires loaded { IsLoaded model.now self.now }
        requires ends { AreEnds model.now ends.now }
        requires step { IsStep model.now step }
        requires coefficient { coefficient ≡ row_sums.coefficient step.column (slice_index_or (rows_of model.now) step.row []) }
        ensures { IsCut (left_of (rows_of model.now) ends.now step (box_in self.now)) (interval_at (box_in self.now) step.column) result }
    {
        let _columns = model.columns();
        let (row, place) = (step.row as usize, step.column as usize);
        let (low, high) = (self.low[place], self.high[place]);
        let ends = ends[row];
        match step.side {
            RowEnd::Upper => below(ends.upper, self.least[row], coefficient, low, high),
            RowEnd::Lower => above(ends.lower, self.most[row], coefficient, low, high),
        }
    }

    // Keeps a step, if it is one of the first.
    fn keep(&mut self, step: Step)
        requires few { length self.old.steps.items ≤ 128 }
        requires room { 128 ≤ vec_capacity self.old.steps }
        ensures { IsKept step self.old self.new }
    {
        if self.steps.len() < MOST_STEPS {
            self.steps.push_reserved(step);
        }
    }
}

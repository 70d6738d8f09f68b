// A point with its row sums, and moves of single columns.
ghost use Rattle.std.specs.Prelude.{◌≡◌, ◌<◌, ◌≤◌, ◌≤ℤ◌, length, false, IfOk, IfSome};
ghost use Rattle.int_model.specs.Boxes.{is_empty};
ghost use Rattle.scenario_changes.specs.Problems as problems;
ghost use Rattle.dive.specs.Moves.{AreMoves};

use int_model::{Ends, Model, PointBox};
use scenario_changes::Problem;
use std::alloc::{AllocError, Global};

/// A point of a box with the sum of each row. The sums are only as good as needed to judge moves: what
/// comes of the moves is checked afterwards.
#[derive(Drop)]
pub(crate) struct Moves {
    pub(crate) point: Vec<i32>,
    pub(crate) sums: Vec<i64>,
}

// Whether a sum lies between the ends of a row.
fn is_between(ends: Ends, sum: i64) -> bool {
    if let Some(lower) = ends.lower
        && sum < lower
    {
        return false;
    }
    if let Some(upper) = ends.upper
        && upper < sum
    {
        return false;
    }
    true
}

// How often a sum may change by so much until it passes its row's end.
fn steps_to_end(ends: Ends, sum: i64, change: i64) -> u64 {
    let slack = if change > 0 {
        ends.upper
            .map_or(i64::MAX, |upper| upper.saturating_sub(sum))
    } else {
        ends.lower
            .map_or(i64::MAX, |lower| sum.saturating_sub(lower))
    };
    slack.max(0) as u64 / change.unsigned_abs().max(1)
}

// The interval of a column of a box that isn't empty.
fn interval(bounds: &PointBox, column: u32) -> (i32, i32)
    requires column { column < length bounds.now }
    requires occupied { is_empty bounds.now ≡ false }
    ensures { result.0 ≤ℤ result.1 }
{
    let place = column as usize;
    (bounds.lows()[place], bounds.highs()[place])
}

impl Moves {
    /// A point, and the sums of the rows at it.
    pub(crate) fn new(alloc: Global, model: &Model, x: &[i32]) -> Result<Moves, AllocError>
        requires { length x.now ≡ length model.now.columns }
        ensures { IfOk result (AreMoves model.now) }
    {
        let mut sums = Vec::with_capacity(alloc, model.rows() as usize)?;
        for i in 0..model.rows() {
            let mut sum: i64 = 0;
            for &(column, coefficient) in model.row(i).terms.as_slice() {
                let number = i64::from(x[column as usize]);
                sum = sum.saturating_add(coefficient.saturating_mul(number));
            }
            sums.push(sum)?;
        }
        Ok(Moves {
            point: x.to_vec(alloc)?,
            sums,
        })
    }

    /// Moves a column by so much, or as far as its interval allows.
    pub(crate) fn shift(&mut self, model: &Model, bounds: &PointBox, column: u32, by: i64)
        requires moves { AreMoves model.now self.old }
        requires columns { length bounds.now ≡ length model.now.columns }
        requires occupied { is_empty bounds.now ≡ false }
        requires column { column < length model.now.columns }
        ensures { AreMoves model.now self.new }
    {
        let place = column as usize;
        let (low, high) = interval(bounds, column);
        let before = i64::from(self.point[place]);
        let after = before
            .saturating_add(by)
            .clamp(i64::from(low), i64::from(high));
        self.point[place] = after as i32;
        let change = after.saturating_sub(before);
        for &(row, coefficient) in model.column_terms(column) {
            let row = row as usize;
            self.sums[row] = self.sums[row].saturating_add(coefficient.saturating_mul(change));
        }
    }

    /// Whether a column can move by one in a direction, 1 or -1, within its interval.
    pub(crate) fn has_room(&self, bounds: &PointBox, column: u32, direction: i64) -> bool
        requires bounds { column < length bounds.now }
        requires point { column < length self.now.point.items }
    {
        let place = column as usize;
        if direction > 0 {
            self.point[place] < bounds.highs()[place]
        } else {
            self.point[place] > bounds.lows()[place]
        }
    }

    /// How far a column can move in a direction until a row's sum would pass its end, at most so far.
    pub(crate) fn reach(
        &self,
        problem: &Problem,
        s: u32,
        column: u32,
        direction: i64,
        most: u64,
    ) -> u64
        requires scenario { s < length (problems.problem problem.now).scenarios }
        requires moves { AreMoves problem.now.model self.now }
        requires column { column < length problem.now.model.columns }
        ensures { result ≤ most }
    {
        let model = problem.model();
        let ends = problem.ends(s);
        let mut reach = most;
        for &(row, coefficient) in model.column_terms(column) {
            let row = row as usize;
            let change = coefficient.saturating_mul(direction);
            reach = reach.min(steps_to_end(ends[row], self.sums[row], change));
            if reach == 0 {
                break;
            }
        }
        reach
    }

    /// The first row of a column whose sum isn't between its ends.
    pub(crate) fn broken_row(&self, problem: &Problem, s: u32, column: u32) -> Option<u32>
        requires scenario { s < length (problems.problem problem.now).scenarios }
        requires moves { AreMoves problem.now.model self.now }
        requires column { column < length problem.now.model.columns }
        ensures { IfSome result (λ row. row < length problem.now.model.rows) }
    {
        let model = problem.model();
        let ends = problem.ends(s);
        for &(row, _) in model.column_terms(column) {
            if !is_between(ends[row as usize], self.sums[row as usize]) {
                return Some(row);
            }
        }
        None
    }

    /// How many rows of a column there are whose sums aren't between their ends.
    pub(crate) fn broken_count(&self, problem: &Problem, s: u32, column: u32) -> u32
        requires scenario { s < length (problems.problem problem.now).scenarios }
        requires moves { AreMoves problem.now.model self.now }
        requires column { column < length problem.now.model.columns }
    {
        let model = problem.model();
        let ends = problem.ends(s);
        let mut count: u32 = 0;
        for &(row, _) in model.column_terms(column) {
            if !is_between(ends[row as usize], self.sums[row as usize]) {
                count = count.saturating_add(1);
            }
        }
        count
    }

    /// Whether a move of a column by one in a direction leaves each of its rows between its ends, so many
    /// rows among them that aren't so now.
    pub(crate) fn repairs(
        &self,
        problem: &Problem,
        s: u32,
        column: u32,
        direction: i64,
        broken: u32,
    ) -> bool
        requires scenario { s < length (problems.problem problem.now).scenarios }
        requires moves { AreMoves problem.now.model self.now }
        requires column { column < length problem.now.model.columns }
    {
        let model = problem.model();
        let ends = problem.ends(s);
        let mut left = broken;
        for &(row, coefficient) in model.column_terms(column) {
            let sum = self.sums[row as usize];
            let ends = ends[row as usize];
            if !is_between(
                ends,
                sum.saturating_add(coefficient.saturating_mul(direction)),
            ) {
                return false;
            }
            if !is_between(ends, sum) {
                left = left.saturating_sub(1);
            }
        }
        left == 0
    }
}

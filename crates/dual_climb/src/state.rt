// The state of a climb: a point of the free columns, and for each row its activity and multiplier.
ghost use Rattle.std.specs.Prelude.{◌≡◌, ◌<◌, length, All, IfOk};
ghost use Rattle.dual_climb.specs.Climbs.{IsBelow};

use crate::pass::move_columns;
use crate::penalties::{
    PenaltyRange, adapted, base_ratio, first_penalty, penalty_bits, penalty_ranges, used_rows,
};
use crate::points::MOST_BITS;
use crate::relaxation::{Relaxation, Term};
use crate::row::Row;
use crate::sums::RowSums;
use int_model::Ends;
use std::alloc::{AllocError, Global};
use std::marker;

/// The point has so many bits after the point, and the penalties are multiplied by a power of 2.
#[derive(Clone, Copy)]
pub(crate) struct Precision {
    pub fraction: u32,
    pub penalty: u32,
}

impl Precision {
    /// By how many bits a penalty times a violation exceeds a multiplier: 30 at most.
    pub fn shift(&self) -> u32 {
        self.fraction.wrapping_add(self.penalty)
    }
}

/// Where a state begins: the multipliers, and a point with 14 bits after the point.
#[derive(Clone, Copy)]
pub(crate) struct Start<'a> {
    pub scale: u32,
    pub fraction: u32,
    /// No multiplier exceeds this in absolute value.
    pub limit: i64,
    /// The first penalties are divided by this.
    pub divisor: i64,
    pub multipliers: &'a [i64],
    pub point: &'a [i64],
}

/// A point of the free columns in fixed point, and the state of the rows. Multipliers and penalties stand
/// apart from the rest of the rows, since they are what a column's gradient is made from.
#[derive(Drop)]
pub(crate) struct State {
    precision: Precision,
    point: Vec<i64>,
    rows: Vec<Row>,
    multipliers: Vec<i64>,
    penalties: Vec<i64>,
    ranges: Vec<PenaltyRange>,
    // Whether a column stayed where it was when it was looked at last.
    rests: Vec<bool>,
}

impl marker::Model for State {
    ghost use Rattle.std.specs.Prelude.{length};
    ghost use Rattle.dual_climb.specs.Climbs.{Size};
    ghost use Rattle.dual_climb.specs.States.{IsState};

    ghost Value = { Size };

    ghost view = { λ s. record { rows = length s.rows.items; columns = length s.point.items } };

    ghost invariant = { λ s. IsState s.rows.items s.multipliers.items s.penalties.items s.ranges.items s.point.items s.rests.items };
}

impl State {
    /// The state at a point, which has 14 bits after the point, and at multipliers.
    pub fn new(
        alloc: Global,
        relaxation: &Relaxation,
        sums: &[RowSums],
        start: Start,
    ) -> Result<State, AllocError>
        requires sums { length sums.now ≡ relaxation.now.rows }
        requires point { length start.point.now ≡ relaxation.now.columns }
        requires multipliers { length start.multipliers.now ≡ relaxation.now.rows }
        ensures { IfOk result (λ s. s ≡ relaxation.now) }
    {
        let ratio = base_ratio(relaxation, start.scale, used_rows(sums), start.divisor);
        let precision = Precision {
            fraction: start.fraction,
            penalty: penalty_bits(sums, ratio),
        };
        let ranges = penalty_ranges(alloc, sums, ratio, precision.penalty)?;
        let mut rows = rows_at(alloc, relaxation, sums, start.fraction, start.limit)?;
        let point = shortened(alloc, start.point, start.fraction)?;
        add_activities(relaxation, &point, &mut rows);
        let mut state = State {
            precision,
            point,
            rows,
            multipliers: start.multipliers.to_vec(alloc)?,
            penalties: first_penalties(alloc, &ranges)?,
            ranges,
            rests: vec![in alloc; false; relaxation.count()]?,
        };
        state.restart(start.multipliers);
        Ok(state)
    }

    /// The point, with as many bits after the point as the precision says.
    pub fn point(&self) -> &[i64]
        ensures { length result.now ≡ self.now.columns }
    {
        &self.point
    }

    /// How many bits the point has after the point.
    pub fn fraction(&self) -> u32 {
        self.precision.fraction
    }

    /// The multiplier of each row.
    pub fn multipliers(&self) -> &[i64]
        ensures { length result.now ≡ self.now.rows }
    {
        &self.multipliers
    }

    /// The row's state.
    pub fn row(&self, i: usize) -> Row
        requires { i < self.now.rows }
    {
        self.rows[i]
    }

    /// Moves each free column once, or where the pass isn't a whole one each that doesn't rest. Whether one
    /// moved.
    pub fn pass(&mut self, relaxation: &Relaxation, is_whole: bool) -> bool
        requires { self.old ≡ relaxation.now }
        ensures { self.new ≡ self.old }
    {
        move_columns(
            relaxation,
            &mut self.point,
            &mut self.rows,
            &mut self.multipliers,
            &self.penalties,
            self.precision,
            &mut self.rests,
            is_whole,
        )
    }

    /// Takes these multipliers as the centres.
    pub fn restart(&mut self, multipliers: &[i64])
        requires { length multipliers.now ≡ self.old.rows }
        ensures { self.new ≡ self.old }
    {
        for i in 0..self.rows.len() {
            self.rows[i].center = multipliers[i];
            self.multipliers[i] = self.rows[i].multiplier(
                self.penalties[i],
                self.precision.shift(),
            );
        }
    }

    /// Ends a round: penalties are adapted and multipliers become centres. Whether no multiplier differed
    /// from its centre.
    pub fn adapt(&mut self) -> bool
        ensures { self.new ≡ self.old }
    {
        adapt_rows(
            &mut self.rows,
            &mut self.multipliers,
            &mut self.penalties,
            &mut self.ranges,
            self.precision.shift(),
        )
    }
}

// The state of each row at activity 0.
fn rows_at(
    alloc: Global,
    relaxation: &Relaxation,
    sums: &[RowSums],
    fraction: u32,
    limit: i64,
) -> Result<Vec<Row>, AllocError>
    requires { length sums.now ≡ relaxation.now.rows }
    ensures { IfOk result (λ rows. length rows.items ≡ relaxation.now.rows) }
{
    let mut rows = Vec::with_capacity(alloc, relaxation.rows())?;
    for i in 0..relaxation.rows() {
        rows.push(row_at(relaxation.ends(i), sums[i], fraction, limit))?;
    }
    Ok(rows)
}

// The state of a row at activity 0. An end that no sum reaches, or that the row hasn't got, is moved to
// where it just isn't reached, so that it fits its type in fixed point.
fn row_at(ends: Ends, sums: RowSums, fraction: u32, limit: i64) -> Row {
    let below = sums.least.wrapping_sub(1);
    let above = sums.most.wrapping_add(1);
    let lower = ends.lower.unwrap_or(below).max(below).min(above);
    let upper = ends.upper.unwrap_or(above).max(below).min(above);
    Row {
        lower: lower.wrapping_shl(fraction),
        upper: upper.wrapping_shl(fraction),
        least: if ends.upper.is_some() {
            limit.wrapping_neg()
        } else {
            0
        },
        greatest: if ends.lower.is_some() { limit } else { 0 },
        activity: 0,
        center: 0,
    }
}

// Numbers with 14 bits after the point, brought to fewer.
fn shortened(alloc: Global, point: &[i64], fraction: u32) -> Result<Vec<i64>, AllocError>
    ensures { IfOk result (λ numbers. length numbers.items ≡ length point.now) }
{
    let mut numbers = Vec::with_capacity(alloc, point.len())?;
    for &number in point {
        numbers.push(number.wrapping_shr(MOST_BITS.wrapping_sub(fraction)))?;
    }
    Ok(numbers)
}

// Adds the activities at a point.
fn add_activities(relaxation: &Relaxation, point: &[i64], rows: &mut [Row])
    requires point { length point.now ≡ relaxation.now.columns }
    requires rows { length rows.old ≡ relaxation.now.rows }
    ensures { length rows.new ≡ length rows.old }
{
    for t in 0..relaxation.count() {
        add_column(rows, relaxation.terms(t), point[t]);
    }
}

// Adds a column's part to the activities.
fn add_column(rows: &mut [Row], terms: &[Term], number: i64)
    requires { All (IsBelow (length rows.old)) terms.now }
    ensures { length rows.new ≡ length rows.old }
{
    for &term in terms {
        let i = term.row as usize;
        let part = i64::from(term.coefficient).wrapping_mul(number);
        rows[i].activity = rows[i].activity.wrapping_add(part);
    }
}

fn first_penalties(alloc: Global, ranges: &[PenaltyRange]) -> Result<Vec<i64>, AllocError>
    ensures { IfOk result (λ penalties. length penalties.items ≡ length ranges.now) }
{
    let mut penalties = Vec::with_capacity(alloc, ranges.len())?;
    for &range in ranges {
        penalties.push(first_penalty(range))?;
    }
    Ok(penalties)
}

// Ends a round of the rows.
#[inline(never)]
fn adapt_rows(
    rows: &mut [Row],
    multipliers: &mut [i64],
    penalties: &mut [i64],
    ranges: &mut [PenaltyRange],
    shift: u32,
) -> bool
    requires multipliers { length multipliers.old ≡ length rows.old }
    requires penalties { length penalties.old ≡ length rows.old }
    requires ranges { length ranges.old ≡ length rows.old }
    ensures rows { length rows.new ≡ length rows.old }
    ensures multipliers { length multipliers.new ≡ length multipliers.old }
    ensures penalties { length penalties.new ≡ length penalties.old }
    ensures ranges { length ranges.new ≡ length ranges.old }
{
    let mut same = true;
    for i in 0..rows.len() {
        let multiplier = multipliers[i];
        let direction = multiplier.wrapping_sub(rows[i].center).signum();
        if direction != 0 {
            same = false;
            penalties[i] = adapted(penalties[i], direction, ranges[i]);
            ranges[i].direction = direction;
            rows[i].center = multiplier;
            multipliers[i] = rows[i].multiplier(penalties[i], shift);
        }
    }
    same
}

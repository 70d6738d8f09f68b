// What a climb works on: the free columns of a box, whose terms lie side by side, and the ends of the rows.
ghost use Rattle.std.specs.Prelude.{◌≡◌, ◌<◌, ◌≤◌, ℕ, length, All, IfOk, OnOk};
ghost use Rattle.dual_climb.specs.Climbs.{IsBelow, IsSpan};
ghost use Rattle.dual_climb.specs.Terms.{IsTerm};

use int_model::{Ends, Model};
use std::alloc::{AllocError, Global};
use std::marker;

/// A row and its coefficient.
#[derive(Clone, Copy)]
pub(crate) struct Term {
    pub row: u32,
    pub coefficient: i32,
}

/// A column whose interval holds more than one number. The cost is multiplied by the scale.
#[derive(Clone, Copy)]
pub(crate) struct FreeColumn {
    pub number: u32,
    pub low: i32,
    pub high: i32,
    pub cost: i64,
    /// Its terms lie from here up to the end.
    pub start: usize,
    pub end: usize,
}

/// The free columns of a box, and the ends of each row less what the fixed columns add to its sum.
#[derive(Drop)]
pub(crate) struct Relaxation {
    columns: Vec<FreeColumn>,
    terms: Vec<Term>,
    ends: Vec<Ends>,
    fixed_cost: i128,
}

impl marker::Model for Relaxation {
    ghost use Rattle.std.specs.Prelude.{length};
    ghost use Rattle.dual_climb.specs.Climbs.{Size, IsRelaxation};

    ghost Value = { Size };

    ghost view = { λ r. record { rows = length r.ends.items; columns = length r.columns.items } };

    ghost invariant = { λ r. IsRelaxation r.columns.items r.terms.items r.ends.items };
}

impl Relaxation {
    ghost use Rattle.std.specs.Prelude.{◌≡◌, ◌<◌, length, All, IfOk};
    ghost use Rattle.dual_climb.specs.Climbs.{IsBelow};

    /// The relaxation of a model over a box with these sides, with costs multiplied by the scale.
    pub fn new(
        alloc: Global,
        model: &Model,
        costs: &[i64],
        ends: &[Ends],
        scale: u32,
        lows: &[i32],
        highs: &[i32],
    ) -> Result<Relaxation, AllocError>
        requires costs { length costs.now ≡ length model.now.columns }
        requires ends { length ends.now ≡ length model.now.rows }
        requires lows { length lows.now ≡ length model.now.columns }
        requires highs { length highs.now ≡ length model.now.columns }
        ensures { IfOk result (λ r. r.rows ≡ length model.now.rows) }
    {
        let mut ends = ends.to_vec(alloc)?;
        let fixed_cost = take_out(model, costs, scale, lows, highs, &mut ends);
        let (columns, terms) = free_columns(alloc, model, costs, scale, lows, highs)?;
        Ok(Relaxation {
            columns,
            terms,
            ends,
            fixed_cost,
        })
    }

    /// How many free columns there are.
    pub fn count(&self) -> usize
        ensures { result ≡ self.now.columns }
    {
        self.columns.len()
    }

    /// How many rows there are.
    pub fn rows(&self) -> usize
        ensures { result ≡ self.now.rows }
    {
        self.ends.len()
    }

    /// Free column t.
    pub fn column(&self, t: usize) -> FreeColumn
        requires { t < self.now.columns }
    {
        self.columns[t]
    }

    /// The terms of free column t.
    pub fn terms(&self, t: usize) -> &[Term]
        requires { t < self.now.columns }
        ensures { All (IsBelow self.now.rows) result.now }
    {
        let column = self.columns[t];
        &self.terms[column.start..column.end]
    }

    /// The ends of row i, less what the fixed columns add.
    pub fn ends(&self, i: usize) -> Ends
        requires { i < self.now.rows }
    {
        self.ends[i]
    }

    /// What the fixed columns cost, multiplied by the scale.
    pub fn fixed_cost(&self) -> i128 {
        self.fixed_cost
    }

    /// The sum of the multipliers over the free columns: the multipliers times the ends, and the least of
    /// each reduced cost times a number of its interval.
    #[inline(never)]
    pub fn total(&self, multipliers: &[i64]) -> i128
        requires { length multipliers.now ≡ self.now.rows }
    {
        // Ends are below 2^62, multipliers at most 2^40, reduced costs below 2^62 and bounds below 2^20.
        let mut total: i128 = 0;
        for (i, &multiplier) in multipliers.iter().enumerate() {
            let end = end_for(self.ends[i], multiplier);
            total = total.wrapping_add(i128::from(multiplier).wrapping_mul(i128::from(end)));
        }
        for t in 0..self.columns.len() {
            let column = self.columns[t];
            let reduced = reduced_cost(self.terms(t), multipliers, column.cost);
            let side = if reduced > 0 { column.low } else { column.high };
            total = total.wrapping_add(i128::from(reduced).wrapping_mul(i128::from(side)));
        }
        total
    }
}

/// The end that a multiplier is held against, 0 where the row hasn't got it.
fn end_for(ends: Ends, multiplier: i64) -> i64 {
    if multiplier > 0 {
        ends.lower.unwrap_or(0)
    } else {
        ends.upper.unwrap_or(0)
    }
}

/// A cost less the multipliers times the coefficients. The limit of the multipliers keeps it below 2^62.
pub(crate) fn reduced_cost(terms: &[Term], multipliers: &[i64], cost: i64) -> i64
    requires { All (IsBelow (length multipliers.now)) terms.now }
{
    let mut reduced = cost;
    for &term in terms {
        let share = i64::from(term.coefficient).wrapping_mul(multipliers[term.row as usize]);
        reduced = reduced.wrapping_sub(share);
    }
    reduced
}

// A cost, below 2^30, times the scale, at most 2^20.
fn scaled(cost: i64, scale: u32) -> i64 {
    cost.wrapping_mul(i64::from(scale))
}

// The free columns and their terms.
#[tactic(auto, using(crate::proofs::TermLemmas::all_terms))]
fn free_columns(
    alloc: Global,
    model: &Model,
    costs: &[i64],
    scale: u32,
    lows: &[i32],
    highs: &[i32],
) -> Result<(Vec<FreeColumn>, Vec<Term>), AllocError>
    requires costs { length costs.now ≡ length model.now.columns }
    requires lows { length lows.now ≡ length model.now.columns }
    requires highs { length highs.now ≡ length model.now.columns }
    ensures spans { IfOk result (λ r. All (IsSpan (length r.1.items)) r.0.items) }
    ensures rows { IfOk result (λ r. All (IsBelow (length model.now.rows)) r.1.items) }
{
    let mut columns = Vec::new(alloc);
    let mut terms = Vec::new(alloc);
    let rows = model.rows() as usize;
    for number in 0..model.columns() {
        let j = number as usize;
        if lows[j] >= highs[j] {
            continue;
        }
        let start = terms.len();
        append(rows, &mut terms, model.column_terms(number))?;
        columns.push(FreeColumn {
            number,
            low: lows[j],
            high: highs[j],
            cost: scaled(costs[j], scale),
            start,
            end: terms.len(),
        })?;
    }
    Ok((columns, terms))
}

// Takes the fixed columns out: their parts of the rows' sums from the ends. Answers what they cost.
#[tactic(auto, using(crate::proofs::TermLemmas::all_terms))]
fn take_out(
    model: &Model,
    costs: &[i64],
    scale: u32,
    lows: &[i32],
    highs: &[i32],
    ends: &mut [Ends],
) -> i128
    requires costs { length costs.now ≡ length model.now.columns }
    requires lows { length lows.now ≡ length model.now.columns }
    requires highs { length highs.now ≡ length model.now.columns }
    requires ends { length ends.old ≡ length model.now.rows }
    ensures { length ends.new ≡ length ends.old }
{
    let mut fixed_cost: i128 = 0;
    for number in 0..model.columns() {
        let j = number as usize;
        let low = lows[j];
        if low >= highs[j] {
            subtract(ends, model.column_terms(number), low);
            let cost = i128::from(scaled(costs[j], scale));
            fixed_cost = fixed_cost.wrapping_add(cost.wrapping_mul(i128::from(low)));
        }
    }
    fixed_cost
}

// Puts a column's terms behind those of the columns before it.
fn append(rows: usize, terms: &mut Vec<Term>, column: &[(u32, i64)]) -> Result<(), AllocError>
    requires column { All (IsTerm rows) column.now }
    requires before { All (IsBelow rows) terms.old.items }
    ensures longer { OnOk result (length terms.old.items ≤ length terms.new.items) }
    ensures rows { OnOk result (All (IsBelow rows) terms.new.items) }
{
    for &(row, coefficient) in column {
        let coefficient = coefficient as i32;
        terms.push(Term { row, coefficient })?;
    }
    Ok(())
}

// Takes what a fixed column adds to each row's sum from the row's ends, which are below 2^61.
fn subtract(ends: &mut [Ends], column: &[(u32, i64)], value: i32)
    requires { All (IsTerm (length ends.old)) column.now }
    ensures { length ends.new ≡ length ends.old }
{
    for &(row, coefficient) in column {
        let i = row as usize;
        let part = coefficient.wrapping_mul(i64::from(value));
        ends[i] = lowered(ends[i], part);
    }
}

// The ends less a number.
fn lowered(ends: Ends, part: i64) -> Ends {
    Ends {
        lower: ends.lower.map(|end| end.wrapping_sub(part)),
        upper: ends.upper.map(|end| end.wrapping_sub(part)),
    }
}

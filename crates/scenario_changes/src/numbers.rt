// The numbers of a scenario's program that are its own.
ghost use Rattle.std.specs.Prelude.{◌≡◌, ◌≤◌, ◌^◌, ℤ, Option, [], length, map, All, IfOk, IfSome, unsigned_abs};
ghost use Rattle.int_model.specs.Limits.{IsEntry};
ghost use Rattle.int_model.specs.Models as models;
ghost use Rattle.scenario_changes.specs.Changes.{IsChange, AreSides, shape_of, changed};
ghost use Rattle.scenario_changes.specs.Problems.{numbers_of, ends_of_rows, solved};
ghost use Rattle.int_model.specs.declared.model.Column.{Column};
ghost use Rattle.int_model.specs.declared.model.Row.{Row};
ghost use Rattle.int_model.specs.declared.model.Rhs.TheVariants.{Value};

use crate::change::ScenarioChange;
use int_model::{Direction, Ends, Model, Rhs, ends_of};
use std::alloc::{AllocError, Global};
use std::marker;

/// Costs, bounds and row ends of one scenario.
#[derive(Drop)]
pub(crate) struct ScenarioNumbers {
    costs: Vec<i64>,
    lows: Vec<i32>,
    highs: Vec<i32>,
    ends: Vec<Ends>,
}

impl marker::Model for ScenarioNumbers {
    ghost use Rattle.scenario_changes.specs.Problems.{Numbers};

    ghost Value = { Numbers };

    ghost view = { λ n. record { costs = n.costs.items; lows = n.lows.items; highs = n.highs.items; ends = n.ends.items } };
}

impl ScenarioNumbers {
    /// The numbers of a scenario with these changes.
    pub(crate) fn new(
        alloc: Global,
        model: &Model,
        change: &ScenarioChange,
    ) -> Result<ScenarioNumbers, AllocError>
        requires { IsChange (length model.now.columns) (map shape_of model.now.rows) change.now }
        ensures { IfOk result (λ n. n ≡ numbers_of model.now change.now) }
    {
        Ok(ScenarioNumbers {
            costs: costs_of(alloc, model, change.costs())?,
            lows: lows_of(alloc, model, change.lows())?,
            highs: highs_of(alloc, model, change.highs())?,
            ends: row_ends_of(alloc, model, change.rhs())?,
        })
    }

    pub(crate) fn costs(&self) -> &[i64]
        ensures { result.now ≡ self.now.costs }
    {
        &self.costs
    }

    pub(crate) fn lows(&self) -> &[i32]
        ensures { result.now ≡ self.now.lows }
    {
        &self.lows
    }

    pub(crate) fn highs(&self) -> &[i32]
        ensures { result.now ≡ self.now.highs }
    {
        &self.highs
    }

    pub(crate) fn ends(&self) -> &[Ends]
        ensures { result.now ≡ self.now.ends }
    {
        &self.ends
    }
}

/// A number in the form that is minimised.
pub(crate) fn minimized(direction: Direction, value: i64) -> i64
    requires { unsigned_abs value ≤ 10 ^ 15 }
    ensures { result ≡ models.minimized direction value }
{
    match direction {
        Direction::Min => value,
        Direction::Max => -value,
    }
}

// The costs of a scenario with these changes.
fn costs_of(alloc: Global, model: &Model, changes: &[Option<i64>]) -> Result<Vec<i64>, AllocError>
    requires count { length changes.now ≡ length model.now.columns }
    requires small { All (λ (v : Option ℤ). IfSome v IsEntry) changes.now }
    ensures { IfOk result (λ costs. costs.items ≡ map (models.minimized model.now.direction) (changed (map (λ (j : Column). j.cost) model.now.columns) changes.now)) }
{
    let mut costs = Vec::new(alloc);
    for j in 0..model.columns() {
        let cost = changes[j as usize].unwrap_or(model.column(j).cost);
        costs.push(minimized(model.direction(), cost))?;
    }
    Ok(costs)
}

// The lower bounds of a scenario with these changes.
fn lows_of(alloc: Global, model: &Model, changes: &[Option<i32>]) -> Result<Vec<i32>, AllocError>
    requires { length changes.now ≡ length model.now.columns }
    ensures { IfOk result (λ lows. lows.items ≡ changed (map (λ (j : Column). j.low) model.now.columns) changes.now) }
{
    let mut lows = Vec::new(alloc);
    for j in 0..model.columns() {
        lows.push(changes[j as usize].unwrap_or(model.column(j).low))?;
    }
    Ok(lows)
}

// The upper bounds of a scenario with these changes.
fn highs_of(alloc: Global, model: &Model, changes: &[Option<i32>]) -> Result<Vec<i32>, AllocError>
    requires { length changes.now ≡ length model.now.columns }
    ensures { IfOk result (λ highs. highs.items ≡ changed (map (λ (j : Column). j.high) model.now.columns) changes.now) }
{
    let mut highs = Vec::new(alloc);
    for j in 0..model.columns() {
        highs.push(changes[j as usize].unwrap_or(model.column(j).high))?;
    }
    Ok(highs)
}

// The row ends of a scenario with these changes.
fn row_ends_of(
    alloc: Global,
    model: &Model,
    changes: &[Option<Rhs>],
) -> Result<Vec<Ends>, AllocError>
    requires count { length changes.now ≡ length model.now.rows }
    requires sides { AreSides (map shape_of model.now.rows) changes.now }
    ensures { IfOk result (λ ends. ends.items ≡ ends_of_rows model.now.rows (changed (map (λ (i : Row). Value i.rhs) model.now.rows) changes.now)) }
{
    let mut ends = Vec::new(alloc);
    for i in 0..model.rows() {
        let row = model.row(i);
        let rhs = changes[i as usize].unwrap_or(Rhs::Value(row.rhs));
        ends.push(ends_of(row, rhs))?;
    }
    Ok(ends)
}

// The numbers of the base alone.
fn base_numbers(alloc: Global, model: &Model) -> Result<Vec<ScenarioNumbers>, AllocError>
    ensures { IfOk result (λ numbers. numbers.items ≡ map (numbers_of model.now) (solved model.now [])) }
{
    let base = ScenarioChange::new(alloc, model.columns() as usize, model.rows() as usize)?;
    let mut numbers = Vec::new(alloc);
    numbers.push(ScenarioNumbers::new(alloc, model, &base)?)?;
    Ok(numbers)
}

/// The numbers of the scenarios that are solved.
pub(crate) fn all_numbers(
    alloc: Global,
    model: &Model,
    changes: &[ScenarioChange],
) -> Result<Vec<ScenarioNumbers>, AllocError>
    requires { All (IsChange (length model.now.columns) (map shape_of model.now.rows)) changes.now }
    ensures { IfOk result (λ numbers. numbers.items ≡ map (numbers_of model.now) (solved model.now changes.now)) }
{
    if changes.is_empty() {
        let numbers = base_numbers(alloc, model)?;
        return Ok(numbers);
    }
    let mut numbers = Vec::new(alloc);
    for change in changes {
        numbers.push(ScenarioNumbers::new(alloc, model, change)?)?;
    }
    Ok(numbers)
}

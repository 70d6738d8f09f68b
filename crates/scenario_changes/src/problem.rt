// The problem of a model and its scenarios.
ghost use Rattle.std.specs.Prelude.{◌≡◌, ◌↔◌, ℕ, ◌*◌, ◌<◌, ◌≤◌, ◌^◌, max, length, map, All, IfOk, IfSome, IsTrue, true, unsigned_abs, option_copied};
ghost use Rattle.int_model.specs.Limits.{IsBound, IsConstant};
ghost use Rattle.int_model.specs.Boxes.{Interval};
ghost use Rattle.int_model.specs.Programs.{CostsWithin, Feasible};
ghost use Rattle.int_model.specs.Programs as programs;
ghost use Rattle.int_model.specs.Ends.{EndsWithin};
ghost use Rattle.int_model.specs.Models as models;
ghost use Rattle.scenario_changes.specs.Changes.{Fits, is_name};
ghost use Rattle.scenario_changes.specs.Problems.{problem, program_at, root_box, name_at, IsWithin, AreWithin};

use crate::Changes;
use crate::feasible::{cost_sum, lies_within, meets_rows};
use crate::numbers::{ScenarioNumbers, all_numbers, minimized};
use crate::root::{greater, lesser};
use int_model::{Ends, Model, PointBox};
use std::alloc::{AllocError, Global};
use std::marker;

/// A model with the scenarios that are to be solved: those of its changes, or where there are none the base alone.
#[derive(Drop)]
pub struct Problem {
    model: Model,
    changes: Changes,
    numbers: Vec<ScenarioNumbers>,
}

impl marker::Model for Problem {
    ghost use Rattle.scenario_changes.specs.Problems.{Scenarios, IsPosed};

    ghost Value = { Scenarios };

    ghost view = { λ p. record { model = p.model; changes = p.changes.scenarios } };

    ghost invariant = { λ p. IsPosed p.model p.changes p.numbers.items };
}

impl Problem {
    /// The problem of a model and changes that fit it.
    pub fn new(alloc: Global, model: Model, changes: Changes) -> Result<Problem, AllocError>
        requires { Fits changes model }
        ensures { IfOk result (λ p. p ≡ record { model = model; changes = changes.scenarios }) }
    {
        // This call tells that the model keeps the limits.
        let _columns = model.columns();
        let numbers = all_numbers(alloc, &model, changes.scenarios())?;
        Ok(Problem {
            model,
            changes,
            numbers,
        })
    }

    /// How many scenarios are to be solved: 1 or more.
    pub fn count(&self) -> u32
        ensures count { result ≡ length (problem self.now).scenarios }
        ensures greater { result ≡ max 1 (length self.now.changes) }
        ensures limits { AreWithin (problem self.now) }
    {
        self.numbers.len() as u32
    }

    /// The base model.
    pub fn model(&self) -> &Model
        ensures { result.now ≡ self.now.model }
    {
        &self.model
    }

    /// How many scenarios were set, which may be 0.
    pub fn num_scenarios(&self) -> u32
        ensures { result ≡ length self.now.changes }
    {
        self.changes.num_scenarios()
    }

    /// The name of a scenario that has one.
    pub fn name(&self, s: u32) -> Option<&[u8]>
        requires { s < length (problem self.now).scenarios }
        ensures value { option_copied result ≡ name_at self.now s }
        ensures limits { IfSome (option_copied result) (λ name. is_name name ≡ true) }
    {
        match self.changes.scenarios().get(s as usize) {
            Some(change) => change.name(),
            None => None,
        }
    }

    /// The costs of a scenario, negated for Max.
    pub fn costs(&self, s: u32) -> &[i64]
        requires { s < length (problem self.now).scenarios }
        ensures value { result.now ≡ (program_at (problem self.now) s).costs }
        ensures count { length result.now ≡ length self.now.model.columns }
        ensures limits { CostsWithin (10 ^ 9) result.now }
        ensures within { IsWithin (length self.now.model.columns) (length self.now.model.rows) (program_at (problem self.now) s) }
    {
        self.numbers[s as usize].costs()
    }

    /// The constant of each scenario, negated for Max.
    pub fn constant(&self) -> i64
        ensures base { result ≡ models.minimized self.now.model.direction self.now.model.constant }
        ensures value { (s : ℕ) → s < length (problem self.now).scenarios → (program_at (problem self.now) s).constant ≡ result }
        ensures limits { IsConstant result }
    {
        minimized(self.model.direction(), self.model.constant())
    }

    /// The lower bounds of a scenario.
    pub fn lows(&self, s: u32) -> &[i32]
        requires { s < length (problem self.now).scenarios }
        ensures value { result.now ≡ map (λ (i : Interval). i.low) (program_at (problem self.now) s).bounds }
        ensures count { length result.now ≡ length self.now.model.columns }
        ensures limits { All IsBound result.now }
    {
        self.numbers[s as usize].lows()
    }

    /// The upper bounds of a scenario.
    pub fn highs(&self, s: u32) -> &[i32]
        requires { s < length (problem self.now).scenarios }
        ensures value { result.now ≡ map (λ (i : Interval). i.high) (program_at (problem self.now) s).bounds }
        ensures count { length result.now ≡ length self.now.model.columns }
        ensures limits { All IsBound result.now }
    {
        self.numbers[s as usize].highs()
    }

    /// The ends of each row in a scenario. A row that is removed there has none.
    pub fn ends(&self, s: u32) -> &[Ends]
        requires { s < length (problem self.now).scenarios }
        ensures value { result.now ≡ (program_at (problem self.now) s).ends }
        ensures count { length result.now ≡ length self.now.model.rows }
        ensures limits { All (EndsWithin (2 * 10 ^ 18)) result.now }
    {
        self.numbers[s as usize].ends()
    }

    /// The box of the least lower and the greatest upper bound of each column over all scenarios.
    pub fn root(&self, alloc: Global) -> Result<PointBox, AllocError>
        ensures { IfOk result (λ root. root ≡ root_box (problem self.now).scenarios) }
    {
        let mut lows = self.lows(0).to_vec(alloc)?;
        let mut highs = self.highs(0).to_vec(alloc)?;
        for s in 1..self.count() {
            lows = lesser(alloc, &lows, self.lows(s))?;
            highs = greater(alloc, &highs, self.highs(s))?;
        }
        let root = PointBox::from_ends(alloc, &lows, &highs)?;
        Ok(root)
    }

    /// Whether a point is feasible in a scenario. One without a number for each column isn't.
    pub fn meets(&self, s: u32, x: &[i32]) -> bool
        requires { s < length (problem self.now).scenarios }
        ensures { IsTrue result ↔ Feasible (program_at (problem self.now) s) x.now }
    {
        if !lies_within(self.lows(s), self.highs(s), x) {
            return false;
        }
        meets_rows(self.model(), self.ends(s), x)
    }

    /// The value of a point in a scenario, in the form that is minimised.
    pub fn value(&self, s: u32, x: &[i32]) -> i64
        requires scenario { s < length (problem self.now).scenarios }
        requires columns { length x.now ≡ length self.now.model.columns }
        requires bounds { All IsBound x.now }
        ensures value { result ≡ programs.value (program_at (problem self.now) s) x.now }
        ensures limit { unsigned_abs result ≤ 2 ^ 60 }
    {
        cost_sum(self.costs(s), x) + self.constant()
    }
}

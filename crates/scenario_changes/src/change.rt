// What one scenario changes.
ghost use Rattle.std.specs.Prelude.{◌≡◌, ◌<◌, length, slice_set, option_copied, IfOk};
ghost use Rattle.scenario_changes.specs.Changes.{no_change};

use int_model::{Name, Rhs, RowSense};
use std::alloc::{AllocError, Global};
use std::marker::Model;

/// What decides which right-hand sides a row can have.
#[derive(Clone, Copy, Debug, PartialEq, Eq)]
pub struct RowShape {
    pub sense: RowSense,
    pub ranged: bool,
}

/// What a scenario changes: None where the base's value stays.
#[derive(Drop)]
pub(crate) struct ScenarioChange {
    name: Option<Name>,
    costs: Vec<Option<i64>>,
    lows: Vec<Option<i32>>,
    highs: Vec<Option<i32>>,
    rhs: Vec<Option<Rhs>>,
}

impl Model for ScenarioChange {
    ghost use Rattle.scenario_changes.specs.Changes.{Change};

    ghost Value = { Change };

    ghost view = { λ c. record { name = c.name; costs = c.costs.items; lows = c.lows.items; highs = c.highs.items; rhs = c.rhs.items } };
}

impl ScenarioChange {
    /// A scenario without changes.
    pub(crate) fn new(
        alloc: Global,
        columns: usize,
        rows: usize,
    ) -> Result<ScenarioChange, AllocError>
        ensures { IfOk result (λ c. c ≡ no_change columns rows) }
    {
        Ok(ScenarioChange {
            name: None,
            costs: vec![in alloc; None; columns]?,
            lows: vec![in alloc; None; columns]?,
            highs: vec![in alloc; None; columns]?,
            rhs: vec![in alloc; None; rows]?,
        })
    }

    pub(crate) fn set_cost(&mut self, column: usize, value: Option<i64>)
        requires { column < length self.old.costs }
        ensures { self.new ≡ record self.old { costs = slice_set self.old.costs column value } }
    {
        self.costs[column] = value;
    }

    pub(crate) fn set_low(&mut self, column: usize, value: Option<i32>)
        requires { column < length self.old.lows }
        ensures { self.new ≡ record self.old { lows = slice_set self.old.lows column value } }
    {
        self.lows[column] = value;
    }

    pub(crate) fn set_high(&mut self, column: usize, value: Option<i32>)
        requires { column < length self.old.highs }
        ensures { self.new ≡ record self.old { highs = slice_set self.old.highs column value } }
    {
        self.highs[column] = value;
    }

    pub(crate) fn set_rhs(&mut self, row: usize, value: Option<Rhs>)
        requires { row < length self.old.rhs }
        ensures { self.new ≡ record self.old { rhs = slice_set self.old.rhs row value } }
    {
        self.rhs[row] = value;
    }

    pub(crate) fn set_name(&mut self, name: Option<Name>)
        ensures { self.new ≡ record self.old { name = name } }
    {
        self.name = name;
    }

    pub(crate) fn name(&self) -> Option<&[u8]>
        ensures { option_copied result ≡ self.now.name }
    {
        match &self.name {
            Some(name) => Some(name.as_slice()),
            None => None,
        }
    }

    pub(crate) fn costs(&self) -> &[Option<i64>]
        ensures { result.now ≡ self.now.costs }
    {
        &self.costs
    }

    pub(crate) fn lows(&self) -> &[Option<i32>]
        ensures { result.now ≡ self.now.lows }
    {
        &self.lows
    }

    pub(crate) fn highs(&self) -> &[Option<i32>]
        ensures { result.now ≡ self.now.highs }
    {
        &self.highs
    }

    pub(crate) fn rhs(&self) -> &[Option<Rhs>]
        ensures { result.now ≡ self.now.rhs }
    {
        &self.rhs
    }
}

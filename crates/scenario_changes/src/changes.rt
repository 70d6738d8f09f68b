// The changes of all scenarios of a model.
ghost use Rattle.std.specs.Prelude.{◌≡◌, ◌^◌, ◌<◌, ◌≤◌, length, map, nat_lt, [], None, IfOk, IfErr, IfSome, IsTrue, Some, true, ◌↔◌, ◌⊎◌, ◌++◌, replicate, option_copied};
ghost use Rattle.std.specs.List.{list_any};
ghost use Rattle.int_model.specs.Limits.{IsBound};
ghost use Rattle.int_model.specs.Build as build;
ghost use Rattle.scenario_changes.specs.Changes.{Change, Fits, shape_of, no_change, is_name, is_break, rhs_exceeds, may_have};
ghost use Rattle.scenario_changes.specs.declared.error.ChangeError.TheVariants.{Memory};

use crate::ChangeError;
use crate::change::{RowShape, ScenarioChange};
use int_model::{Model, Name, Rhs, Row, RowSense};
use std::alloc::{AllocError, Global};
use std::marker;

const MAX_SCENARIOS: u32 = 64;

const MAX_COST: u64 = 1_000_000_000;

const MAX_BOUND: u64 = 1_000_000;

const MAX_SIDE: u64 = 1_000_000_000_000_000_000;

const MAX_NAME: usize = 255;

// Whether there is a number, and one above a limit.
fn exceeds(limit: u64, value: Option<i64>) -> bool
    ensures { result ≡ build.side_exceeds limit value }
{
    match value {
        Some(number) => number.unsigned_abs() > limit,
        None => false,
    }
}

// Whether there is a right-hand side, and one above its limit.
fn side_exceeds(value: Option<Rhs>) -> bool
    ensures { result ≡ rhs_exceeds value }
{
    match value {
        Some(Rhs::Value(number)) => number.unsigned_abs() > MAX_SIDE,
        Some(_) => false,
        None => false,
    }
}

// Whether a row of this shape can have this right-hand side.
fn can_have(row: RowShape, value: Option<Rhs>) -> bool
    ensures { result ≡ may_have row value }
{
    match (value, row.sense) {
        (None, _) => true,
        (Some(Rhs::Value(_)), _) => true,
        (Some(Rhs::Inf), RowSense::L) => !row.ranged,
        (Some(Rhs::MinusInf), RowSense::G) => !row.ranged,
        _ => false,
    }
}

// Whether a byte may not stand in a name.
fn is_blank_or_feed(byte: u8) -> bool
    ensures { result ≡ is_break byte }
{
    byte == b' ' || byte == b'\t' || byte == b'\r' || byte == b'\n'
}

// Whether some byte may not stand in a name.
fn has_break(bytes: &[u8]) -> bool
    ensures { result ≡ list_any is_break bytes.now }
{
    bytes.iter().any(|byte| is_blank_or_feed(*byte))
}

// Whether these bytes can be a name.
fn can_be_name(bytes: &[u8]) -> bool
    ensures { result ≡ is_name bytes.now }
{
    if bytes.is_empty() {
        return false;
    }
    if bytes.len() > MAX_NAME {
        return false;
    }
    !has_break(bytes)
}

// A number within the limit of bounds.
fn bound_of(value: Option<i64>) -> Option<i32>
    requires { IfSome value IsBound }
    ensures { result ≡ value }
{
    match value {
        Some(number) => Some(number as i32),
        None => None,
    }
}

// The shape of a row.
fn row_shape(row: &Row) -> RowShape
    ensures { result ≡ shape_of row.now }
{
    RowShape {
        sense: row.sense,
        ranged: row.range.is_some(),
    }
}

// Whether a row has a shape.
fn has_shape(shape: RowShape, row: &Row) -> bool
    ensures { IsTrue result ↔ (shape ≡ shape_of row.now) }
{
    shape == row_shape(row)
}

// The shapes of a model's rows.
fn row_shapes(alloc: Global, model: &Model) -> Result<Vec<RowShape>, AllocError>
    ensures { IfOk result (λ shapes. shapes.items ≡ map shape_of model.now.rows) }
{
    let mut shapes = Vec::new(alloc);
    for i in 0..model.rows() {
        shapes.push(row_shape(model.row(i)))?;
    }
    Ok(shapes)
}

// A name of these bytes.
fn name_of(alloc: Global, bytes: Option<&[u8]>) -> Result<Option<Name>, AllocError>
    requires { IfSome (option_copied bytes) (λ name. is_name name ≡ true) }
    ensures { IfOk result (λ name. name ≡ option_copied bytes.entry) }
{
    match bytes {
        Some(bytes) => {
            let copy = bytes.to_vec(alloc)?;
            Ok(Some(Name::from_vec(copy)))
        }
        None => Ok(None),
    }
}

// So many scenarios without changes.
fn unchanged(
    alloc: Global,
    count: u32,
    columns: usize,
    rows: usize,
) -> Result<Vec<ScenarioChange>, AllocError>
    ensures { IfOk result (λ scenarios. scenarios.items ≡ replicate count (no_change columns rows)) }
{
    let mut scenarios = Vec::new(alloc);
    for made in 0..count {
        scenarios.push(ScenarioChange::new(alloc, columns, rows)?)?;
    }
    Ok(scenarios)
}

/// What each scenario of a model changes. A setting is one of the selected scenario.
#[derive(Drop)]
pub struct Changes {
    columns: u32,
    rows: Vec<RowShape>,
    scenarios: Vec<ScenarioChange>,
    selected: u32,
}

impl marker::Model for Changes {
    ghost use Rattle.scenario_changes.specs.Changes.{ChangeSet, IsChangeSet};

    ghost Value = { ChangeSet };

    ghost view = { λ c. record { columns = c.columns; rows = c.rows.items; scenarios = c.scenarios.items; selected = c.selected } };

    ghost invariant = { λ c. IsChangeSet (record { columns = c.columns; rows = c.rows.items; scenarios = c.scenarios.items; selected = c.selected }) };
}

impl Changes {
    ghost use Rattle.scenario_changes.specs.Changes.{IsChangeSet, with_cost, with_low, with_high, with_rhs, with_name, with_number};
    ghost use Rattle.scenario_changes.specs.Refusals.{number_refusal, select_refusal, column_refusal, rhs_refusal, name_refusal};

    /// No scenarios, for a model with these columns and rows.
    pub fn new(alloc: Global, model: &Model) -> Result<Changes, AllocError>
        ensures fits { IfOk result (λ c. Fits c model.now) }
        ensures empty { IfOk result (λ c. (c.scenarios ≡ []) × (c.selected ≡ 0)) }
    {
        Ok(Changes {
            columns: model.columns(),
            rows: row_shapes(alloc, model)?,
            scenarios: Vec::new(alloc),
            selected: 0,
        })
    }

    pub fn num_scenarios(&self) -> u32
        ensures count { result ≡ length self.now.scenarios }
        ensures limits { IsChangeSet self.now }
    {
        self.scenarios.len() as u32
    }

    /// What each scenario changes.
    pub(crate) fn scenarios(&self) -> &[ScenarioChange]
        ensures value { result.now ≡ self.now.scenarios }
        ensures limits { IsChangeSet self.now }
    {
        &self.scenarios
    }

    /// The scenario that is selected, 0 where there are none.
    pub fn selected(&self) -> u32
        ensures { result ≡ self.now.selected }
    {
        self.selected
    }

    /// Whether these changes are for such a model: one with as many columns, and with the same senses and ranges in
    /// the same rows.
    pub fn fits(&self, model: &Model) -> bool
        ensures { IsTrue result ↔ Fits self.now model.now }
    {
        self.columns == model.columns() && have_shapes(&self.rows, model)
    }

    /// So many scenarios: the last ones are dropped, or ones without changes are added. Scenario 0 is then selected.
    /// More than 64 are refused.
    pub fn set_num_scenarios(&mut self, n: u32) -> Result<(), ChangeError>
        ensures ok { IfOk result (λ _. (number_refusal n ≡ None) × (self.new ≡ with_number self.old n)) }
        ensures err { IfErr result (λ e. ((e ≡ Memory) ⊎ (number_refusal n ≡ Some e)) × (self.new ≡ self.old)) }
    {
        if n > MAX_SCENARIOS {
            return Err(ChangeError::TooMany);
        }
        let alloc = *self.scenarios.allocator();
        let more = n.saturating_sub(self.scenarios.len() as u32);
        let mut added = unchanged(alloc, more, self.columns as usize, self.rows.len())?;
        self.scenarios.append(&mut added)?;
        self.scenarios.truncate(n as usize);
        self.selected = 0;
        Ok(())
    }

    /// Selects a scenario.
    pub fn select(&mut self, k: u32) -> Result<(), ChangeError>
        ensures ok { IfOk result (λ _. (select_refusal self.old k ≡ None) × (self.new ≡ record self.old { selected = k })) }
        ensures err { IfErr result (λ e. (select_refusal self.old k ≡ Some e) × (self.new ≡ self.old)) }
    {
        if k as usize >= self.scenarios.len() {
            return Err(ChangeError::NoScenario);
        }
        self.selected = k;
        Ok(())
    }

    // What is wrong with a number for a column.
    fn column_fault(&self, limit: u64, column: u32, value: Option<i64>) -> Option<ChangeError>
        ensures { result ≡ column_refusal limit self.now column value }
    {
        if self.scenarios.is_empty() {
            Some(ChangeError::NoScenario)
        } else if column >= self.columns {
            Some(ChangeError::UnknownColumn)
        } else if exceeds(limit, value) {
            Some(ChangeError::Magnitude)
        } else {
            None
        }
    }

    /// Sets a cost, or makes it undefined: the base's then counts.
    pub fn set_obj(&mut self, column: u32, value: Option<i64>) -> Result<(), ChangeError>
        ensures ok { IfOk result (λ _. (column_refusal (10 ^ 9) self.old column value ≡ None) × (self.new ≡ with_cost self.old column value)) }
        ensures err { IfErr result (λ e. (column_refusal (10 ^ 9) self.old column value ≡ Some e) × (self.new ≡ self.old)) }
    {
        if let Some(fault) = self.column_fault(MAX_COST, column, value) {
            return Err(fault);
        }
        self.scenarios[self.selected as usize].set_cost(column as usize, value);
        Ok(())
    }

    /// Sets a lower bound, or makes it undefined.
    pub fn set_lb(&mut self, column: u32, value: Option<i64>) -> Result<(), ChangeError>
        ensures ok { IfOk result (λ _. (column_refusal (10 ^ 6) self.old column value ≡ None) × (self.new ≡ with_low self.old column value)) }
        ensures err { IfErr result (λ e. (column_refusal (10 ^ 6) self.old column value ≡ Some e) × (self.new ≡ self.old)) }
    {
        if let Some(fault) = self.column_fault(MAX_BOUND, column, value) {
            return Err(fault);
        }
        self.scenarios[self.selected as usize].set_low(column as usize, bound_of(value));
        Ok(())
    }

    /// Sets an upper bound, or makes it undefined.
    pub fn set_ub(&mut self, column: u32, value: Option<i64>) -> Result<(), ChangeError>
        ensures ok { IfOk result (λ _. (column_refusal (10 ^ 6) self.old column value ≡ None) × (self.new ≡ with_high self.old column value)) }
        ensures err { IfErr result (λ e. (column_refusal (10 ^ 6) self.old column value ≡ Some e) × (self.new ≡ self.old)) }
    {
        if let Some(fault) = self.column_fault(MAX_BOUND, column, value) {
            return Err(fault);
        }
        self.scenarios[self.selected as usize].set_high(column as usize, bound_of(value));
        Ok(())
    }

    // What is wrong with a right-hand side for a row.
    fn rhs_fault(&self, row: u32, value: Option<Rhs>) -> Option<ChangeError>
        ensures { result ≡ rhs_refusal self.now row value }
    {
        if self.scenarios.is_empty() {
            Some(ChangeError::NoScenario)
        } else if row as usize >= self.rows.len() {
            Some(ChangeError::UnknownRow)
        } else if side_exceeds(value) {
            Some(ChangeError::Magnitude)
        } else if !can_have(self.rows[row as usize], value) {
            Some(ChangeError::BadRemoval)
        } else {
            None
        }
    }

    /// Sets a right-hand side, or makes it undefined. `Inf` removes an L row and `MinusInf` a G row that has no range.
    pub fn set_rhs(&mut self, row: u32, value: Option<Rhs>) -> Result<(), ChangeError>
        ensures ok { IfOk result (λ _. (rhs_refusal self.old row value ≡ None) × (self.new ≡ with_rhs self.old row value)) }
        ensures err { IfErr result (λ e. (rhs_refusal self.old row value ≡ Some e) × (self.new ≡ self.old)) }
    {
        if let Some(fault) = self.rhs_fault(row, value) {
            return Err(fault);
        }
        self.scenarios[self.selected as usize].set_rhs(row as usize, value);
        Ok(())
    }

    // What is wrong with a name.
    fn name_fault(&self, name: Option<&[u8]>) -> Option<ChangeError>
        ensures { result ≡ name_refusal self.now (option_copied name.entry) }
    {
        if self.scenarios.is_empty() {
            return Some(ChangeError::NoScenario);
        }
        match name {
            Some(bytes) if !can_be_name(bytes) => Some(ChangeError::BadName),
            _ => None,
        }
    }

    /// Names the selected scenario, or takes its name away. A name has 1 to 255 bytes, none of them a space, a tab, a
    /// carriage return or a line feed.
    pub fn set_name(&mut self, name: Option<&[u8]>) -> Result<(), ChangeError>
        ensures ok { IfOk result (λ _. (name_refusal self.old (option_copied name.entry) ≡ None) × (self.new ≡ with_name self.old (option_copied name.entry))) }
        ensures err { IfErr result (λ e. ((e ≡ Memory) ⊎ (name_refusal self.old (option_copied name.entry) ≡ Some e)) × (self.new ≡ self.old)) }
    {
        if let Some(fault) = self.name_fault(name) {
            return Err(fault);
        }
        let name = name_of(*self.scenarios.allocator(), name)?;
        self.scenarios[self.selected as usize].set_name(name);
        Ok(())
    }
}

// Whether a model's rows have these shapes.
fn have_shapes(shapes: &[RowShape], model: &Model) -> bool
    ensures { IsTrue result ↔ (shapes.now ≡ map shape_of model.now.rows) }
{
    if shapes.len() != model.rows() as usize {
        return false;
    }
    for i in 0..model.rows() {
        if !has_shape(shapes[i as usize], model.row(i)) {
            return false;
        }
    }
    true
}

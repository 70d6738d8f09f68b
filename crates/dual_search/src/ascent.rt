// The ascent: the multipliers of all rows, and the reduced costs of each scenario that belong to them.
ghost use Rattle.std.specs.Prelude.{◌≡◌, ◌↔◌, ◌^◌, ◌<◌, ◌≤◌, ◌+ℤ◌, ◌≤ℤ◌, ◌<ℤ◌, ℕ, pos, unsigned_abs, length, slice_set, All, IfOk, OnOk, IsTrue};
ghost use Rattle.scenario_changes.specs.Problems.{problem as posed};
ghost use Rattle.dual_bounds.specs.Vectors.{KeepsLimits, RowsBelow};
ghost use Rattle.dual_bounds.specs.Counting.{IsMultiplier};
ghost use Rattle.int_model.specs.Integers.{int_at};
ghost use Rattle.dual_search.specs.Gains as gains;
ghost use Rattle.dual_search.specs.Ascents.{AreBoxes, Ascends, HasAscended, HasVector, IsCarried, IsSameSearch, IsTop, IsTopAt, IsTopOfRow, AreAllReduced, total_of, unit, vector_at, with_multiplier};

use crate::breakpoints::Breakpoints;
use crate::reduced_costs::ReducedCosts;
use dual_bounds::Vector;
use int_model::PointBox;
use live_sets::LiveSet;
use scenario_changes::Problem;
use std::alloc::{AllocError, Global};

const MOST_ENTRIES: usize = 128;

const MOST: i64 = 1 << 40;

/// A vector whose multipliers move, beside the reduced costs of each scenario. One problem goes with it
/// in each call, that of `new`.
#[derive(Drop)]
pub struct Ascent {
    scale: u32,
    scenarios: Vec<u32>,
    multipliers: Vec<i64>,
    // How many multipliers aren't 0.
    entries: usize,
    reduced: Vec<ReducedCosts>,
}

// How many entries a multiplier makes.
fn entry_count(multiplier: i64) -> usize
    ensures value { result ≡ gains.entry_count multiplier }
    ensures limit { result ≤ 1 }
{
    if multiplier == 0 { 0 } else { 1 }
}

// The least change of a multiplier to one side.
fn unit_step(upwards: bool) -> i64
    ensures value { result ≡ unit upwards }
    ensures limit { unsigned_abs result ≤ 1 }
{
    if upwards { 1 } else { -1 }
}

// The members of a set.
fn members(alloc: Global, live: LiveSet) -> Result<Vec<u32>, AllocError>
    ensures { IfOk result (λ v. v.items ≡ live) }
{
    live.iter().collect(alloc)
}

// So many zeros.
fn zeros(alloc: Global, count: u32) -> Result<Vec<i64>, AllocError>
    ensures count { IfOk result (λ v. length v.items ≡ count) }
    ensures values { IfOk result (λ v. (i : ℕ) → int_at v.items i ≡ pos 0) }
{
    vec![in alloc; 0; count as usize]
}

impl Ascent {
    // The vector without entries.
    fn at_zero(
        alloc: Global,
        problem: &Problem,
        live: LiveSet,
        scale: u32,
    ) -> Result<Ascent, AllocError>
        requires live { All (λ s. s < length (posed problem.now).scenarios) live }
        requires scale { scale ≤ 2 ^ 20 }
        ensures carried { IfOk result (IsCarried problem.now) }
        ensures scale { IfOk result (λ a. a.scale ≡ scale) }
        ensures scenarios { IfOk result (λ a. a.scenarios.items ≡ live) }
        ensures multipliers { IfOk result (λ a. (i : ℕ) → int_at a.multipliers.items i ≡ pos 0) }
    {
        let scenarios = members(alloc, live)?;
        let mut reduced = Vec::with_capacity(alloc, live.count() as usize)?;
        for &s in &scenarios {
            reduced.push(ReducedCosts::new(alloc, scale, problem.costs(s))?)?;
        }
        let multipliers = zeros(alloc, problem.model().rows())?;
        Ok(Ascent {
            scale,
            scenarios,
            multipliers,
            entries: 0,
            reduced,
        })
    }

    /// The ascent at its start.
    pub fn new(
        alloc: Global,
        problem: &Problem,
        live: LiveSet,
        start: &Vector,
    ) -> Result<Ascent, AllocError>
        requires live { All (λ s. s < length (posed problem.now).scenarios) live }
        requires rows { RowsBelow (length problem.now.model.rows) start.now.entries }
        ensures carried { IfOk result (IsCarried problem.now) }
        ensures scenarios { IfOk result (λ a. a.scenarios.items ≡ live) }
        ensures start { IfOk result (λ a. vector_at a ≡ start.now) }
    {
        let mut ascent = Ascent::at_zero(alloc, problem, live, start.scale())?;
        for &(row, multiplier) in start.entries() {
            ascent.set(problem, row, multiplier);
        }
        Ok(ascent)
    }

    // Makes the multiplier of a row another one.
    fn set(&mut self, problem: &Problem, row: u32, to: i64)
        requires carried { IsCarried problem.now self.old }
        requires row { row < length problem.now.model.rows }
        requires limits { KeepsLimits (with_multiplier self.old row to) }
        ensures carried { IsCarried problem.now self.new }
        ensures same { IsSameSearch self.old self.new }
        ensures multipliers { self.new.multipliers.items ≡ slice_set self.old.multipliers.items row to }
    {
        let from = self.multipliers[row as usize];
        self.shift(problem, row, from, to);
        self.entries = self.entries + entry_count(to) - entry_count(from);
        self.multipliers[row as usize] = to;
    }

    // Moves the reduced costs of all scenarios with the multiplier of a row.
    fn shift(&mut self, problem: &Problem, row: u32, from: i64, to: i64)
        requires carried { IsCarried problem.now self.old }
        requires row { row < length problem.now.model.rows }
        requires start { from ≡ int_at self.old.multipliers.items row }
        requires limit { IsMultiplier to }
        ensures reduced { AreAllReduced problem.now self.old.scale (slice_set self.old.multipliers.items row to) self.old.scenarios.items self.new.reduced.items }
        ensures scale { self.new.scale ≡ self.old.scale }
        ensures scenarios { self.new.scenarios.items ≡ self.old.scenarios.items }
        ensures multipliers { self.new.multipliers.items ≡ self.old.multipliers.items }
        ensures entries { self.new.entries ≡ self.old.entries }
    {
        // These calls tell that the problem keeps the limits.
        let _count = problem.count();
        let _columns = problem.model().columns();
        let line = problem.model().row(row);
        let terms = line.terms.as_slice();
        for k in 0..self.scenarios.len() {
            let ends = problem.ends(self.scenarios[k]);
            self.reduced[k].shift(terms, ends, row, from, to);
        }
    }

    // By how much the total grows where the multiplier of a row becomes another one.
    fn gain(&self, problem: &Problem, boxes: &[PointBox], row: u32, to: i64) -> i128
        requires carried { IsCarried problem.now self.now }
        requires boxes { AreBoxes problem.now self.now boxes.now }
        requires row { row < length problem.now.model.rows }
        requires limit { IsMultiplier to }
        ensures { total_of problem.now self.now boxes.now (with_multiplier self.now row to) ≡ total_of problem.now self.now boxes.now (vector_at self.now) +ℤ result }
    {
        // These calls tell that the problem keeps the limits.
        let _count = problem.count();
        let _columns = problem.model().columns();
        let from = self.multipliers[row as usize];
        let line = problem.model().row(row);
        let terms = line.terms.as_slice();
        let mut gain = 0;
        for k in 0..self.scenarios.len() {
            let ends = problem.ends(self.scenarios[k]);
            gain += self.reduced[k].gain(terms, ends, &boxes[k], row, from, to);
        }
        gain
    }

    // Whether the total grows where the multiplier of a row becomes another one.
    fn gains(&self, problem: &Problem, boxes: &[PointBox], row: u32, to: i64) -> bool
        requires carried { IsCarried problem.now self.now }
        requires boxes { AreBoxes problem.now self.now boxes.now }
        requires row { row < length problem.now.model.rows }
        requires limit { IsMultiplier to }
        ensures { IsTrue result ↔ total_of problem.now self.now boxes.now (vector_at self.now) <ℤ total_of problem.now self.now boxes.now (with_multiplier self.now row to) }
    {
        self.gain(problem, boxes, row, to) > 0
    }

    // Whether there is a vector where the multiplier of a row is another one.
    fn admits(&self, row: u32, to: i64) -> bool
        requires vector { HasVector self.now }
        requires row { row < length self.now.multipliers.items }
        ensures { IsTrue result ↔ KeepsLimits (with_multiplier self.now row to) }
    {
        if to < -MOST || to > MOST {
            return false;
        }
        let from = self.multipliers[row as usize];
        self.entries + entry_count(to) - entry_count(from) <= MOST_ENTRIES
    }

    // The breakpoints of the total as a function of a row's multiplier, to one side.
    fn load(
        &self,
        problem: &Problem,
        boxes: &[PointBox],
        breakpoints: &mut Breakpoints,
        row: u32,
        upwards: bool,
    ) -> Result<(), AllocError>
        requires carried { IsCarried problem.now self.now }
        requires boxes { AreBoxes problem.now self.now boxes.now }
        requires row { row < length problem.now.model.rows }
    {
        // These calls tell that the problem keeps the limits.
        let _count = problem.count();
        let _columns = problem.model().columns();
        let from = self.multipliers[row as usize];
        let above = from > 0 || (from == 0 && upwards);
        let line = problem.model().row(row);
        let terms = line.terms.as_slice();
        breakpoints.clear();
        for k in 0..self.scenarios.len() {
            let ends = problem.ends(self.scenarios[k])[row as usize];
            let end = if above { ends.lower } else { ends.upper };
            if let Some(end) = end {
                breakpoints.add(terms, end, upwards, self.reduced[k].costs(), &boxes[k])?;
            }
        }
        Ok(())
    }

    // A multiplier that may be the best one to this side. It doesn't pass 0.
    fn candidate(
        &self,
        problem: &Problem,
        boxes: &[PointBox],
        breakpoints: &mut Breakpoints,
        row: u32,
        upwards: bool,
    ) -> Result<i64, AllocError>
        requires carried { IsCarried problem.now self.now }
        requires boxes { AreBoxes problem.now self.now boxes.now }
        requires row { row < length problem.now.model.rows }
    {
        self.load(problem, boxes, breakpoints, row, upwards)?;
        let from = self.multipliers[row as usize];
        let last = if upwards && from >= 0 {
            MOST
        } else if !upwards && from <= 0 {
            -MOST
        } else {
            0
        };
        let units = breakpoints.units(last.abs_diff(from));
        Ok(if upwards {
            from.saturating_add_unsigned(units)
        } else {
            from.saturating_sub_unsigned(units)
        })
    }

    // The one of two multipliers of a row with the greater total, as far as there is a vector with the
    // other.
    fn better(&self, problem: &Problem, boxes: &[PointBox], row: u32, best: i64, other: i64) -> i64
        requires carried { IsCarried problem.now self.now }
        requires boxes { AreBoxes problem.now self.now boxes.now }
        requires row { row < length problem.now.model.rows }
        requires limits { KeepsLimits (with_multiplier self.now row best) }
        ensures limits { KeepsLimits (with_multiplier self.now row result) }
        ensures least { total_of problem.now self.now boxes.now (with_multiplier self.now row best) ≤ℤ total_of problem.now self.now boxes.now (with_multiplier self.now row result) }
    {
        if !self.admits(row, other) {
            return best;
        }
        if self.gain(problem, boxes, row, other) > self.gain(problem, boxes, row, best) {
            other
        } else {
            best
        }
    }

    // Moves the multiplier of a row to one side, where that gains. Whether it did.
    fn ascend_side(
        &mut self,
        problem: &Problem,
        boxes: &[PointBox],
        breakpoints: &mut Breakpoints,
        row: u32,
        upwards: bool,
    ) -> Result<bool, AllocError>
        requires carried { IsCarried problem.now self.old }
        requires boxes { AreBoxes problem.now self.old boxes.now }
        requires row { row < length problem.now.model.rows }
        ensures carried { IsCarried problem.now self.new }
        ensures same { IsSameSearch self.old self.new }
        ensures ascends { Ascends (IsTopAt problem.now self.old boxes.now row (unit upwards)) problem.now boxes.now self.old result self.new }
    {
        let step = unit_step(upwards);
        let near = self.multipliers[row as usize] + step;
        if !self.admits(row, near) {
            return Ok(false);
        }
        if !self.gains(problem, boxes, row, near) {
            return Ok(false);
        }
        let far = self.candidate(problem, boxes, breakpoints, row, upwards)?;
        let best = self.better(problem, boxes, row, near, far);
        let best = self.better(problem, boxes, row, best, far.saturating_add(step));
        self.set(problem, row, best);
        Ok(true)
    }

    // Moves the multiplier of a row where that gains. Whether it did.
    fn ascend_row(
        &mut self,
        problem: &Problem,
        boxes: &[PointBox],
        breakpoints: &mut Breakpoints,
        row: u32,
    ) -> Result<bool, AllocError>
        requires carried { IsCarried problem.now self.old }
        requires boxes { AreBoxes problem.now self.old boxes.now }
        requires row { row < length problem.now.model.rows }
        ensures carried { IsCarried problem.now self.new }
        ensures same { IsSameSearch self.old self.new }
        ensures ascends { Ascends (IsTopOfRow problem.now self.old boxes.now row) problem.now boxes.now self.old result self.new }
    {
        if self.ascend_side(problem, boxes, breakpoints, row, true)? {
            return Ok(true);
        }
        self.ascend_side(problem, boxes, breakpoints, row, false)
    }

    // Goes once over all rows. Whether some multiplier moved.
    fn pass(
        &mut self,
        problem: &Problem,
        boxes: &[PointBox],
        breakpoints: &mut Breakpoints,
    ) -> Result<bool, AllocError>
        requires carried { IsCarried problem.now self.old }
        requires boxes { AreBoxes problem.now self.old boxes.now }
        ensures carried { IsCarried problem.now self.new }
        ensures same { IsSameSearch self.old self.new }
        ensures ascends { Ascends (IsTop problem.now self.old boxes.now) problem.now boxes.now self.old result self.new }
    {
        let mut moved = false;
        for row in 0..problem.model().rows() {
            moved |= self.ascend_row(problem, boxes, breakpoints, row)?;
        }
        Ok(moved)
    }

    /// Goes over all rows, and once more where some multiplier moved.
    pub fn ascend(
        &mut self,
        problem: &Problem,
        boxes: &[PointBox],
        breakpoints: &mut Breakpoints,
    ) -> Result<(), AllocError>
        requires carried { IsCarried problem.now self.old }
        requires boxes { AreBoxes problem.now self.old boxes.now }
        ensures carried { IsCarried problem.now self.new }
        ensures same { IsSameSearch self.old self.new }
        ensures ascended { OnOk result (HasAscended problem.now boxes.now self.old self.new) }
    {
        if self.pass(problem, boxes, breakpoints)? {
            self.pass(problem, boxes, breakpoints)?;
        }
        Ok(())
    }

    /// The vector of the multipliers.
    pub fn vector(&self, alloc: Global) -> Result<Vector, AllocError>
        requires { HasVector self.now }
        ensures { IfOk result (λ v. v ≡ vector_at self.now) }
    {
        let mut entries = Vec::with_capacity(alloc, self.entries)?;
        for (row, &multiplier) in self.multipliers.iter().enumerate() {
            if multiplier != 0 {
                entries.push((row as u32, multiplier))?;
            }
        }
        match Vector::new(alloc, self.scale, &entries) {
            Ok(vector) => Ok(vector),
            Err(_) => Err(AllocError),
        }
    }
}

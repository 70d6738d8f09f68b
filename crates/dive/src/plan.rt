// In which order a dive fixes the columns, and at which numbers.
ghost use Rattle.std.specs.Prelude.{◌≡◌, ◌<◌, ◌≤◌, length, IfOk, OnOk};
ghost use Rattle.scenario_changes.specs.Problems as problems;
ghost use Rattle.dive.specs.Plans.{IsPlan};

use crate::costs::absolute_cost;
use crate::ranking::ranked;
use crate::rounding::{distance_from_whole, fixed_point};
use int_model::{NearPoint, PointBox};
use scenario_changes::Problem;
use std::alloc::{AllocError, Global};
use std::mem;

/// The columns in the order in which they are fixed, and for each column the fixed-point number near which
/// it is fixed, with the one that takes its place after a dead end.
#[derive(Drop)]
pub(crate) struct Plan {
    pub(crate) order: Vec<u32>,
    pub(crate) targets: Vec<i64>,
    pub(crate) others: Vec<i64>,
    // Whether the two numbers of each column were exchanged.
    is_exchanged: bool,
}

impl Plan {
    /// The dearest columns first, each at the end of its interval that its cost prefers.
    pub(crate) fn by_cost(
        alloc: Global,
        problem: &Problem,
        s: u32,
        bounds: &PointBox,
    ) -> Result<Plan, AllocError>
        requires scenario { s < length (problems.problem problem.now).scenarios }
        requires columns { length bounds.now ≡ length problem.now.model.columns }
        ensures { IfOk result (IsPlan (length problem.now.model.columns)) }
    {
        let lows = bounds.lows();
        let highs = bounds.highs();
        let costs = problem.costs(s);
        let mut keys = Vec::with_capacity(alloc, costs.len())?;
        let mut targets = Vec::with_capacity(alloc, costs.len())?;
        let mut others = Vec::with_capacity(alloc, costs.len())?;
        for j in 0..costs.len() {
            let negated_width = i64::from(lows[j]) - i64::from(highs[j]);
            keys.push(absolute_cost(costs, j).saturating_mul(negated_width))?;
            let (low, high) = (fixed_point(lows[j]), fixed_point(highs[j]));
            let (target, other) = if costs[j] < 0 {
                (high, low)
            } else {
                (low, high)
            };
            targets.push(target)?;
            others.push(other)?;
        }
        let order = ranked(alloc, &keys)?;
        Ok(Plan {
            order,
            targets,
            others,
            is_exchanged: false,
        })
    }

    /// The columns first whose near number is nearest to a whole one, each at its near number.
    pub(crate) fn near(alloc: Global, near: &NearPoint) -> Result<Plan, AllocError>
        requires { length near.now ≤ 1000 }
        ensures { IfOk result (IsPlan (length near.now)) }
    {
        let numbers = near.as_slice();
        let mut keys = Vec::with_capacity(alloc, numbers.len())?;
        for number in numbers {
            keys.push(distance_from_whole(*number))?;
        }
        Ok(Plan {
            order: ranked(alloc, &keys)?,
            targets: numbers.to_vec(alloc)?,
            others: numbers.to_vec(alloc)?,
            is_exchanged: false,
        })
    }

    /// After a dead end at a place of the order: its column comes first, and gets its other number. Late
    /// in a dive all columns get their other numbers, once.
    pub(crate) fn revise(&mut self, place: usize, is_late: bool) -> Result<(), AllocError>
        requires plan { IsPlan (length self.old.targets.items) self.old }
        requires place { place < length self.old.order.items }
        ensures { OnOk result (IsPlan (length self.old.targets.items) self.new) }
    {
        self.prefer(place)?;
        if !is_late {
            return Ok(());
        }
        if self.is_exchanged {
            return Ok(());
        }
        self.exchange_numbers();
        Ok(())
    }

    // Makes the column at a place of the order the first one, and gives it its other number.
    fn prefer(&mut self, place: usize) -> Result<(), AllocError>
        requires plan { IsPlan (length self.old.targets.items) self.old }
        requires place { place < length self.old.order.items }
        ensures { OnOk result (IsPlan (length self.old.targets.items) self.new) }
    {
        let column = self.order.remove(place);
        self.order.insert(0, column)?;
        self.targets[column as usize] = self.others[column as usize];
        Ok(())
    }

    // Exchanges the two numbers of each column.
    fn exchange_numbers(&mut self)
        requires { IsPlan (length self.old.targets.items) self.old }
        ensures { IsPlan (length self.old.targets.items) self.new }
    {
        mem::swap(&mut self.targets, &mut self.others);
        self.is_exchanged = true;
    }
}

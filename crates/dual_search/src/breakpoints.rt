// How far one multiplier is worth moving: a walk over the breakpoints of a concave, piecewise linear
// function. What comes out is only tried, so nothing is claimed of it, and sums saturate.

ghost use Rattle.std.specs.Prelude.{◌≡◌, length};
ghost use Rattle.int_model.specs.Programs.{AreTerms};

use int_model::PointBox;
use std::alloc::{AllocError, Global};

// More than any two multipliers lie apart.
const MOST_UNITS: u128 = 1 << 41;

// After so many units of the multiplier a reduced cost becomes 0, and the slope falls by a weight.
#[derive(Clone, Copy, Debug, PartialEq, Eq, PartialOrd, Ord)]
struct Breakpoint {
    units: u64,
    weight: u64,
}

/// The slope of a function of one multiplier at its present value, to one side, and where it falls.
#[derive(Drop)]
pub struct Breakpoints {
    slope: i128,
    points: Vec<Breakpoint>,
}

impl Breakpoints {
    /// No function yet, with room for so many breakpoints.
    pub fn new(alloc: Global, room: usize) -> Result<Breakpoints, AllocError> {
        Ok(Breakpoints {
            slope: 0,
            points: Vec::with_capacity(alloc, room)?,
        })
    }

    /// Forgets the function.
    pub fn clear(&mut self) {
        self.slope = 0;
        self.points.clear();
    }

    /// Adds the sum of one scenario, whose row has this end on the side that the multiplier moves to.
    pub fn add(
        &mut self,
        terms: &[(u32, i64)],
        end: i64,
        upwards: bool,
        costs: &[i128],
        bounds: &PointBox,
    ) -> Result<(), AllocError>
        requires terms { AreTerms 0 (length costs.now) terms.now }
        requires columns { length bounds.now ≡ length costs.now }
    {
        let lows = bounds.lows();
        let highs = bounds.highs();
        self.slope = self.slope.saturating_add(signed(end, upwards));
        for &(column, coefficient) in terms {
            let place = column as usize;
            let falls = (coefficient > 0) == upwards;
            let (low, high) = (lows[place], highs[place]);
            self.add_column(costs[place], coefficient.unsigned_abs(), falls, low, high)?;
        }
        Ok(())
    }

    // Adds a column whose reduced cost falls or rises at this rate.
    fn add_column(
        &mut self,
        cost: i128,
        rate: u64,
        falls: bool,
        low: i32,
        high: i32,
    ) -> Result<(), AllocError> {
        let at_low = cost > 0 || (cost == 0 && !falls);
        let number = i128::from(if at_low { low } else { high });
        let change = i128::from(rate).saturating_mul(number);
        self.slope = if falls {
            self.slope.saturating_sub(change)
        } else {
            self.slope.saturating_add(change)
        };
        if low < high && cost != 0 && (cost > 0) == falls {
            self.points.push(Breakpoint {
                units: units(cost.unsigned_abs(), rate),
                weight: rate.saturating_mul(u64::from(high.abs_diff(low))),
            })?;
        }
        Ok(())
    }

    /// After how many units the slope is no longer above 0, or the most where it never is.
    pub fn units(&mut self, most: u64) -> u64 {
        self.points.sort_unstable();
        let mut slope = self.slope;
        for point in &self.points {
            slope = slope.saturating_sub(i128::from(point.weight));
            if slope <= 0 {
                return point.units.min(most);
            }
        }
        most
    }
}

// A number, negated for the other direction.
fn signed(number: i64, upwards: bool) -> i128 {
    if upwards {
        i128::from(number)
    } else {
        -i128::from(number)
    }
}

// How many whole units at a rate a cost allows, or the most.
fn units(cost: u128, rate: u64) -> u64 {
    let units = cost.checked_div(u128::from(rate)).unwrap_or(MOST_UNITS);
    units.min(MOST_UNITS) as u64
}

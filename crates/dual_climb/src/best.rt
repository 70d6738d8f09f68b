// The best multipliers so far.
ghost use Rattle.std.specs.Prelude.{◌≡◌, IfOk, length};

use std::alloc::{AllocError, Global};
use std::marker;

/// Multipliers with the greatest total so far.
#[derive(Drop)]
pub(crate) struct Best {
    total: i128,
    multipliers: Vec<i64>,
    /// No total above this is needed.
    enough: i128,
    /// What a unit of the objective counts in a total.
    scale: i128,
    /// How many offers in a row brought no more than a 64th of a unit.
    idle: u32,
}

impl marker::Model for Best {
    ghost use Rattle.std.specs.Prelude.{ℕ, length};

    ghost Value = { ℕ };

    ghost view = { λ b. length b.multipliers.items };
}

/// After so many offers without gain a climb ends.
const MOST_IDLE: u32 = 20;

impl Best {
    /// The first multipliers, and their total.
    pub fn new(
        alloc: Global,
        total: i128,
        multipliers: &[i64],
        enough: i128,
        scale: u32,
    ) -> Result<Best, AllocError>
        ensures { IfOk result (λ b. b ≡ length multipliers.now) }
    {
        Ok(Best {
            total,
            multipliers: multipliers.to_vec(alloc)?,
            enough,
            scale: i128::from(scale),
            idle: 0,
        })
    }

    /// Takes multipliers that have a greater total. Whether they had.
    pub fn offer(&mut self, total: i128, multipliers: &[i64]) -> bool
        requires { length multipliers.now ≡ self.old }
        ensures { self.new ≡ self.old }
    {
        if total <= self.total {
            return false;
        }
        self.total = total;
        self.multipliers.copy_from_slice(multipliers);
        true
    }

    /// Takes multipliers that have a greater total, and counts how long the total has hardly grown.
    pub fn try_round(&mut self, total: i128, multipliers: &[i64])
        requires { length multipliers.now ≡ self.old }
        ensures { self.new ≡ self.old }
    {
        // Totals are below 2^94.
        let gain = total.wrapping_sub(self.total);
        self.idle = if gain > self.scale.wrapping_shr(6) {
            0
        } else {
            self.idle.wrapping_add(1)
        };
        self.offer(total, multipliers);
    }

    /// The greatest total.
    pub fn total(&self) -> i128 {
        self.total
    }

    /// Whether the total is enough.
    pub fn is_enough(&self) -> bool {
        self.total > self.enough
    }

    /// Whether the total has hardly grown for long.
    pub fn is_idle(&self) -> bool {
        self.idle >= MOST_IDLE
    }

    /// Whether the total grew by less than a 50th of a unit over an earlier one.
    pub fn is_slow(&self, earlier: i128) -> bool {
        self.total.wrapping_sub(earlier).wrapping_mul(50) < self.scale
    }

    /// The multipliers.
    pub fn multipliers(&self) -> &[i64]
        ensures { length result.now ≡ self.now }
    {
        &self.multipliers
    }
}

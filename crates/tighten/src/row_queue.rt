// The rows that bound tightening has yet to look at.
ghost use Rattle.std.specs.Prelude.{◌≡◌, ◌<◌, ◌≤◌, ℕ, ℤ, All, length, replicate, slice_index_or, true, IfOk, IfSome, OnOk};
ghost use Rattle.tighten.specs.Queues.{AllWait, IsAdded, IsIdle, IsQueue, IsTaken, StillWait};

use std::alloc::{AllocError, Global};
use std::collections::VecDeque;

/// Rows in the order in which they are to be looked at, with a mark at each row that waits.
#[derive(Drop)]
pub struct RowQueue {
    rows: VecDeque<u32>,
    waits: Vec<bool>,
}

impl RowQueue {
    /// A queue for so many rows, at most 1,000, of which none waits.
    pub fn new(alloc: Global, rows: usize) -> Result<RowQueue, AllocError>
        requires { rows ≤ 1000 }
        ensures queue { IfOk result IsQueue }
        ensures count { IfOk result (λ q. length q.waits.items ≡ rows) }
        ensures idle { IfOk result IsIdle }
    {
        Ok(RowQueue {
            rows: VecDeque::with_capacity(alloc, rows)?,
            waits: vec![in alloc; false; rows]?,
        })
    }

    /// Queues all rows, the first one first. It takes no memory.
    pub fn fill(&mut self)
        requires { IsQueue self.old }
        ensures queue { IsQueue self.new }
        ensures count { length self.new.waits.items ≡ length self.old.waits.items }
        ensures marks { self.new.waits.items ≡ replicate (length self.old.waits.items) true }
        ensures all { length self.new.rows.items ≡ length self.old.waits.items }
        ensures order { (k : ℕ) → k < length self.old.waits.items → slice_index_or self.new.rows.items k 0 ≡ k }
    {
        self.rows.clear();
        for row in 0..self.waits.len() {
            self.rows.push_back_reserved(row as u32);
        }
        self.waits.fill(true);
    }

    /// Queues a row, unless it waits already. On want of memory the queue is as before.
    pub fn add(&mut self, row: u32) -> Result<(), AllocError>
        requires queue { IsQueue self.old }
        requires row { row < length self.old.waits.items }
        ensures queue { IsQueue self.new }
        ensures count { length self.new.waits.items ≡ length self.old.waits.items }
        ensures added { IsAdded row self.old result self.new }
    {
        if !self.waits[row as usize] {
            self.rows.push_back(row)?;
            self.waits[row as usize] = true;
        }
        Ok(())
    }

    /// Queues the rows of a column's terms, those that don't wait already. On want of memory some of them
    /// are queued.
    pub fn add_rows(&mut self, terms: &[(u32, i64)]) -> Result<(), AllocError>
        requires queue { IsQueue self.old }
        requires rows { All (λ (t : ℕ × ℤ). t.0 < length self.old.waits.items) terms.now }
        ensures queue { IsQueue self.new }
        ensures count { length self.new.waits.items ≡ length self.old.waits.items }
        ensures added { OnOk result (AllWait terms.now self.new) }
        ensures kept { StillWait self.old self.new }
    {
        for &(row, _) in terms {
            self.add(row)?;
        }
        Ok(())
    }

    /// The row that waits longest, which then waits no more. None where no row waits.
    pub fn take(&mut self) -> Option<u32>
        requires { IsQueue self.old }
        ensures queue { IsQueue self.new }
        ensures count { length self.new.waits.items ≡ length self.old.waits.items }
        ensures row { IfSome result (λ row. row < length self.old.waits.items) }
        ensures first { IsTaken self.old result self.new }
    {
        let row = self.rows.pop_front()?;
        self.waits[row as usize] = false;
        Some(row)
    }

    /// Lets no row wait.
    pub fn clear(&mut self)
        requires { IsQueue self.old }
        ensures queue { IsQueue self.new }
        ensures count { length self.new.waits.items ≡ length self.old.waits.items }
        ensures idle { IsIdle self.new }
    {
        self.rows.clear();
        self.waits.fill(false);
    }
}

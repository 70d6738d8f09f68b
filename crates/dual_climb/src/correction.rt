// The least-squares correction of multipliers (CGLS): the least change of the active rows' multipliers that
// makes the reduced costs of the interior columns vanish.
ghost use Rattle.std.specs.Prelude.{◌≡◌, ◌<◌, length, IfOk};

use crate::interior::Interior;
use crate::relaxation::Relaxation;
use crate::residuals::{Change, FINER_BITS, Residual, advance, images, quotient, redirect, slopes};
use crate::state::State;
use std::alloc::{AllocError, Global};
use std::marker;

/// The most rounds of a correction.
const MOST_ROUNDS: usize = 60;

/// Slopes whose squares add up to less than this are as good as none.
const LEAST_SQUARES: i128 = 1 << 12;

const MOST_TURN: i64 = 1 << 50;

/// What a correction works on, and the multipliers that it makes.
#[derive(Drop)]
pub(crate) struct Correction {
    rows: Vec<Change>,
    multipliers: Vec<i64>,
}

impl marker::Model for Correction {
    ghost use Rattle.std.specs.Prelude.{ℕ, ◌≡◌, length};

    ghost Value = { ℕ };

    ghost view = { λ c. length c.rows.items };

    ghost invariant = { λ c. length c.multipliers.items ≡ length c.rows.items };
}

impl Correction {
    /// Room for corrections.
    pub fn new(alloc: Global, relaxation: &Relaxation) -> Result<Correction, AllocError>
        ensures { IfOk result (λ c. c ≡ relaxation.now.rows) }
    {
        let row = Change {
            active: false,
            change: 0,
            slope: 0,
            direction: 0,
        };
        Ok(Correction {
            rows: vec![in alloc; row; relaxation.rows()]?,
            multipliers: vec![in alloc; 0; relaxation.rows()]?,
        })
    }

    /// The multipliers that the last correction made.
    pub fn multipliers(&self) -> &[i64]
        ensures { length result.now ≡ self.now }
    {
        &self.multipliers
    }

    /// Corrects the multipliers of a state. Whether there was something to correct.
    pub fn correct(
        &mut self,
        alloc: Global,
        relaxation: &Relaxation,
        state: &State,
    ) -> Result<bool, AllocError>
        requires size { self.old ≡ relaxation.now.rows }
        requires state { state.now ≡ relaxation.now }
        ensures { self.new ≡ self.old }
    {
        mark_rows(relaxation, state, &mut self.rows);
        let Some((interior, mut columns)) = Interior::new(alloc, relaxation, state, &self.rows)?
        else {
            return Ok(false);
        };
        if interior.count() == 0 {
            return Ok(false);
        }
        let Some(squares) = slopes(&interior, &columns, &mut self.rows) else {
            return Ok(false);
        };
        if !redirect(&mut self.rows, 0) {
            return Ok(false);
        }
        let most = most_rounds(&self.rows, interior.count());
        run(&interior, &mut columns, &mut self.rows, squares, most);
        corrected(state, &self.rows, &mut self.multipliers);
        Ok(true)
    }
}

// Marks the rows whose multipliers may change: those that count, and equations.
fn mark_rows(relaxation: &Relaxation, state: &State, rows: &mut [Change])
    requires size { length rows.old ≡ relaxation.now.rows }
    requires state { state.now ≡ relaxation.now }
    ensures { length rows.new ≡ length rows.old }
{
    for i in 0..rows.len() {
        let ends = relaxation.ends(i);
        rows[i] = Change {
            active: state.multipliers()[i] != 0 || ends.lower == ends.upper,
            change: 0,
            slope: 0,
            direction: 0,
        };
    }
}

// How many rounds are worth their while: in exact numbers the method is at its end after as many as there
// are active rows or columns, whichever are fewer. Rounding takes some more.
fn most_rounds(rows: &[Change], columns: usize) -> usize {
    let mut active: usize = 0;
    for row in rows {
        if row.active {
            active = active.wrapping_add(1);
        }
    }
    let smaller = active.min(columns).min(MOST_ROUNDS);
    (2 * smaller + 8).min(MOST_ROUNDS)
}

// The rounds of the conjugate gradient method.
fn run(
    interior: &Interior,
    columns: &mut [Residual],
    rows: &mut [Change],
    squares: i128,
    most: usize,
)
    requires columns { length columns.old ≡ interior.now.columns }
    requires rows { length rows.old ≡ interior.now.rows }
    ensures columns { length columns.new ≡ length columns.old }
    ensures rows { length rows.new ≡ length rows.old }
{
    let mut squares = squares;
    for _ in 0..most {
        match round(interior, columns, rows, squares) {
            Some(next) => squares = next,
            None => return,
        }
    }
}

// One round. The squares of the next slopes, None where there is none.
fn round(
    interior: &Interior,
    columns: &mut [Residual],
    rows: &mut [Change],
    squares: i128,
) -> Option<i128>
    requires columns { length columns.old ≡ interior.now.columns }
    requires rows { length rows.old ≡ interior.now.rows }
    ensures columns { length columns.new ≡ length columns.old }
    ensures rows { length rows.new ≡ length rows.old }
{
    if squares < LEAST_SQUARES {
        return None;
    }
    let images = images(interior, columns, rows)?;
    if images == 0 {
        return None;
    }
    let step = quotient(squares, images);
    if step == 0 || !advance(columns, rows, step) {
        return None;
    }
    let next = slopes(interior, columns, rows)?;
    let turn = quotient(next, squares);
    if turn > MOST_TURN || !redirect(rows, turn) {
        return None;
    }
    Some(next)
}

// The state's multipliers with the changes, within the limits of their rows.
fn corrected(state: &State, rows: &[Change], multipliers: &mut [i64])
    requires rows { length rows.now ≡ state.now.rows }
    requires multipliers { length multipliers.old ≡ state.now.rows }
    ensures { length multipliers.new ≡ length multipliers.old }
{
    for i in 0..rows.len() {
        let half = 1i64.wrapping_shl(FINER_BITS - 1);
        let change = rows[i].change.wrapping_add(half).wrapping_shr(FINER_BITS);
        let row = state.row(i);
        let moved = state.multipliers()[i].wrapping_add(change);
        multipliers[i] = moved.max(row.least).min(row.greatest);
    }
}

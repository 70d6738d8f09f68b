// What a correction works on: the columns whose numbers lie inside their intervals, with their terms in
// the rows whose multipliers may change side by side.
ghost use Rattle.std.specs.Prelude.{◌≡◌, ◌<◌, ◌≤◌, length, All, IfOk, IfSome, OnOk};
ghost use Rattle.dual_climb.specs.Climbs.{IsBelow, IsPart};

use crate::relaxation::{FreeColumn, Relaxation, Term, reduced_cost};
use crate::residuals::{Change, FINER_BITS, Residual};
use crate::state::State;
use std::alloc::{AllocError, Global};
use std::marker;

/// A reduced cost above this is too large to be corrected.
const MOST_REDUCED: i64 = 1 << 38;

/// The terms of a column lie from the start up to the end.
#[derive(Clone, Copy)]
pub(crate) struct Span {
    pub start: usize,
    pub end: usize,
}

/// The terms of the interior columns in the active rows.
#[derive(Drop)]
pub(crate) struct Interior {
    rows: usize,
    spans: Vec<Span>,
    terms: Vec<Term>,
}

impl marker::Model for Interior {
    ghost use Rattle.std.specs.Prelude.{length};
    ghost use Rattle.dual_climb.specs.Climbs.{Size, IsInterior};

    ghost Value = { Size };

    ghost view = { λ i. record { rows = i.rows; columns = length i.spans.items } };

    ghost invariant = { λ i. IsInterior i.rows i.spans.items i.terms.items };
}

impl Interior {
    /// The interior columns of a state, and the reduced costs that are left of them. None where a reduced
    /// cost is too large.
    pub fn new(
        alloc: Global,
        relaxation: &Relaxation,
        state: &State,
        rows: &[Change],
    ) -> Result<Option<(Interior, Vec<Residual>)>, AllocError>
        requires state { state.now ≡ relaxation.now }
        requires rows { length rows.now ≡ relaxation.now.rows }
        ensures rows { IfOk result (λ o. IfSome o (λ r. r.0.rows ≡ relaxation.now.rows)) }
        ensures columns { IfOk result (λ o. IfSome o (λ r. length r.1.items ≡ r.0.columns)) }
    {
        let mut spans = Vec::new(alloc);
        let mut terms = Vec::new(alloc);
        let mut columns = Vec::new(alloc);
        for t in 0..relaxation.count() {
            if !is_interior(relaxation.column(t), state.point()[t], state.fraction()) {
                continue;
            }
            let cost = relaxation.column(t).cost;
            let reduced = reduced_cost(relaxation.terms(t), state.multipliers(), cost);
            if reduced.wrapping_abs() > MOST_REDUCED {
                return Ok(None);
            }
            let start = terms.len();
            append_active(rows, relaxation.terms(t), &mut terms)?;
            spans.push(Span {
                start,
                end: terms.len(),
            })?;
            columns.push(Residual {
                left: reduced.wrapping_shl(FINER_BITS),
                image: 0,
            })?;
        }
        let interior = Interior {
            rows: relaxation.rows(),
            spans,
            terms,
        };
        Ok(Some((interior, columns)))
    }

    /// How many interior columns there are.
    pub fn count(&self) -> usize
        ensures { result ≡ self.now.columns }
    {
        self.spans.len()
    }

    /// The terms of interior column t in active rows.
    pub fn terms(&self, t: usize) -> &[Term]
        requires { t < self.now.columns }
        ensures { All (IsBelow self.now.rows) result.now }
    {
        let span = self.spans[t];
        &self.terms[span.start..span.end]
    }
}

// Whether a column's number, with so many bits after the point, is more than a 32nd away from both sides.
fn is_interior(column: FreeColumn, number: i64, bits: u32) -> bool {
    let margin = 1i64.wrapping_shl(bits.saturating_sub(5));
    let low = i64::from(column.low)
        .wrapping_shl(bits)
        .wrapping_add(margin);
    let high = i64::from(column.high)
        .wrapping_shl(bits)
        .wrapping_sub(margin);
    low < number && number < high
}

// Puts a column's terms in active rows behind those of the columns before it.
fn append_active(rows: &[Change], column: &[Term], terms: &mut Vec<Term>) -> Result<(), AllocError>
    requires column { All (IsBelow (length rows.now)) column.now }
    requires before { All (IsBelow (length rows.now)) terms.old.items }
    ensures longer { OnOk result (length terms.old.items ≤ length terms.new.items) }
    ensures rows { OnOk result (All (IsBelow (length rows.now)) terms.new.items) }
{
    for &term in column {
        if rows[term.row as usize].active {
            terms.push(term)?;
        }
    }
    Ok(())
}

//! Generates problems from a number: a model text, and a text of changes of it by scenarios.
#![tactic(auto)]

mod changes;
pub mod laws;
mod model;
mod parts;
#[cfg(test)]
mod tests;
mod words;

ghost use Rattle.std.specs.Prelude.{◌≡◌, ◌≤◌, length, IfOk};
ghost use Rattle.model_gen.specs.Texts.{generated_model, generated_changes};

use crate::changes::changes_text;
use crate::model::model_text;
use crate::words::{draw_words, first_word};
use std::alloc::{AllocError, Global};

/// The two texts of a generated problem.
#[derive(Drop)]
pub struct Generated {
    /// An MPS text.
    pub model: Vec<u8>,
    /// A text of the changes of each scenario.
    pub changes: Vec<u8>,
}

/// The problem that a number gives, by the 32-bit words of `Lcg64Xsh32::seed_from_u64`: 1 to 1,000 columns, at most
/// 1,000 rows and at most 64 scenarios. Column j has the bounds 0 and 9, a cost from 1 to 100 and, where there are
/// rows, the entry 1 in row j modulo their number. Each row asks for a least sum of its columns, at most 9 a column.
/// Each scenario makes three changes: of a cost, of an upper bound or, where there are rows, of a right-hand side. The
/// model has at most 250,000 bytes and the changes have at most 20,000.
pub fn generate(
    alloc: Global,
    seed: u64,
    columns: u32,
    rows: u32,
    scenarios: u32,
) -> Result<Generated, AllocError>
    requires some { 1 ≤ columns }
    requires columns { columns ≤ 1000 }
    requires rows { rows ≤ 1000 }
    requires scenarios { scenarios ≤ 64 }
    ensures model { IfOk result (λ generated. generated.model.items ≡ generated_model seed columns rows scenarios) }
    ensures changes { IfOk result (λ generated. generated.changes.items ≡ generated_changes seed columns rows scenarios) }
    ensures model_length { IfOk result (λ generated. length generated.model.items ≤ 250000) }
    ensures changes_length { IfOk result (λ generated. length generated.changes.items ≤ 20000) }
{
    let words = draw_words(alloc, seed, first_word(columns, rows, scenarios))?;
    let model = model_text(alloc, &words, columns, rows)?;
    let changes = changes_text(alloc, &words, columns, rows, scenarios)?;
    Ok(Generated { model, changes })
}

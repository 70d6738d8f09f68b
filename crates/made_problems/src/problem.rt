// A generated problem, read from its two texts.
ghost use Rattle.std.specs.Prelude.{◌≡◌, ◌≤◌, length, Ok, IfOk};
ghost use Rattle.scenario_changes.specs.Changes.{Fits};
ghost use Rattle.mps_reader.specs.MpsModels.{model_of};
ghost use Rattle.changes_reader.specs.ChangesText.{changes_of};
ghost use Rattle.made_problems.specs.Made.{HasModel, HasChanges, IsMade};

use changes_reader::{ChangesError, read_changes};
use int_model::Model;
use model_gen::generate;
use mps_reader::{MpsError, read_model};
use scenario_changes::{Changes, Problem};
use std::alloc::{AllocError, Global};

// The model of a text that has one.
fn model_in(alloc: Global, bytes: &[u8]) -> Result<Model, AllocError>
    requires short { length bytes.now ≤ 16777216 }
    requires accepted { HasModel bytes.now }
    ensures { IfOk result (λ m. model_of bytes.now ≡ Ok m) }
{
    match read_model(alloc, bytes) {
        Ok(model) => Ok(model),
        Err(MpsError::Line { line: _, kind: _ }) => unreachable!(),
        Err(MpsError::Memory) => Err(AllocError),
    }
}

// The changes of a text that has some.
fn changes_in(alloc: Global, model: &Model, bytes: &[u8]) -> Result<Changes, AllocError>
    requires short { length bytes.now ≤ 16777216 }
    requires accepted { HasChanges model.now bytes.now }
    ensures { IfOk result (λ c. (changes_of model.now bytes.now ≡ Ok c) × Fits c model.now) }
{
    match read_changes(alloc, model, bytes) {
        Ok(changes) => Ok(changes),
        Err(ChangesError::Line { line: _, kind: _ }) => unreachable!(),
        Err(ChangesError::Memory) => Err(AllocError),
    }
}

/// The problem that the two texts of `model_gen::generate` have: 1 to 1,000 columns, at most 1,000 rows and at most 64
/// scenarios. No line of the texts is refused, so only memory can be wanting.
pub fn make_problem(
    alloc: Global,
    seed: u64,
    columns: u32,
    rows: u32,
    scenarios: u32,
) -> Result<Problem, AllocError>
    requires some { 1 ≤ columns }
    requires columns { columns ≤ 1000 }
    requires rows { rows ≤ 1000 }
    requires scenarios { scenarios ≤ 64 }
    ensures { IfOk result (IsMade seed columns rows scenarios) }
{
    let texts = generate(alloc, seed, columns, rows, scenarios)?;
    let model = model_in(alloc, &texts.model)?;
    let changes = changes_in(alloc, &model, &texts.changes)?;
    Problem::new(alloc, model, changes)
}

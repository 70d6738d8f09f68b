// Steps of bound tightening that narrow a box.
ghost use Rattle.std.specs.Prelude.{◌≡◌, ◌<◌, ◌≤◌, length, true, false, OnOk};
ghost use Rattle.int_model.specs.Boxes.{is_empty};
ghost use Rattle.tighten.specs.Steps.{AreEnds};
ghost use Rattle.tighten.specs.Engines.{IsProposed, IsSettled};

use crate::Step;
use crate::engine::{Engine, MOST_STEPS};
use int_model::{Ends, Model, PointBox};
use std::alloc::{AllocError, Global};

/// Appends steps that narrow the box one after another, with the ends of each row, up to 128 steps in
/// all. No step is appended to an empty box; to another one where there is room, none exactly where no
/// step narrows it. On want of memory the list is as before.
pub fn propose(
    alloc: Global,
    model: &Model,
    ends: &[Ends],
    bounds: &PointBox,
    steps: &mut Vec<Step>,
) -> Result<(), AllocError>
    requires ends { AreEnds model.now ends.now }
    requires columns { length bounds.now ≡ length model.now.columns }
    requires few { length steps.old.items ≤ 128 }
    ensures steps { IsProposed model.now ends.now bounds.now steps.old.items result steps.new.items }
    ensures empty { is_empty bounds.now ≡ true → steps.new.items ≡ steps.old.items }
    ensures settled { IsSettled model.now ends.now bounds.now → steps.new.items ≡ steps.old.items }
    ensures narrows { OnOk result (steps.new.items ≡ steps.old.items → length steps.old.items < 128 → is_empty bounds.now ≡ false → IsSettled model.now ends.now bounds.now) }
{
    if bounds.is_empty() {
        return Ok(());
    }
    let room = MOST_STEPS - steps.len();
    let mut engine = Engine::new(alloc, model)?;
    engine.load(model, bounds);
    engine.propagate(model, ends, 20 * model.rows() as usize + 100, room)?;
    let found = engine.steps();
    let kept = found.len().min(room);
    steps.extend_from_slice(&found[..kept])?;
    Ok(())
}

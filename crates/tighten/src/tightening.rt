// Steps on a box, one or more.
ghost use Rattle.std.specs.Prelude.{◌≡◌, [], length, slice_index_or, false, All};
ghost use Rattle.int_model.specs.Boxes as boxes;
ghost use Rattle.tighten.specs.EndSums.{IsAppliedBy, IsKeptSum};
ghost use Rattle.tighten.specs.EndSums as sums;
ghost use Rattle.tighten.specs.Replay as spec;
ghost use Rattle.tighten.specs.Steps.{AreEnds, IsApplied, IsReplayed, IsStep, rows_of};

use crate::end_sum::{end_product, end_sum, left_by};
use crate::narrow::coefficient;
use crate::narrowing::Narrowing;
use crate::{RowEnd, Step};
use int_model::{Ends, Model, PointBox};

// The sum that an end of a row was compared with, over the box after the step.
#[derive(Clone, Copy)]
struct KeptSum {
    row: u32,
    side: RowEnd,
    sum: i64,
}

// The sum that a step's end is compared with: the kept one, where that is of the same end of the same row.
fn sum_for(model: &Model, step: &Step, kept: KeptSum, bounds: &PointBox) -> i64
    requires step { IsStep model.now step.now }
    requires columns { length bounds.now ≡ length model.now.columns }
    requires kept { IsKeptSum (rows_of model.now) bounds.now kept }
    ensures { result ≡ sums.end_sum (slice_index_or (rows_of model.now) step.now.row []) step.now.side bounds.now }
{
    if step.row == kept.row && step.side == kept.side {
        return kept.sum;
    }
    let _columns = model.columns();
    end_sum(model.row(step.row).terms.as_slice(), step.side, bounds)
}

// One step, by the sum that its end is compared with. That sum over the box after the step, None where the
// interval of the step's column becomes empty; the box is then unchanged.
fn apply_by(
    model: &Model,
    ends: &[Ends],
    step: &Step,
    sum: i64,
    bounds: &mut PointBox,
) -> Option<i64>
    requires ends { AreEnds model.now ends.now }
    requires step { IsStep model.now step.now }
    requires columns { length bounds.old ≡ length model.now.columns }
    requires occupied { boxes.is_empty bounds.old ≡ false }
    requires sum { sum ≡ sums.end_sum (slice_index_or (rows_of model.now) step.now.row []) step.now.side bounds.old }
    ensures { IsAppliedBy (rows_of model.now) ends.now step.now bounds.old result bounds.new }
{
    let _columns = model.columns();
    let own = coefficient(model.row(step.row).terms.as_slice(), step.column);
    let place = step.column as usize;
    let (low, high) = (bounds.lows()[place], bounds.highs()[place]);
    match left_by(ends[step.row as usize], step.side, sum, own, low, high) {
        Narrowing::Same => Some(sum),
        Narrowing::Less(first, last) => {
            bounds.set(step.column, first, last);
            let others = sum - end_product(step.side, own, low, high);
            Some(others + end_product(step.side, own, first, last))
        }
        Narrowing::Empty => None,
    }
}

/// One step on a box that isn't empty, with the ends of each row. False exactly where the interval of
/// the step's column becomes empty; the box is then unchanged. A step whose end is absent, or whose
/// row has no term of the column, changes nothing. It takes no memory.
pub fn apply(model: &Model, ends: &[Ends], step: &Step, bounds: &mut PointBox) -> bool
    requires ends { AreEnds model.now ends.now }
    requires step { IsStep model.now step.now }
    requires columns { length bounds.old ≡ length model.now.columns }
    requires occupied { boxes.is_empty bounds.old ≡ false }
    ensures { IsApplied (spec.tightened (rows_of model.now) ends.now step.now bounds.old) bounds.old result bounds.new }
{
    let _columns = model.columns();
    let sum = end_sum(model.row(step.row).terms.as_slice(), step.side, bounds);
    match apply_by(model, ends, step, sum, bounds) {
        Some(_) => true,
        None => false,
    }
}

/// The steps in order on a box, with the ends of each row. False exactly where the box is empty at the
/// call, or a step makes an interval empty. The box is unchanged in the first case, and as after the
/// steps before that one in the second. It takes no memory.
pub fn replay(model: &Model, ends: &[Ends], steps: &[Step], bounds: &mut PointBox) -> bool
    requires ends { AreEnds model.now ends.now }
    requires steps { All (IsStep model.now) steps.now }
    requires columns { length bounds.old ≡ length model.now.columns }
    ensures { IsReplayed (rows_of model.now) ends.now steps.now bounds.old result bounds.new }
{
    if bounds.is_empty() {
        return false;
    }
    // Past the last row a row has no terms, and its sums are 0.
    let mut kept = KeptSum {
        row: model.rows(),
        side: RowEnd::Upper,
        sum: 0,
    };
    for step in steps {
        let sum = sum_for(model, step, kept, bounds);
        let Some(sum) = apply_by(model, ends, step, sum, bounds) else {
            return false;
        };
        kept = KeptSum {
            row: step.row,
            side: step.side,
            sum,
        };
    }
    true
}

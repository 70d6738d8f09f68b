// The sum and the bound of a vector over a box.
ghost use Rattle.std.specs.Prelude.{◌≡◌, ◌^◌, ◌<◌, ◌≤◌, ◌+ℤ◌, pos, unsigned_abs, length};
ghost use Rattle.int_model.specs.Programs.{CostsWithin};
ghost use Rattle.int_model.specs.Integers.{ceil_div};
ghost use Rattle.dual_bounds.specs.Shared.{AreShares};
ghost use Rattle.dual_bounds.specs.Vectors.{RowsBelow, rows_of, vector_bound, vector_sum, within_range};

use crate::parts::{end_sum, least_product, reduced_cost};
use crate::shared::{least_shared, whole_end_sum};
use crate::shares::MAX_COLUMNS;
use crate::{Shares, Vector, shares};
use int_model::{Ends, Model, PointBox};

const LIMIT: i128 = 1 << 60;

/// The sum of a vector over a box, with the cost of each column and the ends of each row. Costs are to
/// be minimised. An entry whose row hasn't got the end that the multiplier's sign asks for counts for
/// nothing. It takes no memory.
///
/// Its time is in proportion to the columns and the terms of the vector's rows.
pub fn evaluate(
    model: &Model,
    costs: &[i64],
    ends: &[Ends],
    vector: &Vector,
    bounds: &PointBox,
) -> i128
    requires costs { length costs.now ≡ length model.now.columns }
    requires ends { length ends.now ≡ length model.now.rows }
    requires rows { RowsBelow (length model.now.rows) vector.now.entries }
    requires columns { length bounds.now ≡ length model.now.columns }
    ensures value { result ≡ vector_sum (rows_of model.now) ends.now costs.now vector.now bounds.now }
    ensures limit { unsigned_abs result ≤ 2 ^ 115 }
{
    let _columns = model.columns();
    let lows = bounds.lows();
    let highs = bounds.highs();
    let scale = vector.scale();
    let entries = vector.entries();
    let mut sum = end_sum(ends, entries);
    let mut shares = [0; MAX_COLUMNS];
    shares::take(model, ends, entries, &mut shares);
    for (j, &cost) in costs.iter().enumerate() {
        let reduced = reduced_cost(scale, cost, shares[j]);
        sum += least_product(reduced, lows[j], highs[j]);
    }
    sum
}

/// What [`evaluate`] answers, from shares of the vector that were summed before. It takes no memory.
///
/// Its time is in proportion to the columns, where the shares are narrow and the rows of the vector's entries
/// have all their ends; else it is that of [`evaluate`].
pub fn evaluate_with(
    shares: &Shares,
    model: &Model,
    costs: &[i64],
    ends: &[Ends],
    vector: &Vector,
    bounds: &PointBox,
) -> i128
    requires shares { AreShares model.now vector.now.entries shares.now }
    requires costs { length costs.now ≡ length model.now.columns }
    requires small { CostsWithin (10 ^ 9) costs.now }
    requires ends { length ends.now ≡ length model.now.rows }
    requires rows { RowsBelow (length model.now.rows) vector.now.entries }
    requires columns { length bounds.now ≡ length model.now.columns }
    ensures value { result ≡ vector_sum (rows_of model.now) ends.now costs.now vector.now bounds.now }
    ensures limit { unsigned_abs result ≤ 2 ^ 115 }
{
    let _columns = model.columns();
    let entries = vector.entries();
    if let Some(numbers) = shares.numbers()
        && let Some(end_sum) = whole_end_sum(ends, entries)
    {
        return end_sum + least_shared(vector.scale(), costs, numbers, bounds);
    }
    evaluate(model, costs, ends, vector, bounds)
}

// A sum over the scale, rounded up.
fn quotient(sum: i128, scale: u32) -> i128
    requires sum { unsigned_abs sum ≤ 2 ^ 115 }
    requires scale { 0 < scale }
    ensures value { result ≡ ceil_div sum (pos scale) }
    ensures limit { unsigned_abs result ≤ 2 ^ 115 }
{
    -(-sum).div_euclid(i128::from(scale))
}

// The nearest number from -2^60 up to 2^60.
fn nearest(value: i128) -> i64
    ensures value { result ≡ within_range value }
    ensures limit { unsigned_abs result ≤ 2 ^ 60 }
{
    (-LIMIT).max(LIMIT.min(value)) as i64
}

/// The bound of a vector from its sum over a box: the sum over the scale, rounded up, and the constant,
/// brought into -2^60 to 2^60.
pub fn bound_of_sum(sum: i128, scale: u32, constant: i64) -> i64
    requires sum { unsigned_abs sum ≤ 2 ^ 115 }
    requires scale { 0 < scale }
    ensures value { result ≡ within_range (ceil_div sum (pos scale) +ℤ constant) }
    ensures limit { unsigned_abs result ≤ 2 ^ 60 }
{
    nearest(quotient(sum, scale) + i128::from(constant))
}

/// The bound of a vector over a box: its sum over its scale, rounded up, and the constant, brought into
/// -2^60 to 2^60. No feasible point of the box has a value below it ([`crate::laws::bound_is_safe`]).
/// Costs and constant are to be minimised. It takes no memory.
pub fn bound(
    model: &Model,
    costs: &[i64],
    constant: i64,
    ends: &[Ends],
    vector: &Vector,
    bounds: &PointBox,
) -> i64
    requires scale { 0 < vector.now.scale }
    requires costs { length costs.now ≡ length model.now.columns }
    requires ends { length ends.now ≡ length model.now.rows }
    requires rows { RowsBelow (length model.now.rows) vector.now.entries }
    requires columns { length bounds.now ≡ length model.now.columns }
    ensures value { result ≡ vector_bound (rows_of model.now) ends.now costs.now constant vector.now bounds.now }
    ensures limit { unsigned_abs result ≤ 2 ^ 60 }
{
    let sum = evaluate(model, costs, ends, vector, bounds);
    bound_of_sum(sum, vector.scale(), constant)
}

/// What [`bound`] answers, from shares of the vector that were summed before. It takes no memory.
pub fn bound_with(
    shares: &Shares,
    model: &Model,
    costs: &[i64],
    constant: i64,
    ends: &[Ends],
    vector: &Vector,
    bounds: &PointBox,
) -> i64
    requires shares { AreShares model.now vector.now.entries shares.now }
    requires scale { 0 < vector.now.scale }
    requires costs { length costs.now ≡ length model.now.columns }
    requires small { CostsWithin (10 ^ 9) costs.now }
    requires ends { length ends.now ≡ length model.now.rows }
    requires rows { RowsBelow (length model.now.rows) vector.now.entries }
    requires columns { length bounds.now ≡ length model.now.columns }
    ensures value { result ≡ vector_bound (rows_of model.now) ends.now costs.now constant vector.now bounds.now }
    ensures limit { unsigned_abs result ≤ 2 ^ 60 }
{
    let sum = evaluate_with(shares, model, costs, ends, vector, bounds);
    bound_of_sum(sum, vector.scale(), constant)
}

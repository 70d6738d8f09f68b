// Costs of columns.
ghost use Rattle.std.specs.Prelude.{◌<◌, ◌≤◌, ◌^◌, length, unsigned_abs};
ghost use Rattle.int_model.specs.Programs.{CostsWithin};

/// The absolute cost of a column.
pub(crate) fn absolute_cost(costs: &[i64], column: usize) -> i64
    requires column { column < length costs.now }
    requires limits { CostsWithin (10 ^ 9) costs.now }
    ensures { unsigned_abs result ≤ 10 ^ 9 }
{
    costs[column].abs()
}

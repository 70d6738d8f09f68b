//! Laws of the definitions. Each function has no code, and its contract is the law.
ghost use Rattle.int_model.specs.Laws.{BoxTests, ColumnsTransposed, CutShrinks, CutSplits, EndsByTable, LimitsFit, MissedHasNone, ModelsFit, RefusesTheRest, RemovedAllows, SumsBound, SumsSplit};

/// The two parts of a cut hold each point of the box once.
pub fn cut_splits()
    ensures { CutSplits }
{}

/// Both parts of a cut have points, fewer than the box, and together as many.
pub fn cut_shrinks()
    ensures { CutShrinks }
{}

/// An empty box has no point, a single box has one, and every other box has some.
pub fn box_tests()
    ensures { BoxTests }
{}

/// Which sums a row allows, for each sense with and without a range.
pub fn ends_by_table()
    ensures { EndsByTable }
{}

/// A row that is removed allows every sum.
pub fn removed_allows()
    ensures { RemovedAllows }
{}

/// At each point of a box a row's sum lies between its least and its greatest.
pub fn sums_bound()
    ensures { SumsBound }
{}

/// A row's sum is a column's part and the sum of the other terms.
pub fn sums_split()
    ensures { SumsSplit }
{}

/// A box that a row misses has no feasible point.
pub fn missed_has_none()
    ensures { MissedHasNone }
{}

/// The terms by column are the transposed terms of the rows.
pub fn columns_transposed()
    ensures { ColumnsTransposed }
{}

/// `Model::build` refuses exactly the parts that break a limit, lack a side or share a name.
pub fn refuses_the_rest()
    ensures { RefusesTheRest }
{}

/// Within the limits the sums of rows stay within 10^18, and values within 2^60.
pub fn limits_fit()
    ensures { LimitsFit }
{}

/// The program of a model within the limits is within them.
pub fn models_fit()
    ensures { ModelsFit }
{}

// A row of the text, and what it is for.
ghost use Rattle.std.specs.Prelude.{◌≡◌, ◌≤◌, true, All, unsigned_abs};
ghost use Rattle.mps_reader.specs.ColumnNumbers.{is_objective_role};
ghost use Rattle.std.specs.Option.{ForSome};

use int_model::{Name, RowSense};

/// What a row of the text is for.
#[derive(Clone, Copy, Debug, PartialEq, Eq)]
pub(crate) enum RowRole {
    /// The first N row.
    Objective,
    /// A further N row, whose numbers are not read.
    Dropped,
    Kept(RowSense),
}

/// A row of the text, as far as it has been read.
#[derive(Drop)]
pub(crate) struct RowDraft {
    pub(crate) name: Name,
    pub(crate) role: RowRole,
    pub(crate) rhs: Option<i64>,
    pub(crate) range: Option<i64>,
    /// The last column that gave a number for this row.
    pub(crate) last_column: Option<u32>,
    pub(crate) terms: Vec<(u32, i64)>,
    ghost rhs_limit: { ForSome rhs (λ z. unsigned_abs z ≤ 1000000000000000000) },
    ghost constant_limit: { is_objective_role role ≡ true → ForSome rhs (λ z. unsigned_abs z ≤ 1000000000000000) },
    ghost range_limit: { ForSome range (λ z. unsigned_abs z ≤ 1000000000000000000) },
    ghost terms_limit: { All (λ t. unsigned_abs t.1 ≤ 1000000000) terms.items },
}

// A step of bound tightening.

/// The lower or the upper end of a row.
#[derive(Clone, Copy, Debug, PartialEq, Eq)]
pub enum RowEnd {
    Lower,
    Upper,
}

/// One step of bound tightening: an end of a row narrows the interval of a column, where the row's
/// other columns lie in the box.
#[derive(Clone, Copy, Debug, PartialEq, Eq)]
pub struct Step {
    pub row: u32,
    pub column: u32,
    pub side: RowEnd,
}

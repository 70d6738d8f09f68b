// What a row leaves of an interval.

/// What a row leaves of an interval.
#[derive(Clone, Copy, Debug, PartialEq, Eq)]
pub enum Narrowing {
    /// All of it.
    Same,
    /// The numbers from the first to the second, which are fewer.
    Less(i32, i32),
    /// None of it.
    Empty,
}

// What a certificate shows of a scenario.

/// What the steps and the vectors of a certificate show of a scenario at a box.
#[derive(Clone, Copy, Debug, PartialEq, Eq)]
pub enum Verdict {
    /// The replay of the steps is empty.
    Empty,
    /// This row's sum lies outside its ends everywhere in the replay.
    Misses(u32),
    /// This vector has the scale 0 and a positive sum over the replay (a Farkas proof).
    Farkas(u32),
    /// The bound of this vector over the replay.
    Bound(u32),
    /// The replay is one point.
    Point,
}

// What a dive answers.
use int_model::{Point, PointBox};

/// The answer of a dive.
#[derive(Drop)]
pub enum Dive {
    /// A feasible point of the box.
    Point(Point),
    /// A part of the box, which holds points, and a row that none of them meets.
    Stuck { bounds: PointBox, row: u32 },
}

// What is worked on at a node, and what is made of it.
use crate::Cuts;
use certs::{Cert, Levels, Vectors, Verdicts};
use int_model::{NearPoint, PointBox};
use live_sets::LiveSet;
use std::sync::Arc;

/// What a parent leaves for the work at its children: vectors of multipliers and a point to start from.
/// It counts for speed alone. No contract sees it, and any hint may be handed in.
#[derive(Drop)]
pub struct Hint {
    pub vectors: Vectors,
    pub near: NearPoint,
}

/// A node that is worked on. Box and levels are shared with whoever handed the node out; contracts see
/// their values, and neither the hint nor the cuts.
#[derive(Drop)]
pub struct Work {
    pub node: u32,
    /// The box of the node.
    pub bounds: Arc<PointBox>,
    /// The scenarios that are live there.
    pub live: LiveSet,
    /// A level for each scenario of the problem. That of a scenario that isn't live counts for nothing.
    pub levels: Arc<Levels>,
    /// None at the root, and where the hint was lost.
    pub hint: Option<Arc<Hint>>,
    /// A hint too: the values that were to be undercut when the work was handed out. It may be empty.
    pub cuts: Cuts,
}

/// What becomes of a node.
#[derive(Drop)]
pub enum Outcome {
    /// No scenario stays.
    Close,
    /// The scenarios of `stay` go on in two children, whose boxes have at most `value` and at least
    /// `value + 1` in the column.
    Split {
        stay: LiveSet,
        column: u32,
        value: i32,
        left: Arc<PointBox>,
        right: Arc<PointBox>,
        left_levels: Arc<Levels>,
        right_levels: Arc<Levels>,
        left_hint: Option<Arc<Hint>>,
        right_hint: Option<Arc<Hint>>,
    },
}

/// What is made of a node: the certificate, a verdict for each live scenario, in rising order of these,
/// and what becomes of the node.
#[derive(Drop)]
pub struct Settlement {
    pub work: Work,
    pub cert: Cert,
    pub verdicts: Verdicts,
    pub outcome: Outcome,
}

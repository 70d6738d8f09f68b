// What a probe tells.
use bb_core::Hint;
use branching::Branch;
use certs::{Cert, Verdicts};
use int_model::Point;
use std::sync::Arc;

/// What is found out at a node: a certificate, a verdict for each live scenario in rising order of these,
/// and feasible points of scenarios.
#[derive(Drop)]
pub struct Probe {
    pub cert: Cert,
    pub verdicts: Verdicts,
    pub found: Vec<(u32, Point)>,
    /// A hint where the node's box is split. It counts for speed alone, and may be any.
    pub split: Option<Branch>,
    /// A hint for the work at the children. It counts for speed alone too.
    pub hint: Option<Arc<Hint>>,
}

//! Gates: places where a test may hold the workers of a run, to see that they work side by side.
//!
//! A worker passes its run's gate between its turns at the shared tree, and holds no lock there. A gate
//! has no meaning: whatever it does, the answers of a run that returns are right.
#![tactic(auto)]

use std::sync::Wait;

/// Where a worker stands.
#[derive(Clone, Copy, Debug, PartialEq, Eq)]
pub enum GatePoint {
    /// It has claimed a node, and hasn't begun to work on it.
    Claimed,
    /// It is done with the node, and hasn't settled it.
    Settling,
}

/// Called by each worker where it stands at one of these points. The call may wait.
pub trait Gate {
    fn at<R: Wait + Sync>(&self, rt: &R, worker: u32, point: GatePoint);
}

/// A gate that is always open: it returns at once.
#[derive(Drop)]
pub struct OpenGate;

impl Gate for OpenGate {
    fn at<R: Wait + Sync>(&self, _rt: &R, _worker: u32, _point: GatePoint) {}
}

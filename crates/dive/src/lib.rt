//! Dives: heuristic searches for a feasible point of a scenario in a box.
//!
//! A dive fixes one column after the other and tightens the box by the rows in between. What is promised
//! is that a point that is found is feasible, and that otherwise there is a part of the box that a row
//! misses; how often a point is found, and how good it is, is no matter of the contract.
#![tactic(auto)]

mod conclusion;
mod costs;
mod diver;
mod diving;
mod improving;
mod moves;
mod outcome;
mod plan;
mod ranking;
mod rounding;

pub use diving::{dive, dive_near};
pub use outcome::Dive;

#[cfg(test)]
mod tests;

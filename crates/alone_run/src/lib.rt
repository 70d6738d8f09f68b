//! The run of one worker on one shared tree: claim a node, make a turn of it, settle, until no node is
//! left, and then the claims on all scenarios.
//!
//! `specs/Turns.antt` defines what a turn makes of a node, and `specs/Runs.antt` what a run ends with.
#![tactic(auto)]

mod claims;
mod run;
mod turning;

pub use run::{Ended, lower_caps, run_alone};
pub use turning::turn;

#[cfg(test)]
mod tests;

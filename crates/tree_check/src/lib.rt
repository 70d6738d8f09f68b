//! The checker of proof logs: its yes needs no trust in any solver.
//!
//! [`check`] walks through the nodes of a log, derives the place of each from the nodes before it, judges
//! what it records by `certs`, and compares the levels at the ends with the claims. It uses nothing of a
//! solver.
//!
//! `specs/Checks.antt` defines what is answered and when.
#![tactic(auto)]

mod arrival;
mod checking;
mod claims;
mod handing;
mod judging;
pub mod laws;
mod scratch;
mod walk;

pub use checking::{CheckError, check};

#[cfg(test)]
mod tests;

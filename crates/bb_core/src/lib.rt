//! What is worked on at a node of a branch-and-bound search, and what is made of it; when that may be
//! recorded, and when a tree in the making has lost no point that is still wanted.
//!
//! `specs/Settlements.antt` defines when a settlement is lawful, and `specs/Coverage.antt` what a tree of
//! closed, open and held nodes covers. `laws` has what is proved of these definitions.
#![tactic(auto)]

mod cuts;
pub mod laws;
mod work;

pub use cuts::Cuts;
pub use work::{Hint, Outcome, Settlement, Work};

#[cfg(test)]
mod tests;

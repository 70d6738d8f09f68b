//! The pool of open nodes: the shared tree of a branch-and-bound search, from which nodes are claimed
//! and in which what is made of them is recorded.
//!
//! A [`Pool`] keeps what the answers of a search follow from: its nodes are a search tree, and no
//! feasible point that would be better than the caps is lost. It judges each settlement again before it
//! records it, so nobody who claims nodes has to be trusted.
//!
//! `specs/Pooled.antt` has a pool as contracts see it, `specs/Claims.antt` what a claim and a settlement
//! answer, `specs/Agenda.antt` which node comes first in each block of nodes, and `specs/Ends.antt` the
//! least level over the ends of a scenario.
#![tactic(auto)]

mod agenda;
mod boxes;
mod lawful;
mod levels;
mod members;
mod pool;
mod scan;
mod scratch;
mod slot;

pub use boxes::is_same_box;
pub use lawful::passes;
pub use levels::{are_same, reaches};
pub use pool::{Claim, Pool, Settled};
pub use scratch::Scratch;

#[cfg(test)]
mod tests;

//! Certificates of a branch-and-bound search: what may be recorded of a box, and which lower bound on
//! the values of a scenario's feasible points that proves; and the search tree of what was recorded.
//!
//! `specs/Verdicts.antt` defines when a verdict is valid and its level, `specs/Trees.antt` what a search
//! tree is and where the search of a scenario ends, and `specs/Claims.antt` which answers a tree proves.
//! `laws` has what is proved of these definitions.
#![tactic(auto)]

mod arriving;
mod cert;
mod judging;
pub mod laws;
mod level;
mod lists;
mod raising;
mod start;
mod stayers;
mod tree;
mod vector_shares;
mod verdict;

pub use arriving::{children_levels, start_levels};
pub use cert::Cert;
pub use judging::{bound_level, farkas_level, judge, replay_at};
pub use level::Level;
pub use lists::{Levels, Steps, Vectors, Verdicts};
pub use raising::raise;
pub use start::start_level;
pub use stayers::{are_live, hull_stayers, is_member, is_stayer, live_level, missed_row, rising};
pub use tree::{Node, Tree};
pub use vector_shares::VectorShares;
pub use verdict::Verdict;

#[cfg(test)]
mod tests;

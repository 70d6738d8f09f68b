//! The plain search for right answers: each scenario by itself, by a list of open boxes of which each is closed or
//! cut in two. It is the reference that the search on one shared tree is compared with, and is never tuned.
//!
//! `specs/Searches.antt` defines what the search keeps.
#![tactic(auto)]

mod search;

pub use search::{answer_of, answers_of};

#[cfg(test)]
mod tests;

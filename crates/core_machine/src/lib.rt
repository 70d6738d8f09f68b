//! Branch and bound by many actors, as a machine that takes one event at a time.
//!
//! A [`State`] has a search tree in the making, from which actors claim nodes, and into which they settle
//! what they make of them; for each scenario a word, the least value that was offered; and caps, the
//! pool's and each actor's own, by which it is judged whether a node may be closed. Each actor works with
//! caps that may be stale, and nothing is said of who does what when.
//!
//! The machine is `specs/Machine.antt` of `bb_core`. `bb_core::laws::every_interleaving` says what holds
//! after each list of events that it allows: no better feasible point is lost, and where no node is open
//! or held the words are the optima. The tests of a settlement are those of `open_pool`, and [`laws`] says
//! when a pool is a part of a state, and which events its calls are.
#![tactic(auto)]

mod caps;
mod event;
mod judging;
pub mod laws;
mod slot;
mod slots;
mod state;

pub use event::{Event, StepError};
pub use state::State;

#[cfg(test)]
mod tests;

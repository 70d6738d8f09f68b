//! Incumbent words: for each scenario the least value of the feasible points found so far, in one atomic
//! word that all threads share. No call waits for another thread.
//!
//! `specs/Rule.antt` has the rule that holds between any two steps of any threads. The rule says how the
//! words and the views of all seats fit together; each step's contract says what it tells its own seat.
#![tactic(auto)]

mod code;
mod seat;
mod view;
mod words;

pub use code::beats;
pub use seat::WordSeat;
pub use view::View;
pub use words::Words;

#[cfg(test)]
mod tests;

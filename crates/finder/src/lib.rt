//! Finders: the best feasible point that a thread has found for each scenario, kept beside the thread's
//! seat of the incumbent words.
//!
//! A finder's type keeps that each own least offer is the value of the kept point, and that this point is
//! feasible. Through finders nothing but values of feasible points comes into the words.
#![tactic(auto)]

mod finder;
mod points;

pub use finder::Finder;
pub use points::BestPoints;

#[cfg(test)]
mod tests;

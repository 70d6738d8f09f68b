//! Generated problems, which their readers always accept.
#![tactic(auto)]

pub mod laws;
mod problem;
#[cfg(test)]
mod tests;

pub use problem::make_problem;

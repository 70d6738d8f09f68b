//! Scenarios of one integer model: what each changes, and the problem that they are.
#![tactic(auto)]

mod answer;
mod change;
mod changes;
mod error;
mod feasible;
mod numbers;
mod problem;
mod root;

pub use answer::{Answer, Answers};
pub use changes::Changes;
pub use error::ChangeError;
pub use problem::Problem;

#[cfg(test)]
mod tests;

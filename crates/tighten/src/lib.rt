//! Bound tightening as steps that can be repeated: each end of a row narrows the interval of a column.
#![tactic(auto)]

mod end_sum;
mod engine;
pub mod laws;
mod narrow;
mod narrowing;
mod proposal;
mod row_queue;
mod slack;
mod step;
mod sums;
mod tightening;

pub use engine::Engine;
pub use proposal::propose;
pub use step::{RowEnd, Step};
pub use tightening::{apply, replay};

#[cfg(test)]
mod tests;

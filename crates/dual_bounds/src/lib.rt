//! Safe dual bounds (Lagrangian bounds) from whole-number multipliers of rows.
//!
//! A contract sees a vector as its scale and its entries. `specs/Vectors.antt` defines the sum and the
//! bound of a vector over a box, and `laws` has what is proved of them.
#![tactic(auto)]

mod bounding;
pub mod laws;
mod parts;
mod shared;
mod shares;
mod vector;

pub use bounding::{bound, bound_of_sum, bound_with, evaluate, evaluate_with};
pub use parts::{counting_multiplier, end_product, least_product, side};
pub use shared::Shares;
pub use vector::{Vector, VectorError};

#[cfg(test)]
mod tests;

//! Good start vectors of multipliers for one scenario of a problem in a box: augmented-Lagrangian
//! coordinate descent in fixed point, with a least-squares correction (CGLS) of the multipliers.
//!
//! What comes out is a start for a search of bounds. Its quality is measured and not proved.
#![tactic(auto)]

mod best;
mod climbing;
mod correction;
mod entries;
mod interior;
mod pass;
mod penalties;
mod points;
mod relaxation;
mod residuals;
mod row;
mod state;
mod sums;

pub use climbing::climb;

#[cfg(test)]
mod tests;

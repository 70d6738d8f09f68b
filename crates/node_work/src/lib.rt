//! The work at a node of a branch-and-bound search, for all of its live scenarios at once: tighten the
//! box, bound it, find points, judge, and decide which scenarios stay and where the box is split.
//!
//! `specs/Probes.antt` defines a good probe and what it promises of multipliers, and
//! `specs/Stayers.antt` which scenarios stay.
#![tactic(auto)]

mod bounding;
mod climbs;
mod deciding;
mod dives;
mod findings;
mod hints;
mod multipliers;
mod peeling;
mod probing;
mod remaining;
mod splits;
mod standings;
mod starts;
mod stayers;
mod steps;
mod verdicts;
mod wide;

pub use deciding::decide;
pub use findings::Probe;
pub use probing::probe;

#[cfg(test)]
mod tests;

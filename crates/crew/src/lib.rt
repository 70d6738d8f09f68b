//! The crew: many workers on one shared tree.
//!
//! The pool of nodes lies under a lock, beside a seat of the incumbent words that takes in what the workers
//! note. A worker claims a node under the lock, makes a turn of it without the lock, and settles it under
//! the lock again. If the run returns, it ends with what a run of one worker promises.
//!
//! `specs/Shares.antt` defines what the lock keeps, and `specs/Crews.antt` what a crew's run ends with.
#![tactic(auto)]

mod finders;
mod lock;
mod run;
mod shared;
mod work;

pub use finders::finders_of;
pub use run::{Run, run_crew};
pub use shared::SharedPool;

#[cfg(test)]
mod tests;

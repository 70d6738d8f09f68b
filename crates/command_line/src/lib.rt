//! The command that the words of a command line are.
#![tactic(auto)]

mod command;
mod options;
mod parts;
#[cfg(test)]
mod tests;
mod words;

pub use command::{Command, UsageError};
pub use words::read_words;

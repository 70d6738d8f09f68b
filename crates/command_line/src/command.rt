// The commands of the program.
use thiserror::Error;

/// What the program is asked to do.
#[derive(Clone, Copy, Debug, PartialEq, Eq)]
pub enum Command<'w> {
    /// Solve each scenario that a file makes of the model in another, or without changes the model
    /// by itself, and keep a log where a file for it is named.
    Solve {
        model: &'w str,
        changes: Option<&'w str>,
        workers: u32,
        nodes: u32,
        log: Option<&'w str>,
    },
    /// Check that a log proves the answers that it claims.
    Check {
        model: &'w str,
        changes: Option<&'w str>,
        log: &'w str,
    },
    /// Generate a problem and solve it.
    Gen {
        seed: u64,
        columns: u32,
        rows: u32,
        scenarios: u32,
    },
}

/// The words are no command.
#[derive(Clone, Copy, Debug, PartialEq, Eq, Error)]
#[error("no command")]
pub struct UsageError;

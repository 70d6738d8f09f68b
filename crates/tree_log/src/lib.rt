//! The proof log of a search: the claims on the scenarios and the search tree that shows them, as a text
//! with one spelling. [`write_log`] writes it. [`read_log`] reads the texts of logs and no others, and of another
//! text it tells the first line that no log has there.
//!
//! `specs/LogText.antt` defines the text of a log file, `specs/HasText.antt` which log files have one, and
//! `specs/Logs.antt` which bytes are a log and where others go wrong.
#![tactic(auto)]

mod cert_lines;
mod certificates;
mod claim_lines;
mod claims;
mod draft;
mod fault;
mod file;
pub mod laws;
mod limits;
mod node_lines;
mod nodes;
mod numbers;
mod reader;
mod source;
mod words;
mod writer;

pub use fault::{LogError, LogKind};
pub use file::LogFile;
pub use reader::read_log;
pub use writer::write_log;

#[cfg(test)]
mod tests;

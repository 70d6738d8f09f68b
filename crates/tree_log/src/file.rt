// What a log says.

use certs::Tree;
use scenario_changes::Answers;

/// What a log says: the counts of columns and rows, the claims on the scenarios, and the search tree.
#[derive(Drop)]
pub struct LogFile {
    pub columns: u32,
    pub rows: u32,
    pub answers: Answers,
    pub tree: Tree,
}

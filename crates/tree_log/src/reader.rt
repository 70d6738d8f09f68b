// Reads a log.
ghost use Rattle.std.specs.Prelude.{◌≡◌, ◌≤◌, length};
ghost use Rattle.tree_log.specs.Drafts as drafts;
ghost use Rattle.tree_log.specs.Logs.{IsLogOf};
ghost use Rattle.tree_log.specs.Readings.{IsReading, IsReadAs};

use crate::LogFile;
use crate::draft::{Draft, Part, take_line};
use crate::fault::{Fault, LogError, LogKind};
use crate::source::{Words, cut_line};
use certs::Tree;
use scenario_changes::Answers;
use std::alloc::Global;

// The log whose last line was read, where nothing stands behind that line.
fn finished(draft: Draft, rest: &[u8]) -> Option<LogFile>
    ensures { result ≡ drafts.finished (drafts.draft_of draft) rest.now }
{
    if !rest.is_empty() {
        return None;
    }
    let Draft {
        counts,
        answers,
        tree,
        part,
    } = draft;
    match part {
        Part::Ended => Some(LogFile {
            columns: counts.columns,
            rows: counts.rows,
            answers: Answers::from_vec(answers),
            tree: Tree::from_vec(tree),
        }),
        _ => None,
    }
}

// The log whose text the bytes are, or the first line that offends.
fn read_lines(alloc: Global, bytes: &[u8]) -> Result<LogFile, LogError>
    requires { length bytes.now ≤ 1073741824 }
    ensures { IsReading bytes.now result }
{
    let mut draft = Draft::new(alloc);
    let mut rest = bytes;
    let mut line: u32 = 0;
    while let Some((text, behind)) = cut_line(rest) {
        line += 1;
        draft = match take_line(alloc, draft, Words::new(text)) {
            Ok(next) => next,
            Err(Fault::Spelling) => {
                return Err(LogError::Line {
                    line,
                    kind: LogKind::Spelling,
                });
            }
            Err(Fault::Memory) => return Err(LogError::Memory),
        };
        rest = behind;
    }
    match finished(draft, rest) {
        Some(log) => Ok(log),
        None => Err(LogError::Line {
            line: line + 1,
            kind: LogKind::NoEnd,
        }),
    }
}

/// The log whose text some bytes, at most 1,073,741,824, are.
///
/// Where they are none, the answer is the first line that no log has behind the lines before it, counted from 1;
/// lines are those that end with a line feed. Where each line can stand where it does, but bytes follow the last
/// line feed or the log isn't at its end, it is [`LogKind::NoEnd`] at one more than the number of lines.
pub fn read_log(alloc: Global, bytes: &[u8]) -> Result<LogFile, LogError>
    requires { length bytes.now ≤ 1073741824 }
    ensures answer { IsReading bytes.now result }

    // Each log is read, and as the one that it is.
    ensures again { (f : LogFile) → IsLogOf f bytes.now → IsReadAs f result }
{
    read_lines(alloc, bytes)
}

#[cfg(test)]
mod tests;

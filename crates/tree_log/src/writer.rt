// The text of a log.
ghost use Rattle.std.specs.Prelude.{◌≡◌, ◌++◌, length, IfOk, OnOk};
ghost use Rattle.tree_log.specs.LogText.{size_line, first_line, log_text};
ghost use Rattle.tree_log.specs.Logs.{file_of};
ghost use Rattle.tree_log.specs.Laws.{IsReadable};

use crate::claims::push_claims;
use crate::limits::keep_limits;
use crate::nodes::push_nodes;
use crate::words::push_count;
use certs::Tree;
use scenario_changes::{Answers, Problem};
use std::alloc::{AllocError, Global};

// Appends the line of the counts.
#[tactic(auto, unfolding(crate::specs::LogText::size_line))]
fn push_size(
    out: &mut Vec<u8>,
    problem: &Problem,
    answers: &Answers,
    tree: &Tree,
) -> Result<(), AllocError>
    ensures { OnOk result (out.new.items ≡ out.old.items ++ size_line (file_of problem.now answers.now tree.now)) }
{
    out.extend_from_slice(b"size")?;
    push_count(out, answers.len())?;
    push_count(out, problem.model().columns() as usize)?;
    push_count(out, problem.model().rows() as usize)?;
    push_count(out, tree.len())?;
    out.push(b'\n')?;
    Ok(())
}

/// The log of claims on the scenarios of a problem and of a search tree, with the problem's counts of columns
/// and rows. It is a log that can be read again where every number and count keeps its range
/// (`specs/HasText.antt`), as they do where the tree shows the claims.
#[tactic(auto, unfolding(crate::specs::LogText::log_text, crate::specs::LogText::first_line, crate::specs::LogText::last_line))]
pub fn write_log(
    alloc: Global,
    problem: &Problem,
    answers: &Answers,
    tree: &Tree,
) -> Result<Vec<u8>, AllocError>
    ensures text { IfOk result (λ text. text.items ≡ log_text (file_of problem.now answers.now tree.now)) }
    ensures again { IfOk result (λ _. IsReadable problem.now answers.now tree.now) }
{
    // These calls tell that the problem and the vectors keep their limits.
    let _count = problem.count();
    keep_limits(tree.as_slice());
    let mut out = Vec::new(alloc);
    out.extend_from_slice(b"scenlog 1\n")?;
    push_size(&mut out, problem, answers, tree)?;
    push_claims(&mut out, answers.as_slice())?;
    push_nodes(&mut out, tree.as_slice())?;
    out.extend_from_slice(b"end\n")?;
    Ok(out)
}

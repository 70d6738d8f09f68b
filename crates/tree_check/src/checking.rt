// The check of a log.
ghost use Rattle.std.specs.Prelude.{◌≡◌, true, false};
ghost use Rattle.scenario_changes.specs.Problems.{problem as posed};
ghost use Rattle.tree_check.specs.Checks.{HasCounts, IsChecked};
ghost use Rattle.tree_check.specs.declared.checking.CheckError.TheVariants as refused;

use crate::claims::{wrong_bound, wrong_point};
use crate::walk::walk;
use scenario_changes::{Answers, Problem};
use std::alloc::{AllocError, Global};
use thiserror::Error;
use tree_log::LogFile;

/// Why a log isn't accepted: the first of these that applies, in this order.
#[derive(Clone, Copy, Debug, PartialEq, Eq, Error)]
pub enum CheckError {
    /// The node isn't right: it is handed no place or several, or what it records isn't valid at its place.
    /// Node 0 too where the log's counts of columns, rows or scenarios aren't the problem's, where it has no
    /// node, or more than numbers of 32 bits.
    #[error("node {node} is not right")]
    Shape { node: u32 },
    /// The level of the scenario at the node, an end for it, is below the level that is claimed.
    #[error("the level of scenario {scenario} at node {node} is below its claim")]
    Level { node: u32, scenario: u32 },
    /// The claimed point isn't feasible, or hasn't the claimed value.
    #[error("the point of scenario {scenario} is wrong")]
    PointWrong { scenario: u32 },
    /// The claimed bound isn't below the claimed value.
    #[error("the claim on scenario {scenario} is wrong")]
    ClaimWrong { scenario: u32 },
    /// No memory was left.
    #[error("out of memory")]
    Memory,
}

impl From<AllocError> for CheckError {
    ghost from_gives = { λ _ error. error ≡ refused.Memory };

    fn from(_: AllocError) -> Self {
        CheckError::Memory
    }
}

// Whether the log's counts are the problem's, and each node has a number.
fn has_counts(problem: &Problem, log: &LogFile) -> bool
    ensures yes { result ≡ true → HasCounts (posed problem.now) log.now }
    ensures no { result ≡ false → HasCounts (posed problem.now) log.now → ⊥ }
{
    log.columns == problem.model().columns()
        && log.rows == problem.model().rows()
        && log.answers.len() == problem.count() as usize
        && log.tree.len() > 0
        && log.tree.len() <= u32::MAX as usize
}

/// Checks that a log's nodes are a search tree of the problem that shows its claims, and gives these.
///
/// Ok comes exactly where the log is accepted; each claim is then a right answer. The time is in
/// proportion to the certificates. The memory is in proportion to the number of nodes and to the boxes of
/// those that wait.
pub fn check(alloc: Global, problem: &Problem, log: LogFile) -> Result<Answers, CheckError>
    ensures { IsChecked (posed problem.now) log result }
{
    // This call tells that the problem keeps the limits.
    let _count = problem.count();
    if !has_counts(problem, &log) {
        return Err(CheckError::Shape { node: 0 });
    }
    let LogFile { answers, tree, .. } = log;
    let below = walk(alloc, problem, answers.as_slice(), tree.as_slice())?;
    if let Some((node, scenario)) = below {
        return Err(CheckError::Level { node, scenario });
    }
    if let Some(scenario) = wrong_point(problem, answers.as_slice()) {
        return Err(CheckError::PointWrong { scenario });
    }
    if let Some(scenario) = wrong_bound(problem, answers.as_slice()) {
        return Err(CheckError::ClaimWrong { scenario });
    }
    Ok(answers)
}

// Reads the lines of a split.
ghost use Rattle.std.specs.Prelude.{◌≡◌};
ghost use Rattle.tree_log.specs.LineWords as spec;
ghost use Rattle.tree_log.specs.Reads.{Reads};

use crate::fault::Fault;
use crate::numbers::{below, point_number};
use crate::source::{Words, behind};
use live_sets::LiveSet;

const MAX_SCENARIOS: u32 = 64;

/// What the first line of a split says.
#[derive(Clone, Copy)]
pub(crate) struct SplitHead {
    pub(crate) child: u32,
    pub(crate) column: u32,
    pub(crate) value: i32,
}

// The root is no child.
fn head_at(child: u32, column: u32, value: i32) -> Option<SplitHead>
    ensures { result ≡ spec.head_at child column value }
{
    if child == 0 {
        return None;
    }
    Some(SplitHead {
        child,
        column,
        value,
    })
}

// A first child above 0 with another node behind it, a column and a value.
fn head_of(columns: u32, nodes: u32, child: &[u8], column: &[u8], value: &[u8]) -> Option<SplitHead>
    ensures { result ≡ spec.head_of columns nodes child.now column.now value.now }
{
    let child = below(nodes.saturating_sub(1), child)?;
    let column = below(columns, column)?;
    let value = point_number(value)?;
    head_at(child, column, value)
}

/// Reads what stands behind the word of a split.
pub(crate) fn read_head(columns: u32, nodes: u32, mut words: Words<'_>) -> Result<SplitHead, Fault>
    ensures { Reads (spec.heads_of columns nodes words.entry) result }
{
    let child = words.next().ok_or(Fault::Spelling)?;
    let column = words.next().ok_or(Fault::Spelling)?;
    let value = words.next().ok_or(Fault::Spelling)?;
    if words.next().is_some() {
        return Err(Fault::Spelling);
    }
    head_of(columns, nodes, child, column, value).ok_or(Fault::Spelling)
}

fn read_some_stay(scenarios: u32, mut words: Words<'_>) -> Result<LiveSet, Fault>
    ensures { Reads (spec.some_stay scenarios words.entry) result }
{
    let limit = scenarios.min(MAX_SCENARIOS);
    let mut stay = LiveSet::none();
    let mut least = 0;
    while let Some(word) = words.next() {
        let scenario = below(limit, word).ok_or(Fault::Spelling)?;
        if scenario < least {
            return Err(Fault::Spelling);
        }
        stay.insert(scenario);
        least = scenario + 1;
    }
    if stay.is_empty() {
        Err(Fault::Spelling)
    } else {
        Ok(stay)
    }
}

/// Reads the scenarios that stay: one or more, in rising order.
pub(crate) fn read_stay(scenarios: u32, words: Words<'_>) -> Result<LiveSet, Fault>
    ensures { Reads (spec.stay_of scenarios words.entry) result }
{
    let words = behind(b"stay", words)?;
    read_some_stay(scenarios, words)
}

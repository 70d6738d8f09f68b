// Reads the lines of a certificate.
ghost use Rattle.std.specs.Prelude.{◌≡◌};
ghost use Rattle.tree_log.specs.LineWords as spec;
ghost use Rattle.tree_log.specs.Reads.{Reads};

use crate::fault::{Fault, push};
use crate::numbers::{below, within};
use crate::source::{Words, behind};
use certs::{Steps, Verdict, Verdicts};
use dual_bounds::{Vector, VectorError};
use std::alloc::Global;
use tighten::{RowEnd, Step};

const PAST_STEPS: u32 = 129;

const PAST_ENTRIES: u32 = 129;

const PAST_SCALE: u32 = (1 << 20) + 1;

const MAX_MULTIPLIER: u64 = 1 << 40;

const PAST_VECTORS: u32 = 10;

fn end_of(word: &[u8]) -> Option<RowEnd>
    ensures { result ≡ spec.end_of word.now }
{
    if word == b"L".as_slice() {
        return Some(RowEnd::Lower);
    }
    if word == b"U".as_slice() {
        return Some(RowEnd::Upper);
    }
    None
}

fn step_of(columns: u32, rows: u32, row: &[u8], column: &[u8], side: &[u8]) -> Option<Step>
    ensures { result ≡ spec.step_of columns rows row.now column.now side.now }
{
    let row = below(rows, row)?;
    let column = below(columns, column)?;
    let side = end_of(side)?;
    Some(Step { row, column, side })
}

// A count below a limit.
fn read_count(limit: u32, word: &[u8]) -> Result<u32, Fault>
    ensures { Reads (spec.below_of limit word.now) result }
{
    below(limit, word).ok_or(Fault::Spelling)
}

fn read_counted_steps(
    alloc: Global,
    columns: u32,
    rows: u32,
    mut words: Words<'_>,
) -> Result<Steps, Fault>
    ensures { Reads (spec.counted_steps columns rows words.entry) result }
{
    let word = words.next().ok_or(Fault::Spelling)?;
    let count = read_count(PAST_STEPS, word)?;
    let mut steps = Vec::new(alloc);
    while let Some(row) = words.next() {
        let column = words.next().ok_or(Fault::Spelling)?;
        let side = words.next().ok_or(Fault::Spelling)?;
        let step = step_of(columns, rows, row, column, side).ok_or(Fault::Spelling)?;
        push(&mut steps, step)?;
    }
    if steps.len() == count as usize {
        Ok(Steps::from_vec(steps))
    } else {
        Err(Fault::Spelling)
    }
}

/// Reads the steps.
pub(crate) fn read_steps(
    alloc: Global,
    columns: u32,
    rows: u32,
    words: Words<'_>,
) -> Result<Steps, Fault>
    ensures { Reads (spec.steps_of columns rows words.entry) result }
{
    let words = behind(b"steps", words)?;
    read_counted_steps(alloc, columns, rows, words)
}

fn entry_of(rows: u32, row: &[u8], multiplier: &[u8]) -> Option<(u32, i64)>
    ensures { result ≡ spec.entry_of rows row.now multiplier.now }
{
    let row = below(rows, row)?;
    let multiplier = within(MAX_MULTIPLIER, multiplier)?;
    Some((row, multiplier))
}

// The vector of these parts.
fn vector_of(alloc: Global, scale: u32, entries: &[(u32, i64)]) -> Result<Vector, Fault>
    ensures { Reads (spec.multipliers_of scale entries.now) result }
{
    match Vector::new(alloc, scale, entries) {
        Ok(vector) => Ok(vector),
        Err(VectorError::Memory) => Err(Fault::Memory),
        Err(_) => Err(Fault::Spelling),
    }
}

fn read_entries(
    alloc: Global,
    rows: u32,
    scale: u32,
    count: u32,
    mut words: Words<'_>,
) -> Result<Vector, Fault>
    ensures { Reads (spec.entries_read rows scale count words.entry) result }
{
    let mut entries = Vec::new(alloc);
    while let Some(row) = words.next() {
        let multiplier = words.next().ok_or(Fault::Spelling)?;
        let entry = entry_of(rows, row, multiplier).ok_or(Fault::Spelling)?;
        push(&mut entries, entry)?;
    }
    if entries.len() == count as usize {
        vector_of(alloc, scale, &entries)
    } else {
        Err(Fault::Spelling)
    }
}

/// Reads what stands behind the word of a vector.
pub(crate) fn read_counted_vector(
    alloc: Global,
    rows: u32,
    mut words: Words<'_>,
) -> Result<Vector, Fault>
    ensures { Reads (spec.counted_vector rows words.entry) result }
{
    let first = words.next().ok_or(Fault::Spelling)?;
    let second = words.next().ok_or(Fault::Spelling)?;
    let scale = read_count(PAST_SCALE, first)?;
    let count = read_count(PAST_ENTRIES, second)?;
    read_entries(alloc, rows, scale, count, words)
}

fn numbered(rows: u32, letter: u8, number: &[u8]) -> Option<Verdict>
    ensures { result ≡ spec.numbered rows letter number.now }
{
    if letter == b'm' {
        return Some(Verdict::Misses(below(rows, number)?));
    }
    if letter == b'f' {
        return Some(Verdict::Farkas(below(PAST_VECTORS, number)?));
    }
    if letter == b'b' {
        return Some(Verdict::Bound(below(PAST_VECTORS, number)?));
    }
    None
}

fn verdict_of(rows: u32, word: &[u8]) -> Option<Verdict>
    ensures { result ≡ spec.verdict_of rows word.now }
{
    if word == b"e".as_slice() {
        return Some(Verdict::Empty);
    }
    if word == b"p".as_slice() {
        return Some(Verdict::Point);
    }
    match word {
        [] => None,
        [letter, number @ ..] => numbered(rows, *letter, number),
    }
}

/// Reads one verdict or more, at most one for each scenario.
pub(crate) fn read_some_verdicts(
    alloc: Global,
    scenarios: u32,
    rows: u32,
    mut words: Words<'_>,
) -> Result<Verdicts, Fault>
    ensures { Reads (spec.some_verdicts scenarios rows words.entry) result }
{
    let mut verdicts = Vec::new(alloc);
    while let Some(word) = words.next() {
        let verdict = verdict_of(rows, word).ok_or(Fault::Spelling)?;
        push(&mut verdicts, verdict)?;
    }
    if !verdicts.is_empty() && verdicts.len() <= scenarios as usize {
        Ok(Verdicts::from_vec(verdicts))
    } else {
        Err(Fault::Spelling)
    }
}

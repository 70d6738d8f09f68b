// Reads the lines of the claims.
ghost use Rattle.std.specs.Prelude.{◌≡◌, ◌^◌};
ghost use Rattle.tree_log.specs.LineWords as spec;
ghost use Rattle.tree_log.specs.Reads.{Reads};

use crate::fault::{Fault, push};
use crate::numbers::{point_number, within};
use crate::source::{Words, behind};
use int_model::Point;
use scenario_changes::Answer;
use std::alloc::Global;

const MAX_VALUE: u64 = 1 << 60;

fn read_value(word: &[u8]) -> Result<i64, Fault>
    ensures { Reads (spec.within_of (2 ^ 60) word.now) result }
{
    within(MAX_VALUE, word).ok_or(Fault::Spelling)
}

// A number for each column.
fn read_point(alloc: Global, columns: u32, mut words: Words<'_>) -> Result<Point, Fault>
    ensures { Reads (spec.point_of columns words.entry) result }
{
    let mut numbers = Vec::new(alloc);
    while let Some(word) = words.next() {
        let number = point_number(word).ok_or(Fault::Spelling)?;
        push(&mut numbers, number)?;
    }
    if numbers.len() == columns as usize {
        Ok(Point::from_vec(numbers))
    } else {
        Err(Fault::Spelling)
    }
}

fn read_infeasible(mut words: Words<'_>) -> Result<Answer, Fault>
    ensures { Reads (spec.infeasible_of words.entry) result }
{
    match words.next() {
        None => Ok(Answer::Infeasible),
        Some(_) => Err(Fault::Spelling),
    }
}

fn read_optimal(alloc: Global, columns: u32, mut words: Words<'_>) -> Result<Answer, Fault>
    ensures { Reads (spec.optimal_of columns words.entry) result }
{
    let word = words.next().ok_or(Fault::Spelling)?;
    let value = read_value(word)?;
    let point = read_point(alloc, columns, words)?;
    Ok(Answer::Optimal { point, value })
}

// A bound alone.
fn read_bound(mut words: Words<'_>) -> Result<Answer, Fault>
    ensures { Reads (spec.bound_of words.entry) result }
{
    let word = words.next().ok_or(Fault::Spelling)?;
    if words.next().is_some() {
        return Err(Fault::Spelling);
    }
    let bound = read_value(word)?;
    Ok(Answer::Limit { best: None, bound })
}

// The best point with its value, and a bound.
fn read_found(
    alloc: Global,
    columns: u32,
    first: &[u8],
    mut words: Words<'_>,
) -> Result<Answer, Fault>
    ensures { Reads (spec.found_of columns first.now words.entry) result }
{
    let second = words.next().ok_or(Fault::Spelling)?;
    let value = read_value(first)?;
    let bound = read_value(second)?;
    let point = read_point(alloc, columns, words)?;
    Ok(Answer::Limit {
        best: Some((point, value)),
        bound,
    })
}

fn read_limit(alloc: Global, columns: u32, mut words: Words<'_>) -> Result<Answer, Fault>
    ensures { Reads (spec.limit_of columns words.entry) result }
{
    let word = words.next().ok_or(Fault::Spelling)?;
    if word == b"none".as_slice() {
        read_bound(words)
    } else {
        read_found(alloc, columns, word, words)
    }
}

fn read_answer(alloc: Global, columns: u32, mut words: Words<'_>) -> Result<Answer, Fault>
    ensures { Reads (spec.answer_of columns words.entry) result }
{
    let word = words.next().ok_or(Fault::Spelling)?;
    if word == b"infeasible".as_slice() {
        return read_infeasible(words);
    }
    if word == b"optimal".as_slice() {
        return read_optimal(alloc, columns, words);
    }
    if word == b"limit".as_slice() {
        return read_limit(alloc, columns, words);
    }
    Err(Fault::Spelling)
}

/// Reads a claim.
pub(crate) fn read_claim(alloc: Global, columns: u32, words: Words<'_>) -> Result<Answer, Fault>
    ensures { Reads (spec.claim_of columns words.entry) result }
{
    let words = behind(b"claim", words)?;
    read_answer(alloc, columns, words)
}

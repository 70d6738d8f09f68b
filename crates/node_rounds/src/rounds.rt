// Searches, again and again.
use crate::nodes::Search;
use num_text::write_number;
use scenario_changes::Problem;
use std::alloc::{AllocError, Global};

/// The lines of the last of so many rounds.
pub(crate) fn repeat(
    alloc: Global,
    problem: &Problem,
    nodes: i64,
    rounds: i64,
) -> Result<Vec<u8>, AllocError> {
    let mut text = Vec::new(alloc);
    for _ in 0..rounds {
        text.clear();
        search(alloc, problem, nodes, &mut text)?;
    }
    Ok(text)
}

// Searches at most so many nodes, and adds the lines of what was found.
fn search(
    alloc: Global,
    problem: &Problem,
    nodes: i64,
    text: &mut Vec<u8>,
) -> Result<(), AllocError> {
    let mut search = Search::new(alloc, problem)?;
    let mut worked: i64 = 0;
    for _ in 0..nodes {
        if !search.step(alloc, problem)? {
            break;
        }
        worked = worked.saturating_add(1);
    }
    write_number(text, worked)?;
    text.extend_from_slice(b" of ")?;
    write_number(text, i64::from(search.made))?;
    text.extend_from_slice(b" nodes\n")?;
    for s in 0..problem.count() {
        add_line(&search, s, text)?;
    }
    Ok(())
}

// Adds the line of a scenario.
fn add_line(search: &Search, s: u32, text: &mut Vec<u8>) -> Result<(), AllocError> {
    match search.cut(s) {
        Some(value) => write_number(text, value)?,
        None => text.push(b'-')?,
    }
    if search.is_open(s) {
        text.extend_from_slice(b" open\n")?;
    } else {
        text.extend_from_slice(b" closed\n")?;
    }
    Ok(())
}

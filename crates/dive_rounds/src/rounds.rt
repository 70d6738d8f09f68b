// Dives into the root boxes of all scenarios, again and again.
ghost use Rattle.std.specs.Prelude.{◌<◌, length};
ghost use Rattle.scenario_changes.specs.Problems as problems;

use dive::{Dive, dive, dive_near};
use int_model::{NearPoint, PointBox};
use num_text::write_number;
use scenario_changes::Problem;
use std::alloc::{AllocError, Global};

// After so many conflicts a dive ends, as at the root of a search.
const CONFLICTS: u32 = 40;

/// The lines of the last of so many rounds.
pub(crate) fn repeat(
    alloc: Global,
    problem: &Problem,
    near: &[NearPoint],
    rounds: i64,
) -> Result<Vec<u8>, AllocError> {
    let mut text = Vec::new(alloc);
    for _ in 0..rounds {
        text.clear();
        for s in 0..problem.count() {
            add_line(alloc, problem, s, near.get(s as usize), &mut text)?;
        }
    }
    Ok(text)
}

// Adds the line of a scenario.
fn add_line(
    alloc: Global,
    problem: &Problem,
    s: u32,
    near: Option<&NearPoint>,
    text: &mut Vec<u8>,
) -> Result<(), AllocError>
    requires { s < length (problems.problem problem.now).scenarios }
{
    let root = PointBox::from_ends(alloc, problem.lows(s), problem.highs(s))?;
    if root.is_empty() {
        text.extend_from_slice(b"empty\n")?;
        return Ok(());
    }
    let found = match near {
        Some(near) => dive_near(alloc, problem, s, &root, near, CONFLICTS)?,
        None => dive(alloc, problem, s, &root)?,
    };
    match found {
        Dive::Point(point) => add_numbers(text, point.as_slice())?,
        Dive::Stuck { .. } => text.extend_from_slice(b"stuck\n")?,
    }
    Ok(())
}

// Adds a line of numbers.
fn add_numbers(text: &mut Vec<u8>, numbers: &[i32]) -> Result<(), AllocError> {
    for number in numbers {
        write_number(text, i64::from(*number))?;
        text.push(b' ')?;
    }
    text.push(b'\n')?;
    Ok(())
}

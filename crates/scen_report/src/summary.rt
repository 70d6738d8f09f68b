// The summary of the answers for a generated problem.
ghost use Rattle.std.specs.Prelude.{◌≡◌, ◌++◌, ◌∷◌, length, All, IfOk, OnOk, IfSome, decimal};
ghost use Rattle.scenario_changes.specs.Problems as problems;
ghost use Rattle.scen_report.specs.Reports.{IsValue, Fits};
ghost use Rattle.scen_report.specs.Reports as spec;
ghost use Rattle.scen_report.specs.Summaries.{outcome_line, command_line, summary_text};

use crate::text::push_value;
use int_model::Direction;
use itoa::Buffer;
use scenario_changes::{Answer, Answers, Problem};
use std::alloc::{AllocError, Global};

// Appends a space and a number.
fn push_number(out: &mut Vec<u8>, number: u64) -> Result<(), AllocError>
    ensures { OnOk result (out.new.items ≡ out.old.items ++ 32 ∷ decimal number) }
{
    let mut buffer = Buffer::new();
    out.push(b' ')?;
    out.extend_from_slice(buffer.format(number).as_bytes())?;
    Ok(())
}

// Appends the words of the command.
#[tactic(auto, unfolding(crate::specs::Summaries::command_line))]
fn push_command(out: &mut Vec<u8>, numbers: &[u64; 4]) -> Result<(), AllocError>
    ensures { OnOk result (out.new.items ≡ out.old.items ++ command_line numbers.now) }
{
    out.extend_from_slice(b"gen")?;
    push_number(out, numbers[0])?;
    push_number(out, numbers[1])?;
    push_number(out, numbers[2])?;
    push_number(out, numbers[3])?;
    out.push(b'\n')?;
    Ok(())
}

// Appends the line of a scenario.
#[tactic(auto, unfolding(crate::specs::Summaries::outcome_line, crate::specs::Reports::text_line))]
fn push_outcome(
    out: &mut Vec<u8>,
    direction: Direction,
    s: u32,
    answer: &Answer,
) -> Result<(), AllocError>
    requires { IfSome (spec.value_of answer.now) IsValue }
    ensures { OnOk result (out.new.items ≡ out.old.items ++ outcome_line direction s answer.now) }
{
    out.extend_from_slice(b"scenario")?;
    push_number(out, u64::from(s))?;
    out.push(b' ')?;
    match answer {
        Answer::Infeasible => out.extend_from_slice(b"infeasible\n")?,
        Answer::Optimal { value, .. } => push_value(out, b"optimal", direction, Some(*value))?,
        Answer::Limit { .. } => out.extend_from_slice(b"limit\n")?,
    }
    Ok(())
}

/// The summary of one answer for each scenario of a problem: a line of `gen` and the four numbers that the problem was
/// generated from, and then for each scenario a line of its number, `optimal` and the value, `infeasible` or `limit`.
/// Each line ends with a line feed, and one space parts its words. Values are printed in the model's own direction.
/// Each point has a number for each column, and values and bounds lie within ±2^60.
pub fn write_summary(
    alloc: Global,
    problem: &Problem,
    answers: &Answers,
    words: &[u64; 4],
) -> Result<Vec<u8>, AllocError>
    requires count { length answers.now ≡ length (problems.problem problem.now).scenarios }
    requires fits { All (Fits (length problem.now.model.columns)) answers.now }
    ensures { IfOk result (λ text. text.items ≡ summary_text problem.now answers.now words.now) }
{
    let mut out = Vec::new(alloc);
    push_command(&mut out, words)?;
    let direction = problem.model().direction();
    let answers = answers.as_slice();
    for s in 0..problem.count() {
        push_outcome(&mut out, direction, s, &answers[s as usize])?;
    }
    Ok(out)
}

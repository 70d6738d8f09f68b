//! Writes the report of the answers to the scenarios of a problem, in the attributes of the Gurobi manual's
//! Multiple Scenarios, and the summary for a generated problem.
#![tactic(auto)]

pub mod laws;
mod scenario;
mod summary;
mod text;

ghost use Rattle.std.specs.Prelude.{◌≡◌, ◌++◌, length, All, IfOk, OnOk};
ghost use Rattle.scenario_changes.specs.Problems as problems;
ghost use Rattle.scen_report.specs.Reports.{Fits, head_lines, report_text};

use crate::scenario::push_scenario;
use crate::text::push_count;
use scenario_changes::{Answers, Problem};
use std::alloc::{AllocError, Global};
pub use summary::write_summary;

// Appends what stands before the scenarios.
#[tactic(auto, unfolding(crate::specs::Reports::head_lines))]
fn push_head(out: &mut Vec<u8>, problem: &Problem) -> Result<(), AllocError>
    ensures { OnOk result (out.new.items ≡ out.old.items ++ head_lines problem.now) }
{
    push_count(out, b"ImpliedBinary", problem.model().implied())?;
    push_count(out, b"NumScenarios", problem.num_scenarios())?;
    Ok(())
}

/// The report of one answer for each scenario of a problem: each line ends with a line feed, and one space parts its
/// words. Values are printed in the model's own direction. Each point has a number for each column, and values and
/// bounds lie within ±2^60.
pub fn write_report(
    alloc: Global,
    problem: &Problem,
    answers: &Answers,
) -> Result<Vec<u8>, AllocError>
    requires count { length answers.now ≡ length (problems.problem problem.now).scenarios }
    requires fits { All (Fits (length problem.now.model.columns)) answers.now }
    ensures { IfOk result (λ text. text.items ≡ report_text problem.now answers.now) }
{
    let mut out = Vec::new(alloc);
    push_head(&mut out, problem)?;
    let answers = answers.as_slice();
    for s in 0..problem.count() {
        push_scenario(&mut out, problem, s, &answers[s as usize])?;
    }
    Ok(out)
}

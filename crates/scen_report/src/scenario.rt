// The lines of a scenario and of its answer.
ghost use Rattle.std.specs.Prelude.{◌≡◌, ◌<◌, ◌++◌, length, OnOk, option_copied, unwrap_or, codes};
ghost use Rattle.scenario_changes.specs.Problems as problems;
ghost use Rattle.scen_report.specs.Reports.{Fits, point_lines, answer_lines, scenario_lines};
ghost use Rattle.scen_report.specs.Reports as spec;

use crate::text::{push_column, push_count, push_text, push_value};
use int_model::Model;
use scenario_changes::{Answer, Problem};
use std::alloc::AllocError;

fn status_word(answer: &Answer) -> &'static [u8]
    ensures { result.now ≡ spec.status_word answer.now }
{
    match answer {
        Answer::Infeasible => b"infeasible",
        Answer::Optimal { .. } => b"optimal",
        Answer::Limit { .. } => b"limit",
    }
}

// The value of the best point that was found.
fn value_of(answer: &Answer) -> Option<i64>
    ensures { result ≡ spec.value_of answer.now }
{
    match answer {
        Answer::Infeasible | Answer::Limit { best: None, .. } => None,
        Answer::Optimal { value, .. }
        | Answer::Limit {
            best: Some((_, value)),
            ..
        } => Some(*value),
    }
}

// What no feasible point's value is below.
fn bound_of(answer: &Answer) -> Option<i64>
    ensures { result ≡ spec.bound_of answer.now }
{
    match answer {
        Answer::Infeasible => None,
        Answer::Optimal { value, .. } => Some(*value),
        Answer::Limit { bound, .. } => Some(*bound),
    }
}

// The best point that was found.
fn point_of(answer: &Answer) -> Option<&[i32]>
    ensures { option_copied result ≡ spec.point_of answer.now }
{
    match answer {
        Answer::Infeasible | Answer::Limit { best: None, .. } => None,
        Answer::Optimal { point, .. }
        | Answer::Limit {
            best: Some((point, _)),
            ..
        } => Some(point.as_slice()),
    }
}

// Appends a line for each column.
fn push_point(out: &mut Vec<u8>, model: &Model, point: &[i32]) -> Result<(), AllocError>
    requires { length point.now ≡ length model.now.columns }
    ensures { OnOk result (out.new.items ≡ out.old.items ++ point_lines model.now.columns point.now) }
{
    for j in 0..model.columns() {
        push_column(out, model.column(j).name.as_slice(), point[j as usize])?;
    }
    Ok(())
}

// Appends the lines of an answer.
#[tactic(auto, unfolding(crate::specs::Reports::answer_lines))]
fn push_answer(out: &mut Vec<u8>, model: &Model, answer: &Answer) -> Result<(), AllocError>
    requires { Fits (length model.now.columns) answer.now }
    ensures { OnOk result (out.new.items ≡ out.old.items ++ answer_lines model.now answer.now) }
{
    let direction = model.direction();
    push_text(out, b"Status", status_word(answer))?;
    push_value(out, b"ScenNObjVal", direction, value_of(answer))?;
    push_value(out, b"ScenNObjBound", direction, bound_of(answer))?;
    if let Some(point) = point_of(answer) {
        push_point(out, model, point)?;
    }
    Ok(())
}

// The name of a scenario, or what stands for none.
fn name_text(problem: &Problem, s: u32) -> &[u8]
    requires { s < length (problems.problem problem.now).scenarios }
    ensures { result.now ≡ unwrap_or (problems.name_at problem.now s) (codes "-") }
{
    match problem.name(s) {
        Some(name) => name,
        None => b"-",
    }
}

/// Appends the lines of a scenario.
#[tactic(auto, unfolding(crate::specs::Reports::scenario_lines))]
pub(crate) fn push_scenario(
    out: &mut Vec<u8>,
    problem: &Problem,
    s: u32,
    answer: &Answer,
) -> Result<(), AllocError>
    requires scenario { s < length (problems.problem problem.now).scenarios }
    requires fits { Fits (length problem.now.model.columns) answer.now }
    ensures { OnOk result (out.new.items ≡ out.old.items ++ scenario_lines problem.now s answer.now) }
{
    push_count(out, b"ScenarioNumber", s)?;
    push_text(out, b"ScenNName", name_text(problem, s))?;
    push_answer(out, problem.model(), answer)?;
    Ok(())
}

// A list of open boxes, each closed or cut in two.
ghost use Rattle.std.specs.Prelude.{◌≡◌, ◌≤◌, ◌<◌, ◌<ℤ◌, ◌≤ℤ◌, [], length, All, IfOk, OnOk, MatchBool, MatchOption, true, false};
ghost use Rattle.int_model.specs.Limits.{IsBound};
ghost use Rattle.int_model.specs.Boxes.{interval_at, is_empty, is_single};
ghost use Rattle.int_model.specs.Programs as programs;
ghost use Rattle.scen_report.specs.Reports.{Fits};
ghost use Rattle.scenario_changes.specs.Answers.{RightAnswer};
ghost use Rattle.scenario_changes.specs.Problems.{program_at};
ghost use Rattle.scenario_changes.specs.Problems as problems;
ghost use Rattle.plain_search.specs.Searches.{program_over, AreRight, HasNone, MissesNone, Keeps, HasHalves, Visits, Covers};

use activity::misses;
use int_model::{Point, PointBox};
use scenario_changes::{Answer, Answers, Problem};
use std::alloc::{AllocError, Global};

/// The best point so far.
#[derive(Drop)]
pub(crate) struct Best {
    point: Point,
    value: i64,
}

// Whether some row shows that no point of the box is feasible in a scenario.
fn some_row_misses(problem: &Problem, s: u32, bounds: &PointBox) -> bool
    requires scenario { s < length (problems.problem problem.now).scenarios }
    requires columns { length bounds.now ≡ length problem.now.model.columns }
    ensures verdict { MatchBool result (HasNone (program_over problem.now s bounds.now)) (MissesNone (program_over problem.now s bounds.now)) }
    ensures few { length bounds.now ≤ 1000 }
    ensures shape { length (program_at (problems.problem problem.now) s).ends ≡ length (program_at (problems.problem problem.now) s).rows }
{
    let model = problem.model();
    let ends = problem.ends(s);
    for i in 0..model.rows() {
        let terms = model.row(i).terms.as_slice();
        if misses(terms, ends[i as usize], bounds) {
            return true;
        }
    }
    false
}

// The first column with more than one number, in a box that isn't empty.
fn wide_column(bounds: &PointBox) -> Option<u32>
    requires few { length bounds.now ≤ 1000 }
    requires occupied { is_empty bounds.now ≡ false }
    ensures { MatchOption result (is_single bounds.now ≡ true) (λ j. (j < length bounds.now) × ((interval_at bounds.now j).low <ℤ (interval_at bounds.now j).high)) }
{
    let lows = bounds.lows();
    let highs = bounds.highs();
    for j in 0..lows.len() {
        if lows[j] < highs[j] {
            return Some(j as u32);
        }
    }
    None
}

// Keeps a feasible point where no better one is kept.
fn keep_better(
    alloc: Global,
    problem: &Problem,
    s: u32,
    x: &[i32],
    best: &mut Option<Best>,
) -> Result<(), AllocError>
    requires scenario { s < length (problems.problem problem.now).scenarios }
    requires columns { length x.now ≡ length problem.now.model.columns }
    requires bounds { All IsBound x.now }
    ensures { OnOk result (Keeps x.now (programs.value (program_at (problems.problem problem.now) s) x.now) best.old best.new) }
{
    let value = problem.value(s, x);
    if let Some(kept) = best
        && kept.value <= value
    {
        return Ok(());
    }
    let point = Point::from_vec(x.to_vec(alloc)?);
    *best = Some(Best { point, value });
    Ok(())
}

// A number from the lower one to below the higher one.
fn middle(low: i32, high: i32) -> i32
    requires low { IsBound low }
    requires high { IsBound high }
    requires order { low <ℤ high }
    ensures low { low ≤ℤ result }
    ensures high { result <ℤ high }
{
    low + (high - low) / 2
}

// Cuts a box in two at a wide column, and puts both parts into the list.
fn cut_in_two(
    alloc: Global,
    bounds: &PointBox,
    j: u32,
    boxes: &mut Vec<PointBox>,
) -> Result<(), AllocError>
    requires column { j < length bounds.now }
    requires occupied { is_empty bounds.now ≡ false }
    requires wide { (interval_at bounds.now j).low <ℤ (interval_at bounds.now j).high }
    ensures { OnOk result (HasHalves bounds.now boxes.old.items boxes.new.items) }
{
    let value = middle(bounds.lows()[j as usize], bounds.highs()[j as usize]);
    let (below, above) = bounds.cut(alloc, j, value)?;
    boxes.push(above)?;
    boxes.push(below)?;
    Ok(())
}

// Closes a box, or puts its two parts into the list.
fn visit(
    alloc: Global,
    problem: &Problem,
    s: u32,
    bounds: &PointBox,
    boxes: &mut Vec<PointBox>,
    best: &mut Option<Best>,
) -> Result<(), AllocError>
    requires scenario { s < length (problems.problem problem.now).scenarios }
    requires columns { length bounds.now ≡ length problem.now.model.columns }
    requires occupied { is_empty bounds.now ≡ false }
    ensures { OnOk result (Visits (program_over problem.now s bounds.now) boxes.old.items boxes.new.items best.old best.new) }
{
    if some_row_misses(problem, s, bounds) {
        return Ok(());
    }
    match wide_column(bounds) {
        None => keep_better(alloc, problem, s, bounds.lows(), best)?,
        Some(j) => cut_in_two(alloc, bounds, j, boxes)?,
    }
    Ok(())
}

// The best point of a scenario in its box of bounds, with its value, where a point is feasible.
fn search(
    alloc: Global,
    problem: &Problem,
    s: u32,
    root: PointBox,
) -> Result<Option<Best>, AllocError>
    requires scenario { s < length (problems.problem problem.now).scenarios }
    requires columns { length root ≡ length problem.now.model.columns }
    ensures { IfOk result (Covers (program_over problem.now s root) []) }
{
    let mut boxes = Vec::new(alloc);
    let mut best = None;
    if !root.is_empty() {
        boxes.push(root)?;
    }
    while let Some(bounds) = boxes.pop() {
        visit(alloc, problem, s, &bounds, &mut boxes, &mut best)?;
    }
    Ok(best)
}

/// The right answer to a scenario, infeasible or optimal. Its time may be that of trying all points.
pub fn answer_of(alloc: Global, problem: &Problem, s: u32) -> Result<Answer, AllocError>
    requires { s < length (problems.problem problem.now).scenarios }
    ensures right { IfOk result (RightAnswer (program_at (problems.problem problem.now) s)) }
    ensures fits { IfOk result (Fits (length problem.now.model.columns)) }
{
    let root = PointBox::from_ends(alloc, problem.lows(s), problem.highs(s))?;
    match search(alloc, problem, s, root)? {
        Some(best) => Ok(Answer::Optimal {
            point: best.point,
            value: best.value,
        }),
        None => Ok(Answer::Infeasible),
    }
}

/// The right answer to each scenario.
pub fn answers_of(alloc: Global, problem: &Problem) -> Result<Answers, AllocError>
    ensures right { IfOk result (AreRight (problems.problem problem.now)) }
    ensures fits { IfOk result (All (Fits (length problem.now.model.columns))) }
{
    let mut answers = Vec::new(alloc);
    for s in 0..problem.count() {
        answers.push(answer_of(alloc, problem, s)?)?;
    }
    Ok(Answers::from_vec(answers))
}

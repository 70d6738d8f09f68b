// Improves a feasible point by moves of one column, and of two.
ghost use Rattle.std.specs.Prelude.{◌≡◌, ◌<◌, ◌≤◌, ◌^◌, ℕ, length, false, All, IfOk, IfSome, unsigned_abs};
ghost use Rattle.int_model.specs.Boxes.{is_empty};
ghost use Rattle.int_model.specs.Limits.{IsEntry};
ghost use Rattle.int_model.specs.Programs.{CostsWithin};
ghost use Rattle.scenario_changes.specs.Problems as problems;
ghost use Rattle.dive.specs.Moves.{AreMoves};

use crate::costs::absolute_cost;
use crate::moves::Moves;
use crate::ranking::ranked;
use int_model::PointBox;
use scenario_changes::Problem;
use std::alloc::{AllocError, Global};

const MOST_ROUNDS: u32 = 3;

const MOST_TESTS: u32 = 4_000;
// A move that breaks more rows isn't repaired.
const MOST_BROKEN_ROWS: u32 = 3;

// Another column and the direction of its move by one.
#[derive(Clone, Copy, Debug, PartialEq, Eq)]
struct Repair {
    column: u32,
    direction: i64,
}

// The direction in which a cost falls.
fn good_direction(cost: i64) -> i64
    ensures { unsigned_abs result ≤ 1 }
{
    if cost > 0 { -1 } else { 1 }
}

// The columns by falling absolute cost.
fn by_falling_cost(alloc: Global, costs: &[i64]) -> Result<Vec<u32>, AllocError>
    requires few { length costs.now ≤ 1000 }
    requires limits { CostsWithin (10 ^ 9) costs.now }
    ensures { IfOk result (λ order. All (λ (j : ℕ). j < length costs.now) order.items) }
{
    let mut keys = Vec::with_capacity(alloc, costs.len())?;
    for j in 0..costs.len() {
        keys.push(-absolute_cost(costs, j))?;
    }
    ranked(alloc, &keys)
}

// Moves a column as far in its good direction as its interval and the rows allow. Whether it moved.
fn slide(moves: &mut Moves, problem: &Problem, s: u32, bounds: &PointBox, column: u32) -> bool
    requires scenario { s < length (problems.problem problem.now).scenarios }
    requires moves { AreMoves problem.now.model moves.old }
    requires columns { length bounds.now ≡ length problem.now.model.columns }
    requires occupied { is_empty bounds.now ≡ false }
    requires column { column < length problem.now.model.columns }
    ensures { AreMoves problem.now.model moves.new }
{
    let cost = problem.costs(s)[column as usize];
    let direction = good_direction(cost);
    if cost == 0 || !moves.has_room(bounds, column, direction) {
        return false;
    }
    let reach = moves.reach(problem, s, column, direction, 2_000_000);
    if reach == 0 {
        return false;
    }
    let by = direction.saturating_mul(reach as i64);
    moves.shift(problem.model(), bounds, column, by);
    true
}

// Whether a move of another column by one repairs so many broken rows and breaks none.
fn is_allowed(
    moves: &Moves,
    problem: &Problem,
    s: u32,
    bounds: &PointBox,
    column: u32,
    repair: Repair,
    broken: u32,
) -> bool
    requires scenario { s < length (problems.problem problem.now).scenarios }
    requires moves { AreMoves problem.now.model moves.now }
    requires columns { length bounds.now ≡ length problem.now.model.columns }
    requires repair { repair.column < length problem.now.model.columns }
{
    if repair.column == column || !moves.has_room(bounds, repair.column, repair.direction) {
        return false;
    }
    moves.repairs(problem, s, repair.column, repair.direction, broken)
}

// The column of a row whose move by one repairs all broken rows, with the greatest gain above the loss.
fn best_repair(
    moves: &Moves,
    problem: &Problem,
    s: u32,
    bounds: &PointBox,
    column: u32,
    row: u32,
    tests: &mut u32,
) -> Option<Repair>
    requires scenario { s < length (problems.problem problem.now).scenarios }
    requires moves { AreMoves problem.now.model moves.now }
    requires columns { length bounds.now ≡ length problem.now.model.columns }
    requires column { column < length problem.now.model.columns }
    requires row { row < length problem.now.model.rows }
    ensures { IfSome result (λ r. r.column < length problem.now.model.columns) }
{
    let costs = problem.costs(s);
    let own = absolute_cost(costs, column as usize);
    let is_low = match problem.ends(s)[row as usize].lower {
        Some(lower) => moves.sums[row as usize] < lower,
        None => false,
    };
    let count = moves.broken_count(problem, s, column);
    if count > MOST_BROKEN_ROWS {
        return None;
    }
    let mut greatest = 0;
    let mut best = None;
    for &(other, coefficient) in problem.model().row(row).terms.as_slice() {
        *tests = tests.saturating_sub(1);
        let direction = if (coefficient > 0) == is_low { 1 } else { -1 };
        let gain = own.saturating_sub(costs[other as usize].saturating_mul(direction));
        if gain <= greatest {
            continue;
        }
        let repair = Repair {
            column: other,
            direction,
        };
        if !is_allowed(moves, problem, s, bounds, column, repair, count) {
            continue;
        }
        greatest = gain;
        best = Some(repair);
    }
    best
}

// Moves a column by one in its good direction, where that breaks no row or another column's move by one
// repairs the rows that it breaks at a smaller loss. Whether it moved.
fn exchange(
    moves: &mut Moves,
    problem: &Problem,
    s: u32,
    bounds: &PointBox,
    column: u32,
    tests: &mut u32,
) -> bool
    requires scenario { s < length (problems.problem problem.now).scenarios }
    requires moves { AreMoves problem.now.model moves.old }
    requires columns { length bounds.now ≡ length problem.now.model.columns }
    requires occupied { is_empty bounds.now ≡ false }
    requires column { column < length problem.now.model.columns }
    ensures { AreMoves problem.now.model moves.new }
{
    let cost = problem.costs(s)[column as usize];
    let direction = good_direction(cost);
    if cost == 0 || *tests == 0 || !moves.has_room(bounds, column, direction) {
        return false;
    }
    let model = problem.model();
    moves.shift(model, bounds, column, direction);
    let Some(row) = moves.broken_row(problem, s, column) else {
        return true;
    };
    if let Some(repair) = best_repair(moves, problem, s, bounds, column, row, tests) {
        moves.shift(model, bounds, repair.column, repair.direction);
        return true;
    }
    moves.shift(model, bounds, column, -direction);
    false
}

/// A point made from a feasible one by moves that lower the value. Whether it is feasible is left to be
/// checked.
pub(crate) fn improved(
    alloc: Global,
    problem: &Problem,
    s: u32,
    bounds: &PointBox,
    x: &[i32],
) -> Result<Vec<i32>, AllocError>
    requires scenario { s < length (problems.problem problem.now).scenarios }
    requires columns { length bounds.now ≡ length problem.now.model.columns }
    requires occupied { is_empty bounds.now ≡ false }
    requires point { length x.now ≡ length problem.now.model.columns }
    ensures { IfOk result (λ better. length better.items ≡ length problem.now.model.columns) }
{
    let mut moves = Moves::new(alloc, problem.model(), x)?;
    let order = by_falling_cost(alloc, problem.costs(s))?;
    let mut tests = MOST_TESTS;
    for _ in 0..MOST_ROUNDS {
        let mut has_moved = false;
        for column in &order {
            has_moved |= slide(&mut moves, problem, s, bounds, *column);
        }
        for column in &order {
            has_moved |= exchange(&mut moves, problem, s, bounds, *column, &mut tests);
        }
        if !has_moved {
            break;
        }
    }
    Ok(moves.point)
}

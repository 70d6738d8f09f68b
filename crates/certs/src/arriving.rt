// The levels with which scenarios arrive at a node.
ghost use Rattle.std.specs.Prelude.{◌≡◌, ◌≤◌, ℕ, map, slice_get, slice_index_or, None, Some, true, false, length, IfOk, nat_eq};
ghost use Rattle.std.specs.List.{list_any};
ghost use Rattle.scenario_changes.specs.Problems.{root_box};
ghost use Rattle.scenario_changes.specs.Problems as problems;
ghost use Rattle.certs.specs.Trees.{kept, of_live, root_place};
ghost use Rattle.certs.specs.Verdicts as verdicts;

use crate::{Level, Levels, is_member, start_level};
use live_sets::LiveSet;
use scenario_changes::Problem;
use std::alloc::{AllocError, Global};

/// The level where the search of each scenario begins: all are live at the first node of a tree, with
/// these levels.
pub fn start_levels(alloc: Global, problem: &Problem) -> Result<Levels, AllocError>
    ensures { IfOk result (λ levels. levels ≡ map (λ s. verdicts.start_level (root_box (problems.problem problem.now).scenarios) s) (problems.problem problem.now).scenarios) }
{
    let count = problem.count();
    let mut levels = Vec::with_capacity(alloc, count as usize)?;
    for s in 0..count {
        levels.push_reserved(start_level(problem, s));
    }
    Ok(Levels::from_vec(levels))
}

// The raised level of a stayer, and the level before of every other scenario.
fn level_of(stay: LiveSet, raised: Option<Level>, level: Level, s: u32) -> Level
    ensures stays { list_any (nat_eq s) stay ≡ true → (raised ≡ None → ⊥) → Some result ≡ raised }
    ensures leaves { list_any (nat_eq s) stay ≡ false → result ≡ level }
{
    if !is_member(stay, s) {
        return level;
    }
    match raised {
        Some(raised) => raised,
        None => level,
    }
}

/// The levels at the children of a split: the raised ones of the scenarios that stay, and those before of
/// the others, which count for nothing.
pub fn children_levels(
    alloc: Global,
    levels: &Levels,
    stay: LiveSet,
    raised: &[Option<Level>],
) -> Result<Levels, AllocError>
    requires few { length levels.now ≤ 64 }
    requires count { length raised.now ≡ length levels.now }
    requires stay { (s : ℕ) → list_any (nat_eq s) stay ≡ true → slice_index_or raised.now s None ≡ None → ⊥ }
    ensures kept { IfOk result (λ made. of_live stay 0 made ≡ kept stay 0 raised.now) }
    ensures count { IfOk result (λ made. length made ≡ length levels.now) }
    ensures others { IfOk result (λ made. (s : ℕ) → list_any (nat_eq s) stay ≡ false → slice_get made s ≡ slice_get levels.now s) }
{
    let items = levels.as_slice();
    let mut made = Vec::new(alloc);
    for k in 0..items.len() {
        made.push(level_of(stay, raised[k], items[k], k as u32))?;
    }
    Ok(Levels::from_vec(made))
}

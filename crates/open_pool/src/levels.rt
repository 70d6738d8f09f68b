// Levels of live scenarios, and tests on lists of them.
ghost use Rattle.std.specs.Prelude.{◌≡◌, ◌<◌, ◌≤◌, ℕ, true, false, List, Option, length, slice_get, slice_index_or, Some, None, IsTrue};
ghost use Rattle.certs.specs.Levels.{level_le};
ghost use Rattle.certs.specs.Trees.{of_live};
ghost use Rattle.bb_core.specs.Coverage.{ReachesCaps};
ghost use Rattle.open_pool.specs.Marks.{least_live, lesser_than};
ghost use Rattle.certs.specs.Trees.{kept, dropped};
ghost use Rattle.certs.specs.declared.level.Level.{Level as Bound};
ghost use Rattle.certs.specs.declared.level.Level.TheVariants.{Inf};

use certs::{Level, Levels, is_member, live_level};
use live_sets::LiveSet;

fn is_same(a: Option<Level>, b: Option<Level>) -> bool
    ensures yes { result ≡ true → a ≡ b }
    ensures no { result ≡ false → a ≡ b → ⊥ }
{
    match (a, b) {
        (Some(Level::Value(x)), Some(Level::Value(y))) => x == y,
        (Some(Level::Value(_)), Some(Level::Inf)) => false,
        (Some(Level::Inf), Some(Level::Value(_))) => false,
        (Some(Level::Inf), Some(Level::Inf)) => true,
        (None, None) => true,
        (Some(_), None) => false,
        (None, Some(_)) => false,
    }
}

/// Whether two lists of levels are the same for the live scenarios.
#[tactic(auto, using(crate::proofs::LevelLists::same_length_live, crate::proofs::LevelLists::live_same))]
pub fn are_same(live: LiveSet, levels: &Levels, other_live: LiveSet, others: &Levels) -> bool
    requires { length levels.now ≤ 64 }
    ensures yes { result ≡ true → of_live live 0 levels.now ≡ of_live other_live 0 others.now }
    ensures no { result ≡ false → of_live live 0 levels.now ≡ of_live other_live 0 others.now → ⊥ }
{
    if levels.len() != others.len() {
        return false;
    }
    for k in 0..levels.len() as u32 {
        let level = live_level(live, levels, k);
        let other = live_level(other_live, others, k);
        if !is_same(level, other) {
            return false;
        }
    }
    true
}

/// The level in a list where the scenario stays.
#[tactic(auto, using(crate::proofs::LevelLists::kept_none, crate::proofs::LevelLists::kept_some))]
fn kept_level(stay: LiveSet, raised: &[Option<Level>], k: u32) -> Option<Level>
    requires { k < length raised.now }
    ensures { result ≡ slice_index_or (kept stay 0 raised.now) k None }
{
    if is_member(stay, k) {
        raised[k as usize]
    } else {
        None
    }
}

/// The level in a list where the scenario doesn't stay.
#[tactic(auto, using(crate::proofs::LevelLists::dropped_none, crate::proofs::LevelLists::dropped_some))]
fn dropped_level(stay: LiveSet, raised: &[Option<Level>], k: u32) -> Option<Level>
    requires { k < length raised.now }
    ensures { result ≡ slice_index_or (dropped stay 0 raised.now) k None }
{
    if is_member(stay, k) {
        None
    } else {
        raised[k as usize]
    }
}

/// Whether a child's levels are the stayers' raised ones.
#[tactic(auto, using(crate::proofs::LevelLists::same_length_kept, crate::proofs::LevelLists::live_kept))]
pub(crate) fn are_kept(stay: LiveSet, raised: &[Option<Level>], levels: &Levels) -> bool
    requires { length raised.now ≤ 64 }
    ensures yes { result ≡ true → of_live stay 0 levels.now ≡ kept stay 0 raised.now }
    ensures no { result ≡ false → of_live stay 0 levels.now ≡ kept stay 0 raised.now → ⊥ }
{
    if levels.len() != raised.len() {
        return false;
    }
    for k in 0..levels.len() as u32 {
        let level = live_level(stay, levels, k);
        let other = kept_level(stay, raised, k);
        if !is_same(level, other) {
            return false;
        }
    }
    true
}

/// The level in a list of levels of all scenarios.
#[tactic(auto, using(crate::proofs::LevelLists::index_inf))]
pub(crate) fn level_at(caps: &[Level], k: u32) -> Level
    requires { k < length caps.now }
    ensures { result ≡ slice_index_or caps.now k Inf }
{
    caps[k as usize]
}

/// Whether the level, where there is one, is at least the cap.
pub fn reaches(cap: Level, level: Option<Level>) -> bool
    ensures yes { result ≡ true → (e : Bound) → level ≡ Some e → IsTrue (level_le cap e) }
    ensures no { result ≡ false → ((e : Bound) → level ≡ Some e → IsTrue (level_le cap e)) → ⊥ }
{
    match level {
        None => true,
        Some(level) => cap.is_at_most(level),
    }
}

/// Whether each dropped scenario's raised level is at least its cap.
#[tactic(auto, using(crate::proofs::LevelLists::reaches_all))]
pub(crate) fn reach(caps: &[Level], stay: LiveSet, raised: &[Option<Level>]) -> bool
    requires few { length raised.now ≤ 64 }
    requires caps { length caps.now ≡ length raised.now }
    ensures yes { result ≡ true → ReachesCaps caps.now (dropped stay 0 raised.now) }
    ensures no { result ≡ false → ReachesCaps caps.now (dropped stay 0 raised.now) → ⊥ }
{
    for k in 0..raised.len() as u32 {
        let cap = level_at(caps, k);
        let level = dropped_level(stay, raised, k);
        if !reaches(cap, level) {
            return false;
        }
    }
    true
}

/// The least level of the live scenarios.
pub(crate) fn least_of(live: LiveSet, levels: &Levels) -> Level
    requires { length levels.now ≤ 64 }
    ensures { result ≡ least_live (of_live live 0 levels.now) }
{
    let mut least = Level::Inf;
    let mut k = levels.len() as u32;
    while k > 0 {
        k -= 1;
        least = lesser(live_level(live, levels, k), least);
    }
    least
}

/// The lesser of a level, where there is one, and another one.
pub(crate) fn lesser(level: Option<Level>, least: Level) -> Level
    ensures { result ≡ lesser_than level least }
{
    match level {
        None => least,
        Some(level) => level.lesser_level(least),
    }
}

/// Lowers the least levels of closed ends by the levels that a node drops.
pub(crate) fn close_ends(ends: &mut [Level], stay: LiveSet, raised: &[Option<Level>])
    requires few { length raised.now ≤ 64 }
    requires ends { length ends.old ≡ length raised.now }
    ensures len { length ends.new ≡ length ends.old }
    ensures lower { (k : ℕ) → k < length ends.old → slice_index_or ends.new k Inf ≡ lesser_than (slice_index_or (dropped stay 0 raised.now) k None) (slice_index_or ends.old k Inf) }
{
    for k in 0..raised.len() as u32 {
        let level = dropped_level(stay, raised, k);
        let least = level_at(ends, k);
        ends[k as usize] = lesser(level, least);
    }
}

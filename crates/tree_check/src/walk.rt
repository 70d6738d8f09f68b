// The walk over the nodes of a log.
ghost use Rattle.std.specs.Prelude.{◌≡◌, ◌<◌, ◌^◌, length, slice_index_or, Some, None, true, false, IsTrue, IfOk, IfErr, IfSome};
ghost use Rattle.scenario_changes.specs.Problems.{problem as posed};
ghost use Rattle.certs.specs.Trees.{end_levels, root_place};
ghost use Rattle.certs.specs.Levels.{level_le};
ghost use Rattle.certs.specs.Claims as spec;
ghost use Rattle.certs.specs.declared.level.Level.{Level as Bound};
ghost use Rattle.tree_check.specs.Walks as walks;
ghost use Rattle.tree_check.specs.Walks.{AreReached, IsBegun, IsFirstShort, IsJudged, IsShort, IsStray, IsWalk, IsWide, place_of};

use crate::CheckError;
use crate::arrival::{Arrival, Spot};
use crate::claims::claimed_level;
use crate::handing::hand_on;
use crate::judging::is_valid;
use crate::scratch::Scratch;
use certs::{Level, Node, is_member, live_level, start_levels};
use live_sets::LiveSet;
use scenario_changes::{Answer, Problem};
use std::alloc::{AllocError, Global};

// The place of the first node: the root box, where all scenarios are live.
fn root_spot(alloc: Global, problem: &Problem) -> Result<Spot, AllocError>
    ensures wide { IfOk result (IsWide (posed problem.now)) }
    ensures place { IfOk result (λ s. place_of s ≡ root_place (posed problem.now)) }
{
    Ok(Spot {
        bounds: problem.root(alloc)?,
        live: LiveSet::full(problem.count()),
        levels: start_levels(alloc, problem)?,
    })
}

// The table of the nodes, of which the first one has its place.
fn table_of(alloc: Global, problem: &Problem, count: usize) -> Result<Vec<Arrival>, AllocError>
    requires { 0 < count }
    ensures { IfOk result (λ t. IsBegun (posed problem.now) count t.items) }
{
    let mut table = Vec::with_capacity(alloc, count)?;
    table.push(Arrival::One(root_spot(alloc, problem)?))?;
    for _ in 1..count {
        table.push(Arrival::Nothing)?;
    }
    Ok(table)
}

fn level_in(levels: &[Option<Level>], s: u32) -> Option<Level>
    ensures { result ≡ slice_index_or levels.now s None }
{
    match levels.get(s as usize) {
        Some(level) => *level,
        None => None,
    }
}

// The level of a scenario at a node that was judged, where the node is an end for it.
fn end_level(
    problem: &Problem,
    spot: &Spot,
    node: &Node,
    scratch: &Scratch,
    s: u32,
) -> Option<Level>
    requires { IsJudged (posed problem.now) (place_of spot.now) node.now scratch.now }
    ensures { result ≡ slice_index_or (end_levels (posed problem.now) (place_of spot.now) node.now) s None }
{
    let _ = problem;
    match node {
        Node::Rest => live_level(spot.live, &spot.levels, s),
        Node::Leaf { .. } => level_in(&scratch.raised, s),
        Node::Split { stay, .. } => {
            if is_member(*stay, s) {
                None
            } else {
                level_in(&scratch.raised, s)
            }
        }
    }
}

// Whether the level at an end is below the level that an answer claims. Where there is no level, there is no
// end.
fn is_below(level: Option<Level>, answer: &Answer) -> bool
    ensures yes { result ≡ true → IsShort level answer.now }
    ensures no { result ≡ false → (l : Bound) → level ≡ Some l → IsTrue (level_le (spec.claimed_level answer.now) l) }
{
    match level {
        Some(level) => !claimed_level(answer).is_at_most(level),
        None => false,
    }
}

// The first scenario whose level at an end is below the level that is claimed.
fn first_below(
    problem: &Problem,
    answers: &[Answer],
    spot: &Spot,
    node: &Node,
    scratch: &Scratch,
) -> Option<u32>
    requires count { length answers.now ≡ length (posed problem.now).scenarios }
    requires judged { IsJudged (posed problem.now) (place_of spot.now) node.now scratch.now }
    ensures some { IfSome result (IsFirstShort (posed problem.now) answers.now (place_of spot.now) node.now) }
    ensures none { result ≡ None → AreReached (posed problem.now) answers.now (place_of spot.now) node.now }
{
    for s in 0..problem.count() {
        let level = end_level(problem, spot, node, scratch, s);
        if is_below(level, &answers[s as usize]) {
            return Some(s);
        }
    }
    None
}

// The first end below its claim, where this is the scenario of that at node n.
fn earlier(first: Option<(u32, u32)>, n: u32, s: Option<u32>) -> Option<(u32, u32)>
    ensures { result ≡ walks.earlier first n s }
{
    match first {
        Some(end) => Some(end),
        None => match s {
            Some(s) => Some((n, s)),
            None => None,
        },
    }
}

/// Walks over the nodes. What it answers is the first end, by node and then by scenario, whose level is
/// below the claimed one; or the first node that isn't right.
pub(crate) fn walk(
    alloc: Global,
    problem: &Problem,
    answers: &[Answer],
    nodes: &[Node],
) -> Result<Option<(u32, u32)>, CheckError>
    requires count { length answers.now ≡ length (posed problem.now).scenarios }
    requires some { 0 < length nodes.now }
    requires few { length nodes.now < 2 ^ 32 }
    ensures ok { IfOk result (IsWalk (posed problem.now) answers.now nodes.now) }
    ensures err { IfErr result (IsStray (posed problem.now) nodes.now) }
{
    let count = nodes.len() as u32;
    let mut table = table_of(alloc, problem, nodes.len())?;
    let mut scratch = Scratch::new(alloc, problem)?;
    let mut first = None;
    for n in 0..count {
        let node = &nodes[n as usize];
        let Arrival::One(spot) = table[n as usize].take() else {
            return Err(CheckError::Shape { node: n });
        };
        if !is_valid(problem, count, n, &spot, node, &mut scratch) {
            return Err(CheckError::Shape { node: n });
        }
        let short = first_below(problem, answers, &spot, node, &scratch);
        first = earlier(first, n, short);
        hand_on(alloc, problem, &spot, node, &scratch, &mut table)?;
    }
    Ok(first)
}

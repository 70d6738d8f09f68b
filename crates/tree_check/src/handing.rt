// What a split hands to its children.
ghost use Rattle.std.specs.Prelude.{length, OnOk};
ghost use Rattle.scenario_changes.specs.Problems.{problem as posed};
ghost use Rattle.tree_check.specs.Walks.{HandsOn, HasChildren, HasRoom, IsJudged, IsWide, place_of};

use crate::arrival::{Arrival, Spot};
use crate::scratch::Scratch;
use certs::{Node, children_levels};
use scenario_changes::Problem;
use std::alloc::{AllocError, Global};

/// Hands the two places below a split to its children, and nothing below another node.
pub(crate) fn hand_on(
    alloc: Global,
    problem: &Problem,
    spot: &Spot,
    node: &Node,
    scratch: &Scratch,
    table: &mut [Arrival],
) -> Result<(), AllocError>
    requires wide { IsWide (posed problem.now) spot.now }
    requires room { HasRoom (posed problem.now) scratch.now }
    requires judged { IsJudged (posed problem.now) (place_of spot.now) node.now scratch.now }
    requires children { HasChildren node.now (length table.old) }
    ensures { OnOk result (HandsOn (posed problem.now) node.now (place_of spot.now) table.old table.new) }
{
    let Node::Split {
        stay,
        child,
        column,
        value,
        ..
    } = node
    else {
        return Ok(());
    };
    let _count = problem.count();
    let (left, right) = scratch.hull.cut(alloc, *column, *value)?;
    let left = Spot {
        bounds: left,
        live: *stay,
        levels: children_levels(alloc, &spot.levels, *stay, &scratch.raised)?,
    };
    let right = Spot {
        bounds: right,
        live: *stay,
        levels: children_levels(alloc, &spot.levels, *stay, &scratch.raised)?,
    };
    let child = *child as usize;
    table[child].hand(left);
    table[child + 1].hand(right);
    Ok(())
}

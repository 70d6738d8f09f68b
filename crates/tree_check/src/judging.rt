// Whether what a node records is valid at its place.
ghost use Rattle.std.specs.Prelude.{◌≡◌, ◌≤◌, ◌<◌, ◌&&◌, true, false, length, Some, is_some, All};
ghost use Rattle.int_model.specs.Boxes.{is_empty};
ghost use Rattle.tighten.specs.Steps.{IsStep};
ghost use Rattle.scenario_changes.specs.Problems.{problem as posed};
ghost use Rattle.certs.specs.Trees.{cert_fits, of_live, raised, splits_inside, stayers_hull};
ghost use Rattle.certs.specs.Trees as trees;
ghost use Rattle.certs.specs.Verdicts.{AllRowsBelow};
ghost use Rattle.tree_check.specs.Walks.{HasChildren, HasRoom, IsJudged, IsWide, place_of};

use crate::arrival::Spot;
use crate::scratch::Scratch;
use certs::{Cert, Node, Verdicts, are_live, hull_stayers, raise, rising};
use int_model::PointBox;
use live_sets::LiveSet;
use scenario_changes::Problem;

// Whether the certificate fits and the verdicts are valid. The raised levels are then in the scratch.
fn is_certified(
    problem: &Problem,
    spot: &Spot,
    cert: &Cert,
    verdicts: &Verdicts,
    scratch: &mut Scratch,
) -> bool
    requires wide { IsWide (posed problem.now) spot.now }
    requires room { HasRoom (posed problem.now) scratch.old }
    ensures room { HasRoom (posed problem.now) scratch.new }
    ensures value { result ≡ cert_fits (posed problem.now) cert.now && is_some (raised spot.now.bounds cert.now (posed problem.now).scenarios (place_of spot.now).levels verdicts.now) }
    ensures steps { result ≡ true → All (IsStep problem.now.model) cert.now.steps }
    ensures vectors { result ≡ true → AllRowsBelow (length problem.now.model.rows) cert.now.vectors }
    ensures raised { result ≡ true → raised spot.now.bounds cert.now (posed problem.now).scenarios (place_of spot.now).levels verdicts.now ≡ Some scratch.new.raised.items }
    ensures many { result ≡ true → length scratch.new.raised.items ≡ length (posed problem.now).scenarios }
{
    if !cert.fits(problem) {
        return false;
    }
    raise(
        problem,
        &spot.bounds,
        spot.live,
        &spot.levels,
        cert,
        verdicts,
        &mut scratch.raised,
        &mut scratch.replay,
    )
}

// Whether both parts of a box that is split there have numbers in the column.
fn is_inside(hull: &PointBox, column: u32, value: i32) -> bool
    requires { column < length hull.now }
    ensures { result ≡ splits_inside (Some hull.now) column value }
{
    let j = column as usize;
    hull.lows()[j] <= value && value < hull.highs()[j]
}

// Whether the stayers' replays have a hull that the column's split parts in two. It is then in the scratch.
fn is_split(
    problem: &Problem,
    bounds: &PointBox,
    cert: &Cert,
    stay: LiveSet,
    column: u32,
    value: i32,
    scratch: &mut Scratch,
) -> bool
    requires columns { length bounds.now ≡ length problem.now.model.columns }
    requires column { column < length problem.now.model.columns }
    requires steps { All (IsStep problem.now.model) cert.now.steps }
    requires vectors { AllRowsBelow (length problem.now.model.rows) cert.now.vectors }
    requires room { HasRoom (posed problem.now) scratch.old }
    ensures room { HasRoom (posed problem.now) scratch.new }
    ensures same { scratch.new.raised ≡ scratch.old.raised }
    ensures value { result ≡ splits_inside (stayers_hull (posed problem.now) bounds.now cert.now stay) column value }
    ensures hull { result ≡ true → stayers_hull (posed problem.now) bounds.now cert.now stay ≡ Some scratch.new.hull }
    ensures occupied { result ≡ true → is_empty scratch.new.hull ≡ false }
{
    let found = hull_stayers(
        problem,
        bounds,
        cert,
        stay,
        &mut scratch.hull,
        &mut scratch.replay,
    );
    found && is_inside(&scratch.hull, column, value)
}

/// Whether what node n of so many records is valid at its place. The scratch then has its raised levels,
/// and for a split the hull of the stayers.
pub(crate) fn is_valid(
    problem: &Problem,
    count: u32,
    n: u32,
    spot: &Spot,
    node: &Node,
    scratch: &mut Scratch,
) -> bool
    requires wide { IsWide (posed problem.now) spot.now }
    requires count { n < count }
    requires room { HasRoom (posed problem.now) scratch.old }
    ensures room { HasRoom (posed problem.now) scratch.new }
    ensures value { result ≡ trees.is_valid (posed problem.now) count n (place_of spot.now) node.now }
    ensures judged { result ≡ true → IsJudged (posed problem.now) (place_of spot.now) node.now scratch.new }
    ensures children { result ≡ true → HasChildren node.now count }
{
    match node {
        Node::Rest => true,
        Node::Leaf { cert, verdicts } => is_certified(problem, spot, cert, verdicts, scratch),
        Node::Split {
            cert,
            verdicts,
            stay,
            child,
            column,
            value,
        } => {
            rising(*stay);
            is_certified(problem, spot, cert, verdicts, scratch)
                && are_live(*stay, spot.live, &spot.levels)
                && *column < problem.model().columns()
                && is_split(problem, &spot.bounds, cert, *stay, *column, *value, scratch)
                && n < *child
                && *child < count - 1
        }
    }
}

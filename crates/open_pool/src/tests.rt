ghost use Rattle.std.specs.Prelude.{◌<◌, ◌≤◌, length};
ghost use Rattle.int_model.specs.Limits.{IsBound};
ghost use Rattle.scenario_changes.specs.Problems as problems;

use super::*;
use bb_core::{Cuts, Outcome, Settlement, Work};
use certs::{Cert, Level, Levels, Node, Steps, Vectors, Verdict, Verdicts};
use dual_bounds::Vector;
use int_model::{ColumnPart, Direction, Model, Name, Parts, PointBox, Rhs, Row, RowSense, Terms};
use live_sets::LiveSet;
use scenario_changes::{Changes, Problem};
use std::alloc::{AllocError, Global};
use std::process::Abort;
use std::sync::Arc;
use std::test::Fail;
use tighten::{RowEnd, Step};

fn name(alloc: Global, letter: u8) -> Result<Name, AllocError> {
    let mut bytes = Vec::new(alloc);
    bytes.push(letter)?;
    Ok(Name::from_vec(bytes))
}

fn column(alloc: Global, letter: u8, cost: i64, high: i64) -> Result<ColumnPart, AllocError> {
    Ok(ColumnPart {
        name: name(alloc, letter)?,
        cost,
        low: Some(0),
        high: Some(high),
        implied: false,
    })
}

// min -3x - 2y, x and y in 0..3, 2x + y at most 4.
fn cap(alloc: Global) -> Result<Parts, AllocError> {
    let row = Row {
        name: name(alloc, b'c')?,
        sense: RowSense::L,
        rhs: 4,
        range: None,
        terms: Terms::from_vec(vec![in alloc; (0, 2), (1, 1)]?),
    };
    Ok(Parts {
        columns: vec![in alloc; column(alloc, b'x', -3, 3)?, column(alloc, b'y', -2, 3)?]?,
        rows: vec![in alloc; row]?,
        constant: 0,
        direction: Direction::Min,
    })
}

// Scenario 0 is the base, and in scenario 1 the row's side is 2.
fn two_scenarios(rt: &impl Abort, alloc: Global) -> Result<Problem, Fail> {
    let model = Model::build(alloc, cap(alloc)?)?;
    let mut changes = Changes::new(alloc, &model)?;
    changes.set_num_scenarios(2)?;
    changes.select(1)?;
    changes.set_rhs(0, Some(Rhs::Value(2)))?;
    assert!(rt; changes.fits(&model));
    Ok(Problem::new(alloc, model, changes)?)
}

fn upper(column: u32) -> Step {
    Step {
        row: 0,
        column,
        side: RowEnd::Upper,
    }
}

// Half of a multiplier of -3, after steps at columns 0 and `column`.
fn cert(alloc: Global, column: u32) -> Result<Cert, Fail> {
    let mut vectors = Vectors::new(alloc);
    vectors.push(Vector::new(alloc, 2, &[(0, -3)])?);
    Ok(Cert {
        steps: Steps::from_vec(vec![in alloc; upper(0), upper(column)]?),
        vectors,
    })
}

// A number within the bounds.
fn bounded(number: i64) -> i32
    ensures { IsBound result }
{
    if number < 0 {
        return 0;
    }
    if number > 999 {
        return 999;
    }
    number as i32
}

// The numbers of both columns, each from its first to its last one.
fn rectangle(alloc: Global, x: (i64, i64), y: (i64, i64)) -> Result<Arc<PointBox>, AllocError> {
    let lows = [bounded(x.0), bounded(y.0)];
    let highs = [bounded(x.1), bounded(y.1)];
    Ok(Arc::new(alloc, PointBox::from_ends(alloc, &lows, &highs)?)?)
}

// The numbers from low to high in column 0, and all in column 1.
fn part(alloc: Global, low: i64, high: i64) -> Result<Arc<PointBox>, AllocError> {
    rectangle(alloc, (low, high), (0, 3))
}

fn levels(alloc: Global, first: i64, second: i64) -> Result<Arc<Levels>, AllocError> {
    let levels = vec![in alloc; Level::Value(first), Level::Value(second)]?;
    Ok(Arc::new(alloc, Levels::from_vec(levels))?)
}

fn first_scenarios(count: i64) -> LiveSet {
    if count == 0 {
        return LiveSet::none();
    }
    if count == 1 {
        return LiveSet::full(1);
    }
    LiveSet::full(2)
}

// A number that is another one in the settlement that is wrong there.
fn at(wrong: u32, here: u32, other: i64, usual: i64) -> i64 {
    if wrong == here { other } else { usual }
}

fn column_at(wrong: u32, here: u32, other: u32, usual: u32) -> u32 {
    if wrong == here { other } else { usual }
}

fn verdicts(alloc: Global, count: i64, last: Verdict) -> Result<Verdicts, AllocError> {
    let mut verdicts = Vec::new(alloc);
    for _k in 1..count {
        verdicts.push(Verdict::Bound(0))?;
    }
    verdicts.push(last)?;
    Ok(Verdicts::from_vec(verdicts))
}

fn work(
    node: u32,
    bounds: Arc<PointBox>,
    live: LiveSet,
    levels: Arc<Levels>,
    alloc: Global,
) -> Work {
    Work {
        node,
        bounds,
        live,
        levels,
        hint: None,
        cuts: Cuts::from_vec(Vec::new(alloc)),
    }
}

// Scenario 0 goes on at the level -7, and scenario 1 ends at -4. The entry of scenario 1 counts for
// nothing in the levels of the children.
fn split(alloc: Global, wrong: u32) -> Result<Outcome, Fail> {
    Ok(Outcome::Split {
        stay: first_scenarios(at(wrong, 1, 0, 1)),
        column: column_at(wrong, 2, 2, 0),
        value: bounded(at(wrong, 3, 2, 0)),
        left: part(alloc, 0, at(wrong, 4, 1, 0))?,
        right: part(alloc, at(wrong, 5, 2, 1), 2)?,
        left_levels: levels(alloc, at(wrong, 6, -15, -7), 40)?,
        right_levels: levels(alloc, at(wrong, 7, -6, -7), -40)?,
        left_hint: None,
        right_hint: None,
    })
}

fn last(wrong: u32) -> Verdict {
    if wrong == 13 {
        return Verdict::Empty;
    }
    Verdict::Bound(0)
}

// A settlement of the root, right where nothing is wrong.
fn settlement(alloc: Global, wrong: u32) -> Result<Settlement, Fail> {
    let bounds = part(alloc, 0, at(wrong, 8, 2, 3))?;
    let levels = levels(alloc, -15, at(wrong, 9, -14, -15))?;
    let live = first_scenarios(at(wrong, 10, 1, 2));
    Ok(Settlement {
        work: work(0, bounds, live, levels, alloc),
        cert: cert(alloc, column_at(wrong, 14, 2, 1))?,
        verdicts: verdicts(alloc, at(wrong, 11, 1, at(wrong, 12, 3, 2)), last(wrong))?,
        outcome: split(alloc, wrong)?,
    })
}

// The end of scenario 0 at a child.
fn closing(alloc: Global, node: u32, low: i64, high: i64) -> Result<Settlement, Fail> {
    let bounds = part(alloc, low, high)?;
    let levels = levels(alloc, -7, 0)?;
    Ok(Settlement {
        work: work(node, bounds, LiveSet::full(1), levels, alloc),
        cert: cert(alloc, 1)?,
        verdicts: verdicts(alloc, 1, Verdict::Bound(0))?,
        outcome: Outcome::Close,
    })
}

// The number of the node that is claimed, None where none is.
fn next(pool: &mut Pool<'_>) -> Result<Option<u32>, AllocError> {
    match pool.claim()? {
        Claim::Node(work) => Ok(Some(work.node)),
        _ => Ok(None),
    }
}

// A pool with places for so many nodes, and caps for both scenarios.
fn pool_of(alloc: Global, problem: &Problem, nodes: u32, cap: i64) -> Result<Pool<'_>, AllocError>
    requires some { 0 < nodes }
    requires few { nodes ≤ 100001 }
    requires scenarios { 1 < length (problems.problem problem.now).scenarios }
{
    let mut pool = Pool::begin(alloc, problem, nodes)?;
    pool.lower(0, -7);
    pool.lower(1, cap);
    Ok(pool)
}

// Claims the root and settles it.
fn answer(alloc: Global, pool: &mut Pool<'_>, wrong: u32) -> Result<Settled, Fail> {
    let settlement = settlement(alloc, wrong)?;
    next(pool)?;
    Ok(pool.settle(settlement))
}

// Claims a node and closes it.
fn close(alloc: Global, pool: &mut Pool<'_>, low: i64, high: i64) -> Result<Option<u32>, Fail> {
    let node = next(pool)?;
    let settlement = closing(alloc, node.unwrap_or(0), low, high)?;
    pool.settle(settlement);
    Ok(node)
}

#[test]
fn settles_what_is_lawful(rt: HostRuntime) -> Result<(), Fail> {
    let problem = two_scenarios(&rt, rt.alloc())?;
    assert_eq!(rt; problem.count(), 2);
    for (cap, wrong, wanted) in [
        (-4, 0, Settled::Split),
        (-3, 0, Settled::Stray),
        (-4, 1, Settled::Stray),
        (-4, 2, Settled::Stray),
        (-4, 3, Settled::Stray),
        (-4, 4, Settled::Stray),
        (-4, 5, Settled::Stray),
        (-4, 6, Settled::Stray),
        (-4, 7, Settled::Stray),
        (-4, 8, Settled::Stray),
        (-4, 9, Settled::Stray),
        (-4, 10, Settled::Stray),
        (-4, 11, Settled::Stray),
        (-4, 12, Settled::Stray),
        (-4, 13, Settled::Stray),
        (-4, 14, Settled::Stray),
    ] {
        let mut pool = pool_of(rt.alloc(), &problem, 3, cap)?;
        let found = answer(rt.alloc(), &mut pool, wrong)?;
        assert_eq!(rt; found, wanted);
        assert_eq!(rt; pool.claimed_count(), 0);
    }
    Ok(())
}

#[test]
fn halts_where_two_nodes_are_too_many(rt: HostRuntime) -> Result<(), Fail> {
    let problem = two_scenarios(&rt, rt.alloc())?;
    assert_eq!(rt; problem.count(), 2);
    for nodes in 1..4 {
        let mut pool = pool_of(rt.alloc(), &problem, nodes, -4)?;
        answer(rt.alloc(), &mut pool, 0)?;
        assert_eq!(rt; pool.is_halted(), nodes < 3);
        assert_eq!(rt; pool.is_stopped(), nodes < 3);
    }
    Ok(())
}

#[test]
fn walks_through_a_tree(rt: HostRuntime) -> Result<(), Fail> {
    let problem = two_scenarios(&rt, rt.alloc())?;
    assert_eq!(rt; problem.count(), 2);
    let mut pool = pool_of(rt.alloc(), &problem, 3, -4)?;
    answer(rt.alloc(), &mut pool, 0)?;
    assert_eq!(rt; close(rt.alloc(), &mut pool, 0, 0)?, Some(1));
    assert_eq!(rt; close(rt.alloc(), &mut pool, 1, 2)?, Some(2));
    assert_eq!(rt; next(&mut pool)?, None);
    let tree = pool.into_tree();
    assert_eq!(rt; tree.len(), 3);
    assert!(rt; matches!(tree.get(0), Some(Node::Split { child: 1, .. })));
    assert!(rt; matches!(tree.get(2), Some(Node::Leaf { .. })));
    Ok(())
}

#[test]
fn gives_back_and_stops(rt: HostRuntime) -> Result<(), Fail> {
    let problem = two_scenarios(&rt, rt.alloc())?;
    assert_eq!(rt; problem.count(), 2);
    let mut pool = Pool::begin(rt.alloc(), &problem, 9)?;
    assert_eq!(rt; pool.end_level(0), Level::Value(-15));
    assert_eq!(rt; pool.cap(0), None);
    // Node 0 before it is claimed.
    let early = settlement(rt.alloc(), 0)?;
    assert_eq!(rt; pool.settle(early), Settled::Stray);
    assert_eq!(rt; next(&mut pool)?, Some(0));
    assert!(rt; pool.give_back(0));
    assert!(rt; !pool.give_back(0));
    assert_eq!(rt; pool.open_count(), 1);
    pool.stop();
    assert_eq!(rt; next(&mut pool)?, None);
    assert_eq!(rt; pool.node_count(), 1);
    Ok(())
}

// min y, x in 0..999 and y in 0..3, and one scenario.
fn wide(rt: &impl Abort, alloc: Global) -> Result<Problem, Fail> {
    let parts = Parts {
        columns: vec![in alloc; column(alloc, b'x', 0, 999)?, column(alloc, b'y', 1, 3)?]?,
        rows: Vec::new(alloc),
        constant: 0,
        direction: Direction::Min,
    };
    let model = Model::build(alloc, parts)?;
    let changes = Changes::new(alloc, &model)?;
    assert!(rt; changes.fits(&model));
    Ok(Problem::new(alloc, model, changes)?)
}

fn end(ends: &[i32], column: usize) -> i64 {
    match ends.get(column) {
        Some(end) => i64::from(*end),
        None => 0,
    }
}

// The bound without multipliers, and a split of the box: the root at y = 0, the others in the middle of x.
fn halves(alloc: Global, work: Work) -> Result<Settlement, Fail> {
    let x = (end(work.bounds.lows(), 0), end(work.bounds.highs(), 0));
    let y = (end(work.bounds.lows(), 1), end(work.bounds.highs(), 1));
    let middle = bounded(x.0.saturating_add(x.1) / 2);
    let least = Arc::new(alloc, Levels::from_vec(vec![in alloc; Level::Value(y.0)]?))?;
    let mut vectors = Vectors::new(alloc);
    vectors.push(Vector::new(alloc, 1, &[])?);
    let is_root = work.node == 0;
    let (column, value, left, right) = if is_root {
        let left = rectangle(alloc, x, (0, 0))?;
        (1, 0, left, rectangle(alloc, x, (1, 3))?)
    } else {
        let left = rectangle(alloc, (x.0, i64::from(middle)), y)?;
        let right = rectangle(alloc, (i64::from(middle) + 1, x.1), y)?;
        (0, middle, left, right)
    };
    Ok(Settlement {
        work,
        cert: Cert {
            steps: Steps::from_vec(Vec::new(alloc)),
            vectors,
        },
        verdicts: verdicts(alloc, 1, Verdict::Bound(0))?,
        outcome: Outcome::Split {
            stay: LiveSet::full(1),
            column,
            value,
            left,
            right,
            left_levels: Arc::try_clone(&least)?,
            right_levels: least,
            left_hint: None,
            right_hint: None,
        },
    })
}

// Claims a node and splits it.
fn split_next(alloc: Global, pool: &mut Pool<'_>) -> Result<Option<u32>, Fail> {
    match pool.claim()? {
        Claim::Node(work) => {
            let node = work.node;
            let settlement = halves(alloc, work)?;
            pool.settle(settlement);
            Ok(Some(node))
        }
        _ => Ok(None),
    }
}

// The children of node 2 have a greater level than all others.
#[test]
fn claims_by_level_and_number_from_several_blocks(rt: HostRuntime) -> Result<(), Fail> {
    let problem = wide(&rt, rt.alloc())?;
    let mut pool = Pool::begin(rt.alloc(), &problem, 281)?;
    for n in 0..140 {
        let wanted = if n < 5 { n } else { n + 2 };
        assert_eq!(rt; split_next(rt.alloc(), &mut pool)?, Some(wanted));
    }
    assert_eq!(rt; pool.open_count(), 141);
    for n in 142..281 {
        assert_eq!(rt; next(&mut pool)?, Some(n));
    }
    assert_eq!(rt; next(&mut pool)?, Some(5));
    assert_eq!(rt; next(&mut pool)?, Some(6));
    assert_eq!(rt; next(&mut pool)?, None);
    Ok(())
}

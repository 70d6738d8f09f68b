// Hints that fit nothing. They count for speed alone, and any may be handed in.
use super::again::is_right;
use super::models::{capacities, odd_sum};
use super::works::{no_cuts, root, settled, settled_at, stay_of};
use bb_core::{Cuts, Hint};
use branching::Branch;
use certs::Vectors;
use dual_bounds::Vector;
use int_model::NearPoint;
use live_sets::LiveSet;
use scenario_changes::Problem;
use std::alloc::{AllocError, Global};
use std::process::Abort;
use std::sync::Arc;
use std::test::Fail;

// The least values of the scenarios that have a point.
const LEAST: [Option<i64>; 4] = [Some(-7), Some(-4), Some(-10), None];

// The scale and the only entry of a vector: a row that isn't there, the scale 0, another scale than that
// of climbs, and the greatest numbers.
const VECTORS: [(u32, (u32, i64)); 5] = [
    (4096, (7, 5)),
    (0, (0, -3)),
    (2, (0, -3)),
    (4096, (u32::MAX, -1)),
    (1_000_000, (0, -1_000_000_000)),
];

// Near points of other lengths than the number of columns, which is two.
const NEAR: [&[i64]; 3] = [&[], &[i64::MAX], &[i64::MIN, 0, i64::MAX]];

fn hint_of(
    alloc: Global,
    scale: u32,
    entry: (u32, i64),
    near: &[i64],
) -> Result<Option<Arc<Hint>>, Fail> {
    let mut vectors = Vectors::new(alloc);
    vectors.push(Vector::new(alloc, scale, &[entry])?);
    let near = NearPoint::from_vec(near.to_vec(alloc)?);
    Ok(Some(Arc::new(alloc, Hint { vectors, near })?))
}

// The same cut for so many scenarios.
fn same_cuts(alloc: Global, cut: i64, count: usize) -> Result<Cuts, AllocError> {
    Ok(Cuts::from_vec(vec![in alloc; Some(cut); count]?))
}

// The scenarios that stay at the root with these hints.
fn stayers(
    rt: &impl Abort,
    alloc: Global,
    problem: &Problem,
    hint: Option<Arc<Hint>>,
    hinted: Cuts,
    cuts: &[Option<i64>],
) -> Result<LiveSet, Fail> {
    let work = root(alloc, problem, hint, hinted)?;
    let settlement = settled(rt, alloc, problem, work, cuts)?;
    assert!(rt; is_right(alloc, problem, &settlement, cuts)?);
    Ok(stay_of(&settlement.outcome))
}

#[test]
fn vectors_and_near_points_that_fit_nothing(rt: HostRuntime) -> Result<(), Fail> {
    let alloc = rt.alloc();
    let problem = capacities(&rt, alloc)?;
    let plain = stayers(&rt, alloc, &problem, None, no_cuts(alloc), &LEAST)?;
    for (scale, entry) in VECTORS {
        for near in NEAR {
            let hint = hint_of(alloc, scale, entry, near)?;
            let stay = stayers(&rt, alloc, &problem, hint, no_cuts(alloc), &LEAST)?;
            assert_eq!(&rt; stay, plain);
        }
    }
    Ok(())
}

#[test]
fn cuts_of_another_length(rt: HostRuntime) -> Result<(), Fail> {
    let alloc = rt.alloc();
    let problem = capacities(&rt, alloc)?;
    let plain = stayers(&rt, alloc, &problem, None, no_cuts(alloc), &LEAST)?;
    for count in [1, 3, 5, 100] {
        let hinted = same_cuts(alloc, -1000, count)?;
        assert_eq!(&rt; stayers(&rt, alloc, &problem, None, hinted, &LEAST)?, plain);
    }
    Ok(())
}

#[test]
fn cuts_below_every_level(rt: HostRuntime) -> Result<(), Fail> {
    let alloc = rt.alloc();
    let problem = capacities(&rt, alloc)?;
    let plain = stayers(&rt, alloc, &problem, None, no_cuts(alloc), &LEAST)?;
    let hinted = same_cuts(alloc, i64::MIN, 4)?;
    let stay = stayers(&rt, alloc, &problem, None, hinted, &LEAST)?;
    // The levels may be less than without the hint.
    assert!(&rt; plain.is_subset(stay));
    Ok(())
}

// Splits outside the box of `odd_sum`, whose columns go from 0 to 1.
const SPLITS: [Branch; 5] = [
    Branch {
        column: 3,
        value: 0,
    },
    Branch {
        column: u32::MAX,
        value: 0,
    },
    Branch {
        column: 0,
        value: 1,
    },
    Branch {
        column: 1,
        value: -1,
    },
    Branch {
        column: 2,
        value: i32::MAX,
    },
];

#[test]
fn splits_outside_the_hull(rt: HostRuntime) -> Result<(), Fail> {
    let alloc = rt.alloc();
    let problem = odd_sum(alloc)?;
    for split in SPLITS {
        let work = root(alloc, &problem, None, no_cuts(alloc))?;
        let settlement = settled_at(&rt, alloc, &problem, work, &[None], split)?;
        assert!(&rt; is_right(alloc, &problem, &settlement, &[None])?);
        assert!(&rt; stay_of(&settlement.outcome).contains(0));
    }
    Ok(())
}

// What becomes of worked nodes.
use super::again::is_right;
use super::models::{capacities, odd_sum};
use super::works::{no_cuts, root, settled, stay_of};
use bb_core::{Cuts, Outcome, Settlement};
use live_sets::LiveSet;
use scenario_changes::Problem;
use std::alloc::Global;
use std::process::Abort;
use std::test::Fail;

// Cuts of the scenarios, which of them then stay, and the greatest corner of their hull, in which the row
// bounds x. Who stays doesn't depend on the vectors: a level is at least that of the root's box, which is
// -15, -15 and -21, and at most the least value; scenario 3 has no point.
type Case = ([Option<i64>; 4], [bool; 4], Option<(i32, i32)>);

const CASES: [Case; 5] = [
    (
        [None, None, None, None],
        [true, true, true, false],
        Some((2, 3)),
    ),
    (
        [None, Some(-15), Some(-21), None],
        [true, false, false, false],
        Some((2, 3)),
    ),
    (
        [Some(-15), None, Some(-21), None],
        [false, true, false, false],
        Some((1, 3)),
    ),
    (
        [Some(-15), Some(-15), Some(-9), None],
        [false, false, true, false],
        Some((2, 3)),
    ),
    (
        [Some(-15), Some(-15), Some(-21), None],
        [false, false, false, false],
        None,
    ),
];

// What is decided at the root by a probe that looks for no point, since all is below its cut.
fn decided(
    rt: &impl Abort,
    alloc: Global,
    problem: &Problem,
    cuts: &[Option<i64>],
) -> Result<Settlement, Fail> {
    let below_all = Cuts::from_vec(vec![in alloc; Some(-1000); 4]?);
    let work = root(alloc, problem, None, below_all)?;
    settled(rt, alloc, problem, work, cuts)
}

// Whether exactly those scenarios are members for which it says so; none past its end.
fn are_members(stay: LiveSet, expected: &[bool]) -> bool {
    for s in 0..64 {
        let is_expected = expected.get(s as usize).copied().unwrap_or(false);
        if stay.contains(s) != is_expected {
            return false;
        }
    }
    true
}

// The greatest corner of the children's boxes.
fn corner(outcome: &Outcome) -> Option<(i32, i32)> {
    match outcome {
        Outcome::Close => None,
        Outcome::Split { right, .. } => match right.highs() {
            [x, y] => Some((*x, *y)),
            _ => None,
        },
    }
}

// Decides at the root with these cuts, and asserts what is known of that.
fn try_cuts(
    rt: &impl Abort,
    alloc: Global,
    problem: &Problem,
    cuts: &[Option<i64>],
    expected: &[bool],
    greatest: Option<(i32, i32)>,
) -> Result<(), Fail> {
    let settlement = decided(rt, alloc, problem, cuts)?;
    assert!(rt; is_right(alloc, problem, &settlement, cuts)?);
    assert!(rt; are_members(stay_of(&settlement.outcome), expected));
    assert_eq!(rt; corner(&settlement.outcome), greatest);
    Ok(())
}

#[test]
fn scenarios_below_their_cut_stay(rt: HostRuntime) -> Result<(), Fail> {
    let alloc = rt.alloc();
    let problem = capacities(&rt, alloc)?;
    for (cuts, expected, greatest) in CASES {
        try_cuts(&rt, alloc, &problem, &cuts, &expected, greatest)?;
    }
    Ok(())
}

// Whether one scenario stays, and the box is split between 0 and 1 at some column.
fn is_split_in_two(outcome: &Outcome) -> bool {
    match outcome {
        Outcome::Close => false,
        Outcome::Split {
            stay,
            column,
            value,
            ..
        } => are_members(*stay, &[true, false]) && *column < 3 && *value == 0,
    }
}

#[test]
fn what_no_vector_shows_is_split(rt: HostRuntime) -> Result<(), Fail> {
    let alloc = rt.alloc();
    let problem = odd_sum(alloc)?;
    let work = root(alloc, &problem, None, no_cuts(alloc))?;
    let settlement = settled(&rt, alloc, &problem, work, &[None])?;
    assert!(&rt; is_right(alloc, &problem, &settlement, &[None])?);
    assert!(&rt; is_split_in_two(&settlement.outcome));
    Ok(())
}

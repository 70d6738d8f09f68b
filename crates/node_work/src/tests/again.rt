// What was probed and decided, checked again by the calls of `certs`.
use super::works::{is_fit, stay_of};
use bb_core::{Outcome, Settlement, Work};
use certs::{Cert, Level, Levels, Verdicts, hull_stayers, raise};
use int_model::PointBox;
use live_sets::LiveSet;
use scenario_changes::Problem;
use std::alloc::Global;
use std::test::Fail;

/// The levels of the live scenarios, raised by the verdicts. None where a verdict isn't valid.
pub(super) fn raised_again(
    alloc: Global,
    problem: &Problem,
    work: &Work,
    cert: &Cert,
    verdicts: &Verdicts,
) -> Result<Option<Vec<Option<Level>>>, Fail> {
    if !is_fit(problem, work) {
        return Ok(None);
    }
    if !cert.fits(problem) {
        return Ok(None);
    }
    let mut levels = Vec::with_capacity(alloc, problem.count() as usize)?;
    let mut replay = work.bounds.copy(alloc)?;
    let is_valid = raise(
        problem,
        &work.bounds,
        work.live,
        &work.levels,
        cert,
        verdicts,
        &mut levels,
        &mut replay,
    );
    if is_valid { Ok(Some(levels)) } else { Ok(None) }
}

fn level_at(levels: &[Option<Level>], s: u32) -> Option<Level> {
    match levels.get(s as usize) {
        Some(level) => *level,
        None => None,
    }
}

fn cut_at(cuts: &[Option<i64>], s: u32) -> Option<i64> {
    match cuts.get(s as usize) {
        Some(cut) => *cut,
        None => None,
    }
}

// The scenarios whose level is below their cut.
fn below_cuts(levels: &[Option<Level>], cuts: &[Option<i64>]) -> LiveSet {
    let mut below = LiveSet::none();
    for s in 0..64 {
        if let Some(level) = level_at(levels, s) {
            if !level.reaches(cut_at(cuts, s)) {
                below.insert(s);
            }
        }
    }
    below
}

// The hull of the stayers' replays, None where no scenario stays.
fn hull_again(
    alloc: Global,
    problem: &Problem,
    settlement: &Settlement,
) -> Result<Option<PointBox>, Fail> {
    let work = &settlement.work;
    if !is_fit(problem, work) {
        return Ok(None);
    }
    if !settlement.cert.fits(problem) {
        return Ok(None);
    }
    let stay = stay_of(&settlement.outcome);
    let mut hull = work.bounds.copy(alloc)?;
    let mut replay = work.bounds.copy(alloc)?;
    if !hull_stayers(
        problem,
        &work.bounds,
        &settlement.cert,
        stay,
        &mut hull,
        &mut replay,
    ) {
        return Ok(None);
    }
    Ok(Some(hull))
}

fn ends(bounds: &PointBox, j: usize) -> Option<(i32, i32)> {
    match (bounds.lows().get(j), bounds.highs().get(j)) {
        (Some(low), Some(high)) => Some((*low, *high)),
        _ => None,
    }
}

// Whether two intervals are those of a third one up to a value and above it.
fn is_cut(
    whole: Option<(i32, i32)>,
    value: i32,
    left: Option<(i32, i32)>,
    right: Option<(i32, i32)>,
) -> bool {
    let Some((low, high)) = whole else {
        return false;
    };
    let is_inside = low <= value && value < high;
    is_inside && left == Some((low, value)) && right == Some((value.saturating_add(1), high))
}

// Whether two boxes are the parts of a third one that is split there.
fn are_parts(whole: &PointBox, column: u32, value: i32, left: &PointBox, right: &PointBox) -> bool {
    let mut is_found = false;
    for j in 0..whole.lows().len() {
        let (here, below, above) = (ends(whole, j), ends(left, j), ends(right, j));
        let is_right = if j == column as usize {
            is_found = true;
            is_cut(here, value, below, above)
        } else {
            below == here && above == here
        };
        if !is_right {
            return false;
        }
    }
    is_found
}

// Whether the levels of the stayers are the raised ones.
fn are_kept(stay: LiveSet, raised: &[Option<Level>], levels: &Levels) -> bool {
    for s in stay.iter() {
        if level_at(raised, s) != levels.get(s as usize).copied() {
            return false;
        }
    }
    true
}

// Whether the children are those of a split of the hull.
fn is_split(outcome: &Outcome, hull: &PointBox, raised: &[Option<Level>]) -> bool {
    match outcome {
        Outcome::Close => false,
        Outcome::Split {
            stay,
            column,
            value,
            left,
            right,
            left_levels,
            right_levels,
            ..
        } => {
            are_parts(hull, *column, *value, left, right)
                && are_kept(*stay, raised, left_levels)
                && are_kept(*stay, raised, right_levels)
        }
    }
}

/// Whether exactly the scenarios stay whose level, raised by their verdict, is below their cut, and the
/// children are two parts of the hull of their replays, with these levels.
pub(super) fn is_right(
    alloc: Global,
    problem: &Problem,
    settlement: &Settlement,
    cuts: &[Option<i64>],
) -> Result<bool, Fail> {
    let Some(raised) = raised_again(
        alloc,
        problem,
        &settlement.work,
        &settlement.cert,
        &settlement.verdicts,
    )?
    else {
        return Ok(false);
    };
    let stay = stay_of(&settlement.outcome);
    if stay != below_cuts(&raised, cuts) {
        return Ok(false);
    }
    match hull_again(alloc, problem, settlement)? {
        None => Ok(stay.is_empty()),
        Some(hull) => Ok(is_split(&settlement.outcome, &hull, &raised)),
    }
}

// Rows that together leave no point.
use super::again::is_right;
use super::models::crowded;
use super::works::{is_fit, no_cuts, root, settled, stay_of};
use bb_core::Settlement;
use certs::{Verdict, is_stayer};
use scenario_changes::Problem;
use std::alloc::Global;
use std::test::Fail;

// Whether tightening leaves a box that no row misses.
fn is_left(alloc: Global, problem: &Problem, settlement: &Settlement) -> Result<bool, Fail> {
    let work = &settlement.work;
    if !is_fit(problem, work) {
        return Ok(false);
    }
    if !settlement.cert.fits(problem) {
        return Ok(false);
    }
    let mut part = work.bounds.copy(alloc)?;
    Ok(problem.count() > 0 && is_stayer(problem, 0, &work.bounds, &settlement.cert, &mut part))
}

// Whether scenario 0 ends by a vector whose scale is 0.
fn ends_by_ray(settlement: &Settlement) -> bool {
    let Some(Verdict::Farkas(k)) = settlement.verdicts.get(0).copied() else {
        return false;
    };
    match settlement.cert.vectors.get(k as usize) {
        Some(vector) => vector.scale() == 0,
        None => false,
    }
}

#[test]
fn rows_together_leave_no_point(rt: HostRuntime) -> Result<(), Fail> {
    let alloc = rt.alloc();
    let problem = crowded(alloc)?;
    let work = root(alloc, &problem, None, no_cuts(alloc))?;
    let settlement = settled(&rt, alloc, &problem, work, &[None])?;
    assert!(&rt; is_left(alloc, &problem, &settlement)?);
    assert!(&rt; ends_by_ray(&settlement));
    assert!(&rt; stay_of(&settlement.outcome).is_empty());
    assert!(&rt; is_right(alloc, &problem, &settlement, &[None])?);
    Ok(())
}

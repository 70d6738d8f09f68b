// Worked probes.
use super::again::raised_again;
use super::models::capacities;
use super::works::{no_cuts, probed, root};
use certs::Level;
use scenario_changes::Problem;
use std::alloc::Global;
use std::process::Abort;
use std::test::Fail;

// The raised levels at the root, where there are no hints.
fn root_levels(
    rt: &impl Abort,
    alloc: Global,
    problem: &Problem,
) -> Result<Vec<Option<Level>>, Fail> {
    let work = root(alloc, problem, None, no_cuts(alloc))?;
    let made = probed(rt, alloc, problem, &work)?;
    assert_eq!(rt; made.cert.steps.len(), 1);
    assert_eq!(rt; made.cert.vectors.len(), 2);
    assert!(rt; !made.found.is_empty());
    let raised = raised_again(alloc, problem, &work, &made.cert, &made.verdicts)?;
    Ok(raised.ok_or("not valid")?)
}

#[test]
fn root_is_bounded(rt: HostRuntime) -> Result<(), Fail> {
    let alloc = rt.alloc();
    let problem = capacities(&rt, alloc)?;
    let levels = root_levels(&rt, alloc, &problem)?;
    // The bounds of the linear relaxations, rounded up, are the least values; scenario 3 has no point.
    for (s, value) in [(0, -7), (1, -4), (2, -10)] {
        assert_eq!(&rt; levels.get(s).copied(), Some(Some(Level::Value(value))));
    }
    assert_eq!(&rt; levels.get(3).copied(), Some(Some(Level::Inf)));
    Ok(())
}

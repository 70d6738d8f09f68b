// Generated problems of several sizes.
use super::*;
use std::test::Fail;

#[test]
fn makes_problems(rt: HostRuntime) -> Result<(), Fail> {
    let sizes: [(u64, u32, u32, u32); 4] = [
        (7, 40, 20, 8),
        (1, 1, 0, 0),
        (u64::MAX, 3, 5, 2),
        (9, 12, 1, 64),
    ];
    for (seed, columns, rows, scenarios) in sizes {
        let problem = make_problem(rt.alloc(), seed, columns, rows, scenarios)?;
        assert_eq!(rt; problem.model().columns(), columns);
        assert_eq!(rt; problem.model().rows(), rows);
        assert_eq!(rt; problem.num_scenarios(), scenarios);
    }
    Ok(())
}

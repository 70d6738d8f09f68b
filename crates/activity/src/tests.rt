use super::*;
use int_model::{Ends, PointBox};
use std::test::Fail;

#[test]
fn sums_of_both_signs(rt: HostRuntime) -> Result<(), Fail> {
    let low = [-1, 4, -7];
    let high = [2, 5, -3];
    assert_eq!(rt; least(&[(0, 2), (1, -3)], &low, &high), -17);
    assert_eq!(rt; most(&[(0, 2), (1, -3)], &low, &high), -8);
    assert_eq!(rt; extremes(&[(0, 2), (1, -3)], &low, &high), (-17, -8, 7));
    assert_eq!(rt; least(&[(0, -2), (2, 3)], &low, &high), -25);
    assert_eq!(rt; most(&[(0, -2), (2, 3)], &low, &high), -7);
    assert_eq!(rt; least(&[(2, -5)], &low, &high), 15);
    assert_eq!(rt; most(&[(2, -5)], &low, &high), 35);
    Ok(())
}

#[test]
fn sums_at_the_limits(rt: HostRuntime) -> Result<(), Fail> {
    assert_eq!(rt; least(&[], &[1], &[2]), 0);
    assert_eq!(rt; most(&[], &[1], &[2]), 0);
    let low = [-1_000_000, 1_000_000];
    let high = [-1_000_000, 1_000_000];
    let terms = [(0, -1_000_000_000), (1, -1_000_000_000)];
    assert_eq!(rt; least(&terms, &low, &high), 0);
    assert_eq!(rt; most(&terms, &low, &high), 0);
    assert_eq!(rt;
        most(&[(0, -1_000_000_000)], &low, &high),
        1_000_000_000_000_000
    );
    Ok(())
}

#[test]
fn a_row_is_missed(rt: HostRuntime) -> Result<(), Fail> {
    let bounds = PointBox::from_ends(rt.alloc(), &[2, -1], &[3, 4])?;
    let terms = [(0, 2), (1, -1)];
    let cases = [
        (None, None, false),
        (None, Some(0), false),
        (None, Some(-1), true),
        (Some(7), None, false),
        (Some(8), None, true),
        (Some(1), Some(-1), true),
        (Some(0), Some(7), false),
    ];
    for (lower, upper, missed) in cases {
        assert_eq!(rt; misses(&terms, Ends { lower, upper }, &bounds), missed);
    }
    Ok(())
}

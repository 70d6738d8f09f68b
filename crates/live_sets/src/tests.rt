// Sets at the ends of their range.
ghost use Rattle.std.specs.Prelude.{◌≡◌, ◌++◌, IfOk, map};

use super::*;
use std::alloc::{AllocError, Global};
use std::test::Fail;

// What a loop over a set goes through.
fn visited(alloc: Global, set: LiveSet) -> Result<Vec<u32>, AllocError>
    ensures { IfOk result (λ v. v.items ≡ set) }
{
    let mut members = Vec::new(alloc);
    for s in set.iter() {
        members.push(s)?;
    }
    Ok(members)
}

fn collected(alloc: Global, set: LiveSet) -> Result<Vec<u32>, AllocError>
    ensures { IfOk result (λ v. v.items ≡ set) }
{
    set.iter().collect(alloc)
}

#[test]
fn full_sets_hold_the_numbers_below(rt: HostRuntime) -> Result<(), Fail> {
    for n in [0, 1, 63, 64] {
        let set = LiveSet::full(n);
        assert_eq!(rt; set.count(), n);
        assert_eq!(rt; set.is_empty(), n == 0, "at {n}");
        let mut next = 0u32;
        for s in set.iter() {
            assert_eq!(rt; s, next, "at {n}");
            next = next.wrapping_add(1);
        }
        assert_eq!(rt; next, n);
        for s in [0, 62, 63, 64, u32::MAX] {
            assert_eq!(rt; set.contains(s), s < n, "{s} at {n}");
        }
    }
    Ok(())
}

#[test]
fn changed_sets_stay_in_order(rt: HostRuntime) -> Result<(), Fail> {
    let alloc = rt.alloc();
    let mut set = LiveSet::none();
    for s in [63, 5, 0, 5, 40] {
        set.insert(s);
    }
    assert_eq!(rt; visited(alloc, set)?.as_slice(), [0, 5, 40, 63].as_slice());
    set.remove(63);
    set.remove(7);
    assert_eq!(rt; collected(alloc, set)?.as_slice(), [0, 5, 40].as_slice());
    assert_eq!(rt; set.count(), 3);
    assert_eq!(rt; set.is_subset(LiveSet::full(40)), false);
    assert_eq!(rt; set.is_subset(LiveSet::full(41)), true);
    assert_eq!(rt; LiveSet::full(41).is_subset(set), false);
    assert_eq!(rt; LiveSet::none().is_subset(set), true);
    let mut other = set;
    other.remove(5);
    assert_eq!(rt; set == other, false);
    other.insert(5);
    assert_eq!(rt; set, other);
    Ok(())
}

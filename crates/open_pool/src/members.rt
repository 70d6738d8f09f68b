// The live scenarios that have a level.
ghost use Rattle.std.specs.Prelude.{◌<◌, ◌≤◌, ◌↔◌, ℕ, Contains};

use live_sets::LiveSet;

/// The members below a number.
pub(crate) fn members_below(live: LiveSet, count: usize) -> LiveSet
    requires { count ≤ 64 }
    ensures { (k : ℕ) → Contains result k ↔ ((k < count) × Contains live k) }
{
    let mut members = LiveSet::none();
    for s in 0..count {
        if live.contains(s as u32) {
            members.insert(s as u32);
        }
    }
    members
}

// Scans over a pool's nodes.
ghost use Rattle.std.specs.Prelude.{◌≡◌, ◌⊎◌, ◌<◌, ◌≤◌, ℕ, true, false, length, IfSome, IsTrue, MatchBool, MatchOption};
ghost use Rattle.certs.specs.Levels.{level_le};
ghost use Rattle.bb_core.specs.Coverage.{Closed, Open, slot_at};
ghost use Rattle.open_pool.specs.Ends.{waiting_bound};
ghost use Rattle.open_pool.specs.Marks.{claimed, least_live};
ghost use Rattle.open_pool.specs.Pooled.{HasNone, IsNext};
ghost use Rattle.open_pool.specs.Pooled as spec;

use crate::levels::lesser;
use crate::slot::Slot;
use certs::Level;

/// Whether some node is claimed. Where none is, each is open or closed.
pub(crate) fn has_claimed(slots: &[Slot]) -> bool
    ensures claimed { MatchBool result (HasNone slots.now claimed → ⊥) (HasNone slots.now claimed) }
    ensures others { result ≡ false → (n : ℕ) → n < length slots.now → ((slot_at slots.now n).mark ≡ Open) ⊎ ((slot_at slots.now n).mark ≡ Closed) }
{
    for n in 0..slots.len() {
        let slot = &slots[n];
        if slot.is_claimed() {
            return true;
        }
    }
    false
}

/// The least level of a scenario over the nodes that aren't closed.
pub(crate) fn waiting_least(slots: &[Slot], s: u32) -> Level
    ensures { result ≡ waiting_bound s slots.now }
{
    let mut least = Level::Inf;
    let mut n = slots.len();
    while n > 0 {
        n -= 1;
        let slot = &slots[n];
        least = lesser(slot.waiting_level(s), least);
    }
    least
}

/// How many nodes are open.
pub(crate) fn count_open(slots: &[Slot]) -> u32
    requires { length slots.now ≤ 100001 }
    ensures { result ≡ spec.count_open slots.now }
{
    let mut count = 0;
    for n in 0..slots.len() {
        let slot = &slots[n];
        if slot.is_open() {
            count += 1;
        }
    }
    count
}

/// How many nodes are claimed.
pub(crate) fn count_claimed(slots: &[Slot]) -> u32
    requires { length slots.now ≤ 100001 }
    ensures { result ≡ spec.count_claimed slots.now }
{
    let mut count = 0;
    for n in 0..slots.len() {
        let slot = &slots[n];
        if slot.is_claimed() {
            count += 1;
        }
    }
    count
}

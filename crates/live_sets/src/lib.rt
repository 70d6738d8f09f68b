//! Sets of scenarios: numbers below 64, which contracts see as rising lists.
#![tactic(auto)]

ghost use Rattle.std.specs.Prelude.{◌≡◌, ◌≢◌, ◌↔◌, ◌⊎◌, ◌<◌, ◌≤◌, ◌==◌, ℕ, [], All, Contains, IsTrue, filter, length, not};
ghost use Rattle.std.specs.Cmp.{partial_equiv_from_equiv};
ghost use Rattle.std.specs.Cmp.Lexicographic.{pointwise, nat_list_eq_equiv};
ghost use Rattle.std.specs.Iterator.{YieldsFirst};
ghost use Rattle.std.specs.List.{range_with_len};
ghost use Rattle.live_sets.specs.Members.{IsLiveList, with_member};

mod live_iter;
#[cfg(test)]
mod tests;

pub use live_iter::LiveIter;

/// A set of numbers below 64.
#[derive(Clone, Copy, Debug)]
pub struct LiveSet {
    // The bit s is set where s is a member.
    bits: u64,
}

impl std::marker::Model for LiveSet {
    ghost use Rattle.std.specs.Prelude.{ℕ, List, ◌<◌, ◌^◌};
    ghost use Rattle.std.proofs.Common.{ap};
    ghost use Rattle.live_sets.specs.Members.{members, bits_of};
    ghost use Rattle.live_sets.specs.Inverse.{bits_of-members};

    ghost Value = { List ℕ };

    ghost view = { λ s. members s.bits };

    ghost invariant = { λ s. s.bits < 2 ^ 64 };

    ghost inverse = { λ ks. record { bits = bits_of ks } };

    ghost inverse_ok = { λ a h. ap (λ (n : ℕ). record { bits = n }) (bits_of-members a.bits h) };
}

impl PartialEq for LiveSet {
    ghost eq = { pointwise ◌==◌ };

    ghost laws = { partial_equiv_from_equiv nat_list_eq_equiv };

    fn eq(&self, other: &LiveSet) -> bool
        ensures value { result ≡ pointwise ◌==◌ self.now other.now }
        ensures same { IsTrue result ↔ (self.now ≡ other.now) }
    {
        self.bits == other.bits
    }
}

impl Eq for LiveSet {
    ghost laws = { nat_list_eq_equiv };
}

impl LiveSet {
    /// The set without members.
    pub fn none() -> LiveSet
        ensures { result ≡ [] }
    {
        LiveSet { bits: 0 }
    }

    /// The numbers below `n`.
    pub fn full(n: u32) -> LiveSet
        requires { n ≤ 64 }
        ensures { result ≡ range_with_len 0 n }
    {
        if n == 64 {
            LiveSet { bits: u64::MAX }
        } else {
            LiveSet { bits: (1 << n) - 1 }
        }
    }

    /// Whether `s`, which may be any number, is a member.
    pub fn contains(&self, s: u32) -> bool
        ensures member { IsTrue result ↔ Contains self.now s }
        ensures set { IsLiveList self.now }
    {
        let bits = self.bits;
        s < 64 && (bits >> s) & 1 == 1
    }

    /// Makes `s` a member.
    pub fn insert(&mut self, s: u32)
        requires { s < 64 }
        ensures exact { self.new ≡ with_member s self.old }
        ensures members { (k : ℕ) → Contains self.new k ↔ ((k ≡ s) ⊎ Contains self.old k) }
        ensures set { IsLiveList self.new }
    {
        self.bits |= 1 << s;
    }

    /// Makes `s` no member.
    pub fn remove(&mut self, s: u32)
        requires { s < 64 }
        ensures exact { self.new ≡ filter (λ k. not (k == s)) self.old }
        ensures members { (k : ℕ) → Contains self.new k ↔ (Contains self.old k × (k ≢ s)) }
        ensures set { IsLiveList self.new }
    {
        self.bits &= !(1 << s);
    }

    /// Whether there are no members.
    pub fn is_empty(&self) -> bool
        ensures { IsTrue result ↔ (self.now ≡ []) }
    {
        self.bits == 0
    }

    /// How many members there are, at most 64.
    pub fn count(&self) -> u32
        ensures value { result ≡ length self.now }
        ensures limit { result ≤ 64 }
    {
        self.bits.count_ones()
    }

    /// Whether each member is one of the other set.
    pub fn is_subset(&self, other: LiveSet) -> bool
        ensures { IsTrue result ↔ All (Contains other) self.now }
    {
        self.bits & !other.bits == 0
    }

    /// The members in rising order.
    pub fn iter(&self) -> LiveIter
        ensures members { result ≡ self.now }
        ensures set { IsLiveList self.now }
    {
        let _ = &self.bits;
        LiveIter::new(*self)
    }

    // Takes out the least member.
    pub(crate) fn pop_first(&mut self) -> Option<u32>
        ensures { YieldsFirst (λ s. s) self.old result self.new }
    {
        if self.bits == 0 {
            return None;
        }
        let first = self.bits.trailing_zeros();
        self.bits &= !(1 << first);
        Some(first)
    }
}

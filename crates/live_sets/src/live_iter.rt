// The members of a set, one after another.
use crate::LiveSet;

/// The members of a [`LiveSet`] that are left, in rising order.
#[derive(Drop)]
pub struct LiveIter {
    rest: LiveSet,
}

impl std::marker::Model for LiveIter {
    ghost use Rattle.std.specs.Prelude.{ℕ, List};

    ghost Value = { List ℕ };

    ghost view = { λ i. i.rest };
}

impl LiveIter {
    ghost use Rattle.std.specs.Prelude.{◌≡◌};

    pub(crate) fn new(rest: LiveSet) -> LiveIter
        ensures { result ≡ rest }
    {
        LiveIter { rest }
    }
}

impl Iterator for LiveIter {
    type Item = u32;

    ghost use Rattle.std.specs.Iterator.{YieldsFirst, item_count};

    ghost next_gives = { YieldsFirst (λ i. i) };

    ghost remaining = { item_count (λ i. i) };

    fn next(&mut self) -> Option<u32> {
        self.rest.pop_first()
    }
}

// The list of cuts.
ghost use Rattle.std.specs.Prelude.{◌≡◌, length, slice_get, option_copied};

use std::marker::Model;

/// For each scenario a value that is to be undercut, None where none is known yet. A work may bring
/// them as a hint.
#[derive(Drop)]
pub struct Cuts {
    items: Vec<Option<i64>>,
}

impl Model for Cuts {
    ghost use Rattle.std.specs.Prelude.{ℤ, List, Option};

    ghost Value = { List (Option ℤ) };

    ghost view = { λ c. c.items.items };
}

impl Cuts {
    /// The list of these items.
    pub fn from_vec(items: Vec<Option<i64>>) -> Cuts
        ensures { result ≡ items.items }
    {
        Cuts { items }
    }

    /// How many there are.
    pub fn len(&self) -> usize
        ensures { result ≡ length self.now }
    {
        self.items.len()
    }

    /// Item k, None where there are no more than k.
    pub fn get(&self, k: usize) -> Option<&Option<i64>>
        ensures { option_copied result ≡ slice_get self.now k }
    {
        self.items.get(k)
    }

    /// All items.
    pub fn as_slice(&self) -> &[Option<i64>]
        ensures { result.now ≡ self.now }
    {
        &self.items
    }
}

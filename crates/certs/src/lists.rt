// Lists of steps, of vectors, of verdicts and of levels.
ghost use Rattle.std.specs.Prelude.{◌≡◌, ◌<◌, ◌≤◌, [], ◌∷◌, ◌++◌, length, slice_get, option_copied};

use crate::{Level, Verdict};
use dual_bounds::Vector;
use smallvec::SmallVec;
use std::alloc::Global;
use std::marker::Model;
use tighten::Step;

/// Steps of bound tightening, in order.
#[derive(Drop)]
pub struct Steps {
    items: Vec<Step>,
}

impl Model for Steps {
    ghost use Rattle.std.specs.Prelude.{List};
    ghost use Rattle.tighten.specs.declared.step.Step.{Step};

    ghost Value = { List Step };

    ghost view = { λ s. s.items.items };
}

impl Steps {
    /// The list of these items.
    pub fn from_vec(items: Vec<Step>) -> Steps
        ensures { result ≡ items.items }
    {
        Steps { items }
    }

    /// How many there are.
    pub fn len(&self) -> usize
        ensures { result ≡ length self.now }
    {
        self.items.len()
    }

    /// Item k, None where there are no more than k.
    pub fn get(&self, k: usize) -> Option<&Step>
        ensures { option_copied result ≡ slice_get self.now k }
    {
        self.items.get(k)
    }

    /// All items.
    pub fn as_slice(&self) -> &[Step]
        ensures { result.now ≡ self.now }
    {
        &self.items
    }
}

/// At most two vectors of multipliers, which lie in the value itself.
#[derive(Drop)]
pub struct Vectors {
    // A place that isn't taken is None, since a vector has no blank of its own.
    places: SmallVec<Option<Vector>, 2>,
}

impl Model for Vectors {
    ghost use Rattle.std.specs.Prelude.{List};
    ghost use Rattle.dual_bounds.specs.Vectors.{Multipliers};
    ghost use Rattle.certs.specs.Places.{IsHeld, held};

    ghost Value = { List Multipliers };

    ghost view = { λ v. held v.places.items };

    ghost invariant = { λ v. IsHeld v.places };
}

impl Vectors {
    /// No vectors.
    pub fn new(alloc: Global) -> Vectors
        ensures { result ≡ [] }
    {
        Vectors {
            places: SmallVec::new(alloc),
        }
    }

    /// Puts a vector after the others. It takes no memory.
    pub fn push(&mut self, vector: Vector)
        requires { length self.old < 2 }
        ensures { self.new ≡ self.old ++ vector ∷ [] }
    {
        self.places.push_reserved(Some(vector));
    }

    /// How many there are: at most two.
    pub fn len(&self) -> usize
        ensures value { result ≡ length self.now }
        ensures limit { result ≤ 2 }
    {
        self.places.len()
    }

    /// Vector k, None where there are no more than k.
    pub fn get(&self, k: usize) -> Option<&Vector>
        ensures { option_copied result ≡ slice_get self.now k }
    {
        self.places.as_slice().get(k)?.as_ref()
    }
}

/// Verdicts of one certificate for several scenarios, in rising order of these.
#[derive(Drop)]
pub struct Verdicts {
    items: Vec<Verdict>,
}

impl Model for Verdicts {
    ghost use Rattle.std.specs.Prelude.{List};
    ghost use Rattle.certs.specs.declared.verdict.Verdict.{Verdict};

    ghost Value = { List Verdict };

    ghost view = { λ s. s.items.items };
}

impl Verdicts {
    /// The list of these items.
    pub fn from_vec(items: Vec<Verdict>) -> Verdicts
        ensures { result ≡ items.items }
    {
        Verdicts { items }
    }

    /// How many there are.
    pub fn len(&self) -> usize
        ensures { result ≡ length self.now }
    {
        self.items.len()
    }

    /// Item k, None where there are no more than k.
    pub fn get(&self, k: usize) -> Option<&Verdict>
        ensures { option_copied result ≡ slice_get self.now k }
    {
        self.items.get(k)
    }

    /// All items.
    pub fn as_slice(&self) -> &[Verdict]
        ensures { result.now ≡ self.now }
    {
        &self.items
    }
}

/// A level for each scenario.
#[derive(Drop)]
pub struct Levels {
    items: Vec<Level>,
}

impl Model for Levels {
    ghost use Rattle.std.specs.Prelude.{List};
    ghost use Rattle.certs.specs.declared.level.Level.{Level};

    ghost Value = { List Level };

    ghost view = { λ s. s.items.items };
}

impl Levels {
    /// The list of these items.
    pub fn from_vec(items: Vec<Level>) -> Levels
        ensures { result ≡ items.items }
    {
        Levels { items }
    }

    /// How many there are.
    pub fn len(&self) -> usize
        ensures { result ≡ length self.now }
    {
        self.items.len()
    }

    /// Item k, None where there are no more than k.
    pub fn get(&self, k: usize) -> Option<&Level>
        ensures { option_copied result ≡ slice_get self.now k }
    {
        self.items.get(k)
    }

    /// All items.
    pub fn as_slice(&self) -> &[Level]
        ensures { result.now ≡ self.now }
    {
        &self.items
    }
}

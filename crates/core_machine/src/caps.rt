// Lists of caps.
ghost use Rattle.std.specs.Prelude.{◌≡◌, ◌<◌, length, replicate, slice_set, slice_index_or, IfOk};
ghost use Rattle.certs.specs.declared.level.Level.TheVariants.{Inf};
ghost use Rattle.bb_core.specs.Machine.{lesser_each};

use certs::Level;
use std::alloc::{AllocError, Global};
use std::marker::Model;

/// For each scenario a value that is to be undercut, `Inf` where there is none.
#[derive(Drop)]
pub(crate) struct Caps {
    items: Vec<Level>,
}

impl Model for Caps {
    ghost use Rattle.std.specs.Prelude.{List};
    ghost use Rattle.certs.specs.declared.level.Level.{Level};

    ghost Value = { List Level };

    ghost view = { λ c. c.items.items };
}

impl Caps {
    /// No cap for any of so many scenarios.
    pub(crate) fn none(alloc: Global, count: u32) -> Result<Caps, AllocError>
        ensures { IfOk result (λ c. c ≡ replicate count Inf) }
    {
        let items = vec![in alloc; Level::Inf; count as usize]?;
        Ok(Caps { items })
    }

    /// All caps.
    pub(crate) fn as_slice(&self) -> &[Level]
        ensures { result.now ≡ self.now }
    {
        &self.items
    }

    /// The cap of a scenario, `Inf` past the end.
    pub(crate) fn get(&self, k: u32) -> Level
        ensures { result ≡ slice_index_or self.now k Inf }
    {
        cap_at(self.items.as_slice(), k)
    }

    /// Sets the cap of a scenario.
    pub(crate) fn set(&mut self, k: u32, level: Level)
        requires { k < length self.old }
        ensures { self.new ≡ slice_set self.old k level }
    {
        self.items[k as usize] = level;
    }

    /// Each cap becomes the lesser of itself and the other list's.
    pub(crate) fn lower(&mut self, others: &Caps)
        requires { length self.old ≡ length others.now }
        ensures { self.new ≡ lesser_each self.old others.now }
    {
        lower_each(&mut self.items, others.items.as_slice());
    }
}

/// The cap of a scenario, `Inf` past the end.
pub(crate) fn cap_at(caps: &[Level], k: u32) -> Level
    ensures { result ≡ slice_index_or caps.now k Inf }
{
    match caps.get(k as usize) {
        Some(cap) => *cap,
        None => Level::Inf,
    }
}

#[tactic(auto, using(crate::proofs::CapLaws::each_is))]
fn lower_each(caps: &mut Vec<Level>, others: &[Level])
    requires { length caps.old.items ≡ length others.now }
    ensures { caps.new.items ≡ lesser_each caps.old.items others.now }
{
    for k in 0..caps.len() {
        let cap = caps[k];
        let other = others[k];
        caps[k] = cap.lesser_level(other);
    }
}

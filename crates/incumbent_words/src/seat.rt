// One thread's handle to the words.
ghost use Rattle.std.specs.Prelude.{◌≡◌, ◌<◌, true, length, IfOk, IfSome};
ghost use Rattle.incumbent_words.specs.Codes.{code_of, IsValue};
ghost use Rattle.incumbent_words.specs.Rule.{code_at, none_for};

use crate::code::{NO_VALUE, decode};
use crate::view::View;
use atomic_table::Seat;
use std::alloc::{AllocError, Global};
use std::marker::Model;

/// A seat: one thread's handle to the incumbent words, with its view. The view has a cap for each
/// scenario, which is at least the word, the seat's own least offer, and the seat's numbers.
#[derive(Drop)]
pub struct WordSeat {
    pub(crate) seat: Seat<(), View>,
    pub(crate) caps: Vec<u64>,
    pub(crate) offers: Vec<u64>,
    pub(crate) leads: bool,
}

impl Model for WordSeat {
    ghost use Rattle.incumbent_words.specs.Seats.{Held, held_code};

    ghost Value = { Held };

    ghost coded = { held_code };

    ghost use Rattle.incumbent_words.specs.SeatParts.{held_of, IsWhole};

    ghost view = { held_of };

    ghost invariant = { IsWhole };
}

impl WordSeat {
    ghost use Rattle.incumbent_words.specs.Seats.{IsWide};

    /// How many scenarios there are.
    pub fn width(&self) -> usize
        ensures words { result ≡ self.now.table.words }
        ensures wide { IsWide self.now }
    {
        self.caps.len()
    }

    /// Whether it has the count of numbers, and so may make members.
    pub fn is_master(&self) -> bool
        ensures { result ≡ self.now.view.leads }
    {
        self.leads
    }

    /// The cap of a scenario, None where no value is known.
    pub fn cap(&self, s: u32) -> Option<i64>
        requires { s < self.now.table.words }
        ensures code { code_of result ≡ code_at self.now.view.caps s }
        ensures range { IfSome result IsValue }
    {
        decode(self.caps[s as usize])
    }

    /// The least value that this seat and those that joined it have offered for a scenario.
    pub fn best(&self, s: u32) -> Option<i64>
        requires { s < self.now.table.words }
        ensures code { code_of result ≡ code_at self.now.view.offers s }
        ensures range { IfSome result IsValue }
    {
        decode(self.offers[s as usize])
    }

    // A copy of the caps, and as many codes of no value.
    pub(crate) fn fresh(&self, alloc: Global) -> Result<(Vec<u64>, Vec<u64>), AllocError>
        ensures caps { IfOk result (λ r. r.0.items ≡ self.now.view.caps) }
        ensures offers { IfOk result (λ r. r.1.items ≡ none_for (length self.now.view.caps)) }
    {
        let count = self.caps.len();
        let caps = self.caps.clone()?;
        let offers = vec![in alloc; NO_VALUE; count]?;
        Ok((caps, offers))
    }
}

// The words, and the steps on them.
ghost use Rattle.std.specs.Prelude.{◌≡◌, ◌<◌, ◌≤◌, ◌≢◌, ℕ, min, List, [], length, true, IfOk, OnOk, OnErr, vec_len};
ghost use mathlib.Core.Option.{some};
ghost use lib.ListN.{get_elem?};
ghost use Rattle.incumbent_words.specs.declared.view.View.{View};
ghost use Rattle.incumbent_words.specs.Codes.{code, code_of, IsValue};
ghost use Rattle.incumbent_words.specs.Rule.{code_at, master_view, looked, offered, member_of, one_more, note_of, joined, least_of, HasAll, IsNote, IsSameButCaps, Keeps};

use crate::code::{NO_VALUE, decode, encode};
use crate::seat::WordSeat;
use crate::view::{Joins, Looks, Members, Notes, Offers, View, WordsRule};
use atomic_table::Table;
use std::alloc::{AllocError, Global};
use std::marker::Model;

/// A word for each scenario: the least value that any thread has offered, or none. A contract sees which
/// table of words it is.
#[derive(Drop)]
pub struct Words {
    table: Table<(), View, usize, WordsRule, Global>,
}

impl Model for Words {
    ghost use Rattle.std.specs.Prelude.{◌≡◌, ◌<◌};
    ghost use Rattle.atomic_table.specs.Seated.{TableId, table_id_coded};

    ghost Value = { TableId };

    ghost coded = { table_id_coded };

    ghost view = { λ w. w.table.shared.table_id };

    ghost invariant = { λ w. (w.table.shared.key ≡ w.table.shared.table_id.words) × (0 < w.table.shared.table_id.words) × (w.table.shared.table_id.slots ≡ 0) };
}

impl Words {
    /// Words without a value for 1 to 64 scenarios, and the master's seat, which has the number 0 and the
    /// count of numbers.
    pub fn make(alloc: Global, scenarios: u32) -> Result<(Words, WordSeat), AllocError>
        requires { 0 < scenarios }
        ensures { IfOk result (λ r. (r.0.words ≡ scenarios) × (r.1.table ≡ r.0) × (r.1.view ≡ master_view scenarios)) }
    {
        let count = scenarios as usize;
        let words = vec![in alloc; NO_VALUE; count]?;
        let caps = words.clone()?;
        let offers = words.clone()?;
        let (table, seat) = Table::of_words(alloc, words.as_slice(), &count)?;
        let seat = WordSeat {
            seat,
            caps,
            offers,
            leads: true,
        };
        Ok((Words { table }, seat))
    }

    /// Reads the word of a scenario, which becomes the seat's cap: at most the old cap and the seat's own
    /// least offer. Where the seat has the count and all numbers, it is that offer. One atomic load; it
    /// takes no memory.
    pub fn look(&self, seat: &mut WordSeat, s: u32) -> Option<i64>
        requires table { seat.old.table ≡ self.now }
        requires scenario { s < self.now.words }
        ensures table { seat.new.table ≡ seat.old.table }
        ensures view { seat.new.view ≡ looked seat.old.view s (code_of result) }
        ensures cap { code_of result ≤ code_at seat.old.view.caps s }
        ensures own { code_of result ≤ code_at seat.old.view.offers s }
        ensures best { HasAll seat.old.view → code_of result ≡ code_at seat.old.view.offers s }
    {
        let s = s as usize;
        let found = self.table.shared.load::<Looks>(&mut seat.seat, s);
        seat.caps[s] = found;
        decode(found)
    }

    /// Makes the word the lesser of itself and a value within 2^60 of 0, and answers what it was. The
    /// seat's cap is then at most the value. One atomic fetch-min; it takes no memory.
    pub fn offer(&self, seat: &mut WordSeat, s: u32, value: i64) -> Option<i64>
        requires table { seat.old.table ≡ self.now }
        requires scenario { s < self.now.words }
        requires number { seat.old.view.numbers ≢ [] }
        requires value { IsValue value }
        ensures table { seat.new.table ≡ seat.old.table }
        ensures view { seat.new.view ≡ offered seat.old.view s (code_of result) (code value) }
        ensures cap { code_of result ≤ code_at seat.old.view.caps s }
        ensures own { code_of result ≤ code_at seat.old.view.offers s }
    {
        let s = s as usize;
        let code = encode(value);
        let found = self
            .table
            .shared
            .fetch_min::<Offers>(&mut seat.seat, s, code);
        seat.caps[s] = found.min(code);
        seat.offers[s] = seat.offers[s].min(code);
        decode(found)
    }

    /// A seat with the next number, for another thread. After want of memory the master is as it was.
    pub fn member(&self, alloc: Global, master: &mut WordSeat) -> Result<WordSeat, AllocError>
        requires table { master.old.table ≡ self.now }
        requires leads { master.old.view.leads ≡ true }
        requires few { master.old.view.count < 64 }
        ensures table { master.new.table ≡ master.old.table }
        ensures member { IfOk result (λ m. (m.table ≡ master.old.table) × (m.view ≡ member_of master.old.view)) }
        ensures counted { OnOk result (master.new.view ≡ one_more master.old.view) }
        ensures err { OnErr result (master.new.view ≡ master.old.view) }
    {
        let (caps, offers) = master.fresh(alloc)?;
        let seat = self.table.shared.split_seat::<Members>(&mut master.seat);
        Ok(WordSeat {
            seat,
            caps,
            offers,
            leads: false,
        })
    }

    /// A seat with the same caps that has no number and no offer: what one thread hands to another.
    pub fn note(&self, alloc: Global, seat: &mut WordSeat) -> Result<WordSeat, AllocError>
        requires table { seat.old.table ≡ self.now }
        ensures same { seat.new ≡ seat.old }
        ensures note { IfOk result (λ m. (m.table ≡ seat.old.table) × (m.view ≡ note_of seat.old.view)) }
    {
        let (caps, offers) = seat.fresh(alloc)?;
        let other = self.table.shared.split_seat::<Notes>(&mut seat.seat);
        Ok(WordSeat {
            seat: other,
            caps,
            offers,
            leads: false,
        })
    }

    /// Takes in another seat: caps and offers become the lesser ones, and numbers are put together. It
    /// takes no memory.
    pub fn join(&self, seat: &mut WordSeat, other: WordSeat)
        requires table { seat.old.table ≡ self.now }
        requires other { other.table ≡ self.now }
        ensures table { seat.new.table ≡ seat.old.table }
        ensures view { seat.new.view ≡ joined seat.old.view other.view }
        ensures caps { (s : ℕ) → code_at seat.new.view.caps s ≡ min (code_at seat.old.view.caps s) (code_at other.view.caps s) }
        ensures offers { (s : ℕ) → code_at seat.new.view.offers s ≡ min (code_at seat.old.view.offers s) (code_at other.view.offers s) }
        ensures note { IsNote other.view → IsSameButCaps seat.old.view seat.new.view }
        ensures notes { IsNote seat.old.view → IsNote other.view → IsNote seat.new.view }
    {
        let WordSeat {
            seat: theirs,
            caps,
            offers,
            leads,
        } = other;
        self.table.shared.join_seat::<Joins>(&mut seat.seat, theirs);
        lower(&mut seat.caps, caps.as_slice());
        lower(&mut seat.offers, offers.as_slice());
        seat.leads = seat.leads || leads;
    }

    /// Ends the words, and answers the last word of a scenario. The rule held to the end, with the seat's
    /// view among the views.
    pub fn close(self, seat: WordSeat, s: u32) -> Option<i64>
        requires table { seat.table ≡ self }
        requires scenario { s < self.words }
        ensures { (words : List ℕ) × (views : List View) × (k : ℕ) × Keeps self.words words views × (get_elem? views k ≡ some seat.view) × (code_of result ≡ code_at words s) }
    {
        let Words { table } = self;
        let WordSeat {
            seat,
            caps: _,
            offers: _,
            leads: _,
        } = seat;
        let closed = table.close_with(seat);
        let word = closed.word(s as usize);
        closed.free();
        decode(word)
    }
}

// Each code becomes the lesser of itself and the other.
fn lower(codes: &mut Vec<u64>, others: &[u64])
    requires { vec_len codes.old ≡ length others.now }
    ensures { codes.new.items ≡ least_of codes.old.items others.now }
{
    for (i, other) in others.iter().enumerate() {
        codes[i] = codes[i].min(*other);
    }
}

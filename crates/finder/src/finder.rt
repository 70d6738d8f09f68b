// A thread's seat with the points that it has found.
ghost use Rattle.std.specs.Prelude.{◌≡◌, ◌<◌, ◌≤◌, ◌≢◌, ◌^◌, ℕ, min, [], Some, None, length, slice_set, IfOk, IfSome, MatchOption};
ghost use Rattle.int_model.specs.Programs.{Feasible};
ghost use Rattle.scenario_changes.specs.Answers.{HasValue};
ghost use Rattle.incumbent_words.specs.Codes.{no_value, code, code_of, IsValue};
ghost use Rattle.incumbent_words.specs.Rule.{code_at, looked, none_for, note_of, joined, HasAll, IsNote, IsSameButCaps};
ghost use Rattle.finder.specs.Kept.{no_points, place_at};
ghost use Rattle.finder.specs.Found.{Found, scenario_count, program_of, value_code, IsSameHolder, IsOffered, IsSound};

use crate::points::BestPoints;
use incumbent_words::{WordSeat, Words, beats};
use scenario_changes::Problem;
use std::alloc::{AllocError, Global};
use std::marker::Model;

/// A seat of the incumbent words with the point of each of its own least offers, for one problem. The type
/// keeps that each such point is feasible and that its value is the offer.
#[derive(Drop)]
pub struct Finder<'a> {
    problem: &'a Problem,
    seat: WordSeat,
    points: BestPoints,
}

impl<'a> Model for Finder<'a> {
    ghost use Rattle.finder.specs.Found.{Found};

    ghost Value = { Found };

    ghost use Rattle.finder.specs.FinderParts.{found, IsWhole};

    ghost view = { found };

    ghost invariant = { IsWhole };
}

impl<'a> Finder<'a> {
    /// A finder of a seat that has a number and no offer yet, with room for the points.
    pub fn new(problem: &'a Problem, seat: WordSeat, points: BestPoints) -> Finder<'a>
        requires number { seat.view.numbers ≢ [] }
        requires words { seat.table.words ≡ scenario_count problem.now }
        requires offers { seat.view.offers ≡ none_for seat.table.words }
        requires points { points ≡ no_points (scenario_count problem.now) (length problem.now.model.columns) }
        ensures { result ≡ record { problem = problem.now; seat = seat; points = points } }
    {
        // This call tells that the problem keeps the limits.
        let _count = problem.count();
        Finder {
            problem,
            seat,
            points,
        }
    }

    /// Offers the value of a feasible point, and keeps the point where its value is less than that of the
    /// best one so far. It takes no memory and waits for no thread.
    pub fn offer(&mut self, words: &Words, s: u32, x: &[i32])
        requires table { self.old.seat.table ≡ words.now }
        requires scenario { s < scenario_count self.old.problem }
        requires feasible { Feasible (program_of self.old.problem s) x.now }
        ensures same { IsSameHolder self.old self.new }
        ensures offered { IsOffered self.old.seat.view self.new.seat.view s (value_code self.old.problem s x.now) }
        ensures kept { value_code self.old.problem s x.now < code_at self.old.seat.view.offers s → self.new.points ≡ slice_set self.old.points s (record { columns = length x.now; point = Some x.now }) }
        ensures left { code_at self.old.seat.view.offers s ≤ value_code self.old.problem s x.now → self.new.points ≡ self.old.points }
    {
        let value = self.problem.value(s, x);
        let _width = self.seat.width();
        let better = beats(value, self.seat.best(s));
        self.points.keep_if(better, s, x);
        words.offer(&mut self.seat, s, value);
    }

    /// Reads the word of a scenario, which becomes the seat's cap. With the count and all numbers it is the
    /// own best value. It takes no memory and waits for no thread.
    pub fn look(&mut self, words: &Words, s: u32) -> Option<i64>
        requires table { self.old.seat.table ≡ words.now }
        requires scenario { s < scenario_count self.old.problem }
        ensures same { IsSameHolder self.old self.new }
        ensures points { self.new.points ≡ self.old.points }
        ensures view { self.new.seat.view ≡ looked self.old.seat.view s (code_of result) }
        ensures cap { code_of result ≤ code_at self.old.seat.view.caps s }
        ensures own { code_of result ≤ code_at self.old.seat.view.offers s }
        ensures best { HasAll self.old.seat.view → code_of result ≡ code_at self.old.seat.view.offers s }
    {
        words.look(&mut self.seat, s)
    }

    /// A seat with the same caps that has no number and no offer, to be handed to another thread.
    pub fn note(&mut self, alloc: Global, words: &Words) -> Result<WordSeat, AllocError>
        requires { self.old.seat.table ≡ words.now }
        ensures same { self.new ≡ self.old }
        ensures sound { IsSound self.new }
        ensures note { IfOk result (λ n. (n.table ≡ self.old.seat.table) × (n.view ≡ note_of self.old.seat.view)) }
    {
        words.note(alloc, &mut self.seat)
    }

    /// Joins the seats, and keeps the better point for each scenario, its own at a tie. It takes no memory.
    pub fn merge(&mut self, words: &Words, other: Finder<'a>)
        requires table { self.old.seat.table ≡ words.now }
        requires other { other.seat.table ≡ words.now }
        requires problem { other.problem ≡ self.old.problem }
        ensures problem { self.new.problem ≡ self.old.problem }
        ensures table { self.new.seat.table ≡ self.old.seat.table }
        ensures view { self.new.seat.view ≡ joined self.old.seat.view other.entry.seat.view }
        ensures offers { (s : ℕ) → code_at self.new.seat.view.offers s ≡ min (code_at self.old.seat.view.offers s) (code_at other.entry.seat.view.offers s) }
        ensures len { length self.new.points ≡ length self.old.points }
        ensures theirs { (s : ℕ) → s < scenario_count self.old.problem → code_at other.entry.seat.view.offers s < code_at self.old.seat.view.offers s → place_at self.new.points s ≡ place_at other.entry.points s }
        ensures mine { (s : ℕ) → s < scenario_count self.old.problem → code_at self.old.seat.view.offers s ≤ code_at other.entry.seat.view.offers s → place_at self.new.points s ≡ place_at self.old.points s }
    {
        let Finder {
            problem: _,
            seat,
            points,
        } = other;
        let _mine = self.seat.width();
        let _theirs = seat.width();
        self.points.take_better(&self.seat, points, &seat);
        words.join(&mut self.seat, seat);
    }

    /// Takes in a note, and looks at each word. With the count and all numbers it then knows that the
    /// note's caps were no lower than its own best values. It takes no memory.
    pub fn absorb(&mut self, words: &Words, note: WordSeat)
        requires table { self.old.seat.table ≡ words.now }
        requires other { note.table ≡ words.now }
        requires note { IsNote note.view }
        ensures same { IsSameHolder self.old self.new }
        ensures points { self.new.points ≡ self.old.points }
        ensures view { IsSameButCaps self.old.seat.view self.new.seat.view }
        ensures lowered { (s : ℕ) → code_at self.new.seat.view.caps s ≤ min (code_at self.old.seat.view.caps s) (code_at note.view.caps s) }
        ensures known { HasAll self.old.seat.view → (s : ℕ) → s < scenario_count self.old.problem → code_at self.new.seat.view.caps s ≡ code_at self.old.seat.view.offers s }
        ensures caps { HasAll self.old.seat.view → (s : ℕ) → s < scenario_count self.old.problem → code_at self.old.seat.view.offers s ≤ code_at note.view.caps s }
    {
        let _width = self.seat.width();
        words.join(&mut self.seat, note);
        look_at_all(words, &mut self.seat);
    }

    /// The kept point of a scenario with its value, which is the own least offer.
    pub fn best(&self, s: u32) -> Option<(&[i32], i64)>
        requires { s < scenario_count self.now.problem }
        ensures point { MatchOption result ((place_at self.now.points s).point ≡ None) (λ r. (place_at self.now.points s).point ≡ Some r.0.now) }
        ensures code { MatchOption result (code_at self.now.seat.view.offers s ≡ no_value) (λ r. code_at self.now.seat.view.offers s ≡ code r.1) }
        ensures value { MatchOption result (Unit {0}) (λ r. HasValue (program_of self.now.problem s) r.0.now r.1) }
        ensures limit { IfSome result (λ r. IsValue r.1) }
        ensures sound { IsSound self.now }
    {
        match self.points.get(s) {
            Some(x) => Some((x, self.problem.value(s, x))),
            None => None,
        }
    }
}

// Reads each word into the seat's caps.
fn look_at_all(words: &Words, seat: &mut WordSeat)
    requires table { seat.old.table ≡ words.now }
    requires few { words.now.words < 2 ^ 32 }
    ensures table { seat.new.table ≡ seat.old.table }
    ensures view { IsSameButCaps seat.old.view seat.new.view }
    ensures lowered { (s : ℕ) → code_at seat.new.view.caps s ≤ code_at seat.old.view.caps s }
    ensures known { HasAll seat.old.view → (s : ℕ) → s < words.now.words → code_at seat.new.view.caps s ≡ code_at seat.old.view.offers s }
{
    for s in 0..seat.width() {
        words.look(seat, s as u32);
    }
}

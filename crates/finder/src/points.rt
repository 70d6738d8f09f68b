// A point for each scenario. Keeping one takes no memory.
ghost use Rattle.std.specs.Prelude.{◌≡◌, ◌<◌, ◌≤◌, ◌^◌, ℕ, Some, None, true, false, length, slice_set, IfOk, IfSome, MatchOption};
ghost use Rattle.incumbent_words.specs.Codes.{code_of, IsValue};
ghost use Rattle.incumbent_words.specs.Rule.{code_at};
ghost use Rattle.finder.specs.Kept.{Kept, empty_place, no_points, place_at};

use incumbent_words::{WordSeat, beats};
use std::alloc::{AllocError, Global};
use std::marker::Model;

// Room for a point, which may be kept.
#[derive(Drop)]
struct Place {
    kept: bool,
    point: Vec<i32>,
}

impl Model for Place {
    ghost use Rattle.std.specs.Prelude.{if◌then◌else◌, Some, None, length};
    ghost use Rattle.finder.specs.Kept.{Kept};

    ghost Value = { Kept };

    ghost view = { λ p. record { columns = length p.point.items; point = (if p.kept then Some p.point.items else None) } };
}

impl Place {
    fn empty(alloc: Global, columns: usize) -> Result<Place, AllocError>
        ensures { IfOk result (λ p. p ≡ empty_place columns) }
    {
        Ok(Place {
            kept: false,
            point: vec![in alloc; 0; columns]?,
        })
    }

    fn keep(&mut self, x: &[i32])
        requires { length x.now ≡ self.old.columns }
        ensures { self.new ≡ record { columns = length x.now; point = Some x.now } }
    {
        self.point.as_mut_slice().copy_from_slice(x);
        self.kept = true;
    }

    fn get(&self) -> Option<&[i32]>
        ensures { MatchOption result (self.now.point ≡ None) (λ x. self.now.point ≡ Some x.now) }
    {
        if self.kept {
            Some(self.point.as_slice())
        } else {
            None
        }
    }
}

/// Room for a point of each scenario, all of one number of columns. A contract sees the places as a list.
#[derive(Drop)]
pub struct BestPoints {
    places: Vec<Place>,
}

impl Model for BestPoints {
    ghost use Rattle.std.specs.Prelude.{List};
    ghost use Rattle.finder.specs.Kept.{Kept};

    ghost Value = { List Kept };

    ghost view = { λ b. b.places.items };
}

impl BestPoints {
    /// Room for a point with so many columns for each scenario. None is kept yet.
    pub fn make(alloc: Global, scenarios: u32, columns: u32) -> Result<BestPoints, AllocError>
        ensures { IfOk result (λ b. b ≡ no_points scenarios columns) }
    {
        let mut places = Vec::with_capacity(alloc, scenarios as usize)?;
        for place in 0..scenarios {
            places.push(Place::empty(alloc, columns as usize)?)?;
        }
        Ok(BestPoints { places })
    }

    // Keeps the point for a scenario where it is the better one.
    pub(crate) fn keep_if(&mut self, better: bool, s: u32, x: &[i32])
        requires scenario { s < length self.old }
        requires columns { length x.now ≡ (place_at self.old s).columns }
        ensures kept { better ≡ true → self.new ≡ slice_set self.old s (record { columns = length x.now; point = Some x.now }) }
        ensures left { better ≡ false → self.new ≡ self.old }
    {
        if better {
            let place = &mut self.places[s as usize];
            place.keep(x);
        }
    }

    // The point that is kept for a scenario.
    pub(crate) fn get(&self, s: u32) -> Option<&[i32]>
        requires { s < length self.now }
        ensures { MatchOption result ((place_at self.now s).point ≡ None) (λ x. (place_at self.now s).point ≡ Some x.now) }
    {
        self.places[s as usize].get()
    }

    // Takes the other's place for each scenario where the other seat's own least offer is less.
    pub(crate) fn take_better(&mut self, mine: &WordSeat, others: BestPoints, theirs: &WordSeat)
        requires table { theirs.now.table ≡ mine.now.table }
        requires places { length self.old ≡ mine.now.table.words }
        requires others { length others ≡ mine.now.table.words }
        requires few { mine.now.table.words < 2 ^ 32 }
        ensures len { length self.new ≡ length self.old }
        ensures less { (s : ℕ) → s < mine.now.table.words → code_at theirs.now.view.offers s < code_at mine.now.view.offers s → place_at self.new s ≡ place_at others s }
        ensures most { (s : ℕ) → s < mine.now.table.words → code_at mine.now.view.offers s ≤ code_at theirs.now.view.offers s → place_at self.new s ≡ place_at self.old s }
    {
        let BestPoints { places } = others;
        let mut s = 0;
        for place in places {
            let best = mine.best(s as u32);
            if is_less(theirs.best(s as u32), best) {
                self.places[s] = place;
            }
            s += 1;
        }
    }
}

// Whether the value is less than the best one. None is above every value.
fn is_less(value: Option<i64>, best: Option<i64>) -> bool
    requires value { IfSome value IsValue }
    requires best { code_of best < 2 ^ 64 }
    ensures less { result ≡ true → code_of value < code_of best }
    ensures most { result ≡ false → code_of best ≤ code_of value }
{
    match value {
        Some(value) => beats(value, best),
        None => false,
    }
}

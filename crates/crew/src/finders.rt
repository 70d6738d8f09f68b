// The finders of a crew: how they are made, what is known of them, and how they become one again.
ghost use Rattle.std.specs.Prelude.{◌≡◌, ◌≢◌, ◌<◌, ◌≤◌, [], All, vec_len, IfOk};
ghost use Rattle.incumbent_words.specs.Rule.{master_view, none_for, HasAll, IsNote};
ghost use Rattle.finder.specs.Found.{IsSound, scenario_count};
ghost use Rattle.crew.specs.Crews.{HaveAll, IsAsGood, IsOf};

use finder::{BestPoints, Finder};
use incumbent_words::{WordSeat, Words};
use scenario_changes::Problem;
use std::alloc::{AllocError, Global};

/// As many finders as there are to be workers, made of the master's seat. Together they have the count and
/// all numbers.
pub fn finders_of<'a>(
    alloc: Global,
    problem: &'a Problem,
    words: &Words,
    master: WordSeat,
    workers: u32,
) -> Result<Vec<Finder<'a>>, AllocError>
    requires words { words.now.words ≡ scenario_count problem.now }
    requires table { master.table ≡ words.now }
    requires master { master.view ≡ master_view words.now.words }
    requires some { 0 < workers }
    requires few { workers ≤ 64 }
    ensures count { IfOk result (λ v. vec_len v ≡ workers) }
    ensures of { IfOk result (λ v. All (IsOf words.now problem.now) v.items) }
    ensures all { IfOk result (λ v. HaveAll v.items) }
{
    let mut master = master;
    let mut finders = Vec::new(alloc);
    for number in 1..workers {
        let seat = words.member(alloc, &mut master)?;
        finders.push(finder_of(alloc, problem, seat)?)?;
    }
    finders.push(finder_of(alloc, problem, master)?)?;
    Ok(finders)
}

// A finder of a seat, without points.
fn finder_of<'a>(
    alloc: Global,
    problem: &'a Problem,
    seat: WordSeat,
) -> Result<Finder<'a>, AllocError>
    requires number { seat.view.numbers ≢ [] }
    requires words { seat.table.words ≡ scenario_count problem.now }
    requires offers { seat.view.offers ≡ none_for seat.table.words }
    ensures seat { IfOk result (λ f. f.seat ≡ seat) }
    ensures problem { IfOk result (λ f. f.problem ≡ problem.now) }
{
    let points = BestPoints::make(alloc, problem.count(), problem.model().columns())?;
    Ok(Finder::new(problem, seat, points))
}

/// A note of the first finder.
pub(crate) fn first_note(
    alloc: Global,
    words: &Words,
    finders: &mut Vec<Finder<'_>>,
) -> Result<WordSeat, AllocError>
    requires some { 0 < vec_len finders.old }
    requires table { All (λ f. f.seat.table ≡ words.now) finders.old.items }
    ensures same { finders.new.items ≡ finders.old.items }
    ensures table { IfOk result (λ n. n.table ≡ words.now) }
    ensures note { IfOk result (λ n. IsNote n.view) }
{
    let first = &mut finders[0];
    first.note(alloc, words)
}

/// What the type of a finder keeps. The call does nothing.
pub(crate) fn know(problem: &Problem, finder: &Finder<'_>)
    requires { finder.now.problem ≡ problem.now }
    ensures { IsSound finder.now }
{
    let _count = problem.count();
    let _best = finder.best(0);
}

/// What the types of finders keep. The call does nothing.
pub(crate) fn know_all(problem: &Problem, finders: &[Finder<'_>])
    requires { All (λ f. f.problem ≡ problem.now) finders.now }
    ensures { All IsSound finders.now }
{
    for i in 0..finders.len() {
        know(problem, &finders[i]);
    }
}

/// One finder with the numbers of all, and for each scenario the best point of them.
pub(crate) fn merge_all<'a>(
    problem: &Problem,
    words: &Words,
    finders: Vec<Finder<'a>>,
) -> Finder<'a>
    requires some { 0 < vec_len finders }
    requires of { All (IsOf words.now problem.now) finders.items }
    ensures of { IsOf words.now problem.now result }
    ensures all { HaveAll finders.entry.items → HasAll result.seat.view }
    ensures best { All (IsAsGood result) finders.entry.items }
{
    let mut rest = finders;
    let Some(mut all) = rest.pop() else {
        unreachable!()
    };
    while let Some(other) = rest.pop() {
        all.merge(words, other);
    }
    all
}

// One turn: what a worker makes of a claimed node without the pool.
ghost use Rattle.std.specs.Prelude.{◌≡◌, ◌<◌, ◌≤◌, ℕ, Contains, length, All, IfOk};
ghost use Rattle.std.specs.Arc.{arc_value};
ghost use Rattle.scenario_changes.specs.Problems.{problem as posed};
ghost use Rattle.bb_core.specs.Shared.{work_of};
ghost use Rattle.incumbent_words.specs.Rule.{code_at, HasAll};
ghost use Rattle.finder.specs.Found.{scenario_count};
ghost use Rattle.node_work.specs.Probes.{AreFound};
ghost use Rattle.alone_run.specs.Turns.{AreCuts, AreOffered, ArePointsBelow, HasLooked, IsNoWorse, IsTurn, KnowsBest};

use bb_core::{Cuts, Settlement, Work};
use finder::Finder;
use incumbent_words::{WordSeat, Words};
use int_model::Point;
use live_sets::LiveSet;
use node_work::{decide, probe};
use scenario_changes::Problem;
use std::alloc::{AllocError, Global};

/// What is made of a node: a lawful settlement, and a note of what the finder knows.
///
/// It reads the incumbent words of the live scenarios, probes, offers the points that were found, reads
/// the words again, and decides with the finder's caps as cuts. Exactly the live scenarios stay whose
/// raised level is below the note's cap. It waits for no other thread. After every answer the finder has
/// its numbers and count, and no best value is greater than before.
pub fn turn(
    alloc: Global,
    problem: &Problem,
    words: &Words,
    finder: &mut Finder<'_>,
    work: Work,
) -> Result<(Settlement, WordSeat), AllocError>
    requires table { finder.old.seat.table ≡ words.now }
    requires problem { finder.old.problem ≡ problem.now }
    requires columns { length (arc_value work.bounds) ≡ length problem.now.model.columns }
    requires levels { length (arc_value work.levels) ≡ length (posed problem.now).scenarios }
    requires live { All (λ s. s < length (posed problem.now).scenarios) work.live }
    ensures finder { IsNoWorse finder.old finder.new }
    ensures turn { IfOk result (λ r. IsTurn (posed problem.now) (work_of work) finder.new r.0 r.1) }
{
    let mut work = work;
    work.cuts = read_words(alloc, problem, words, finder, work.live)?;
    let mut made = probe(alloc, problem, &work)?;
    made.found = offer_all(alloc, problem, words, finder, made.found)?;
    look_at(problem, words, finder, work.live);
    let note = finder.note(alloc, words)?;
    let cuts = caps_of(alloc, problem, &note)?;
    let settlement = decide(alloc, problem, work, made, &cuts)?;
    Ok((settlement, note))
}

// Reads the word of a scenario if it is live.
fn look_if(words: &Words, finder: &mut Finder<'_>, live: LiveSet, s: u32) -> Option<i64>
    requires table { finder.old.seat.table ≡ words.now }
    requires scenario { s < scenario_count finder.old.problem }
    ensures looked { HasLooked finder.old finder.new }
    ensures others { (k : ℕ) → (k ≡ s → ⊥) → code_at finder.new.seat.view.caps k ≡ code_at finder.old.seat.view.caps k }
    ensures known { HasAll finder.old.seat.view → Contains live s → s < length finder.old.seat.view.caps → code_at finder.new.seat.view.caps s ≡ code_at finder.old.seat.view.offers s }
{
    if live.contains(s) {
        finder.look(words, s)
    } else {
        None
    }
}

// Reads the words of the live scenarios: what is to be undercut, as far as is known before the probe.
fn read_words(
    alloc: Global,
    problem: &Problem,
    words: &Words,
    finder: &mut Finder<'_>,
    live: LiveSet,
) -> Result<Cuts, AllocError>
    requires table { finder.old.seat.table ≡ words.now }
    requires problem { finder.old.problem ≡ problem.now }
    ensures { HasLooked finder.old finder.new }
{
    let mut cuts = Vec::new(alloc);
    for s in 0..problem.count() {
        cuts.push(look_if(words, finder, live, s))?;
    }
    Ok(Cuts::from_vec(cuts))
}

// Reads the words of the live scenarios.
fn look_at(problem: &Problem, words: &Words, finder: &mut Finder<'_>, live: LiveSet)
    requires table { finder.old.seat.table ≡ words.now }
    requires problem { finder.old.problem ≡ problem.now }
    requires live { All (λ s. s < length (posed problem.now).scenarios) live }
    ensures looked { HasLooked finder.old finder.new }
    ensures known { HasAll finder.old.seat.view → KnowsBest finder.new live }
{
    for s in 0..problem.count() {
        look_if(words, finder, live, s);
    }
}

// Offers the points of the problem's scenarios, and hands these on. A probe's contract doesn't say that
// the scenarios of its points are below their number.
fn offer_all(
    alloc: Global,
    problem: &Problem,
    words: &Words,
    finder: &mut Finder<'_>,
    found: Vec<(u32, Point)>,
) -> Result<Vec<(u32, Point)>, AllocError>
    requires table { finder.old.seat.table ≡ words.now }
    requires problem { finder.old.problem ≡ problem.now }
    requires found { AreFound (posed problem.now) found.items }
    ensures finder { IsNoWorse finder.old finder.new }
    ensures offered { IfOk result (λ offered. AreOffered finder.new offered.items) }
    ensures points { IfOk result (λ offered. ArePointsBelow (length (posed problem.now).scenarios) found.items offered.items) }
{
    let mut offered = Vec::new(alloc);
    for (s, point) in found {
        if s < problem.count() {
            finder.offer(words, s, point.as_slice());
            offered.push((s, point))?;
        }
    }
    Ok(offered)
}

// The caps of a seat.
fn caps_of(
    alloc: Global,
    problem: &Problem,
    note: &WordSeat,
) -> Result<Vec<Option<i64>>, AllocError>
    requires { note.now.table.words ≡ length (posed problem.now).scenarios }
    ensures cuts { IfOk result (λ cuts. AreCuts note.now.view.caps cuts.items) }
    ensures count { IfOk result (λ cuts. length cuts.items ≡ length (posed problem.now).scenarios) }
    ensures wide { length note.now.view.caps ≡ length (posed problem.now).scenarios }
{
    let _width = note.width();
    let mut cuts = Vec::new(alloc);
    for s in 0..problem.count() {
        cuts.push(note.cap(s))?;
    }
    Ok(cuts)
}

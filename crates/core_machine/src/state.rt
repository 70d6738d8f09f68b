// The state of the machine, and its steps.
ghost use Rattle.std.specs.Prelude.{◌≡◌, ◌<◌, ◌^◌, ◌+◌, true, false, [], length, map, replicate, slice_set, slice_index_or, IfOk, MatchBool};
ghost use Rattle.scenario_changes.specs.Problems as problems;
ghost use Rattle.scenario_changes.specs.Problems.{Problem as Posed, AreWithin};
ghost use Rattle.certs.specs.Levels.{cap_level, lesser_level};
ghost use Rattle.certs.specs.declared.level.Level.TheVariants.{Inf};
ghost use Rattle.bb_core.specs.Shared.{settlement_of, outcome_of};
ghost use Rattle.bb_core.specs.Coverage.{Open, Held, Stands, MaySettle};
ghost use Rattle.bb_core.specs.Machine as machine;
ghost use Rattle.bb_core.specs.Machine.{Allowed, FeasibleFor, HasRoom, HoldsNone, Reached, begin, word_at, view_at, seen};
ghost use Rattle.bb_core.specs.Interleavings.{Holds, IsFinished};
ghost use Rattle.core_machine.specs.Shapes.{IsShaped};
ghost use Rattle.core_machine.specs.Steps.{event_of, IsStep, IsRun};

use crate::caps::Caps;
use crate::event::{Event, StepError};
use crate::judging::{has_room, may_settle};
use crate::slot::{Mark, Slot};
use crate::slots::{are_closed, enter, find_held, is_open_at, may_sweep, root_slot, set_mark};
use bb_core::Settlement;
use certs::Level;
use int_model::Point;
use open_pool::Scratch;
use scenario_changes::Problem;
use std::alloc::{AllocError, Global};
use std::marker::Model;

/// The nodes of a search tree in the making, the pool's caps, the words of the scenarios, the actors' own
/// caps, and the offers that were made.
#[derive(Drop)]
pub struct State {
    slots: Vec<Slot>,
    caps: Caps,
    words: Caps,
    views: Vec<Caps>,
    // The scenario and the point of each offer.
    offers: Vec<(u32, Point)>,
    alloc: Global,
}

impl Model for State {
    ghost use Rattle.bb_core.specs.Machine.{State as Standing};

    ghost Value = { Standing };

    ghost view = { λ a. record { slots = a.slots.items; caps = a.caps; words = a.words; views = a.views.items; offers = a.offers.items } };
}

impl State {
    /// The root alone, open, with no caps, words or offers, and so many actors.
    pub fn begin(alloc: Global, problem: &Problem, actors: u32) -> Result<State, AllocError>
        ensures value { IfOk result (λ st. st ≡ begin (problems.problem problem.now) actors) }
        ensures reached { IfOk result (Reached (problems.problem problem.now)) }
    {
        let count = problem.count();
        let mut slots = Vec::with_capacity(alloc, 1)?;
        slots.push_reserved(root_slot(alloc, problem)?);
        let caps = Caps::none(alloc, count)?;
        let words = Caps::none(alloc, count)?;
        let views = no_views(alloc, actors, count)?;
        let offers = Vec::new(alloc);
        Ok(State {
            slots,
            caps,
            words,
            views,
            offers,
            alloc,
        })
    }

    /// Takes an event. `NotAllowed` comes exactly where it isn't allowed, and then, as after want of
    /// memory, the state is as it was.
    pub fn step(&mut self, problem: &Problem, event: Event) -> Result<(), StepError>
        requires { Reached (problems.problem problem.now) self.old }
        ensures step { IsStep (problems.problem problem.now) self.old (event_of event) self.new result }
        ensures reached { Reached (problems.problem problem.now) self.new }
    {
        // This call tells that the problem keeps the limits.
        let _count = problem.count();
        self.take(problem, event)
    }

    /// Takes the events one after the other, from the start. `NotAllowed` comes exactly where one of them
    /// isn't allowed where it comes.
    pub fn run(
        alloc: Global,
        problem: &Problem,
        actors: u32,
        events: Vec<Event>,
    ) -> Result<State, StepError>
        ensures run { IsRun (problems.problem problem.now) actors (map event_of events.items) result }
        ensures holds { IfOk result (Holds (problems.problem problem.now)) }
    {
        // This call tells that the problem keeps the limits.
        let _count = problem.count();
        let mut state = State::begin(alloc, problem, actors)?;
        for event in events {
            state.step(problem, event)?;
        }
        Ok(state)
    }

    /// The least value that was offered for a scenario, None where there is none.
    pub fn word(&self, s: u32) -> Option<i64>
        ensures { cap_level result ≡ word_at self.now s }
    {
        match self.words.get(s) {
            Level::Value(value) => Some(value),
            Level::Inf => None,
        }
    }

    /// Whether no node is open or held.
    pub fn is_finished(&self) -> bool
        ensures yes { result ≡ true → IsFinished self.now.slots }
        ensures no { result ≡ false → IsFinished self.now.slots → ⊥ }
    {
        are_closed(self.slots.as_slice())
    }

    fn take(&mut self, problem: &Problem, event: Event) -> Result<(), StepError>
        requires { IsShaped (problems.problem problem.now) self.old }
        ensures { IsStep (problems.problem problem.now) self.old (event_of event) self.new result }
    {
        match event {
            Event::Claim { actor, node } => self.claim(actor, node),
            Event::Look { actor, scenario } => self.look(problem, actor, scenario),
            Event::Offer {
                actor,
                scenario,
                point,
            } => self.offer(problem, actor, scenario, point),
            Event::Note { actor } => self.note(actor),
            Event::Settle { actor, settlement } => self.settle(problem, actor, settlement),
            Event::GiveBack { actor } => self.give_back(actor),
            Event::Sweep { node } => self.sweep(node),
        }
    }

    fn has_actor(&self, actor: u32) -> bool
        ensures yes { result ≡ true → actor < length self.now.views }
        ensures no { result ≡ false → actor < length self.now.views → ⊥ }
    {
        (actor as usize) < self.views.len()
    }

    fn is_free(&self, actor: u32) -> bool
        requires { length self.now.slots < 2 ^ 32 }
        ensures yes { result ≡ true → HoldsNone actor self.now.slots }
        ensures no { result ≡ false → HoldsNone actor self.now.slots → ⊥ }
    {
        match find_held(self.slots.as_slice(), actor) {
            Some(_) => false,
            None => true,
        }
    }

    fn claim(&mut self, actor: u32, node: u32) -> Result<(), StepError>
        requires { length self.old.slots < 2 ^ 32 }
        ensures { (p : Posed) → IsStep p self.old (machine.Claim actor node) self.new result }
    {
        if !self.has_actor(actor) || !self.is_free(actor) {
            return Err(StepError::NotAllowed);
        }
        if !is_open_at(self.slots.as_slice(), node) {
            return Err(StepError::NotAllowed);
        }
        set_mark(&mut self.slots, node, Mark::Held(actor));
        Ok(())
    }

    fn look(&mut self, problem: &Problem, actor: u32, scenario: u32) -> Result<(), StepError>
        requires { IsShaped (problems.problem problem.now) self.old }
        ensures { IsStep (problems.problem problem.now) self.old (machine.Look actor scenario) self.new result }
    {
        if !self.has_actor(actor) || scenario >= problem.count() {
            return Err(StepError::NotAllowed);
        }
        let word = self.words.get(scenario);
        see(&mut self.views, actor, scenario, word);
        Ok(())
    }

    fn offer(
        &mut self,
        problem: &Problem,
        actor: u32,
        scenario: u32,
        point: Point,
    ) -> Result<(), StepError>
        requires { IsShaped (problems.problem problem.now) self.old }
        ensures { IsStep (problems.problem problem.now) self.old (machine.Offer actor scenario point) self.new result }
    {
        if !self.has_actor(actor) || !is_feasible(problem, scenario, point.as_slice()) {
            return Err(StepError::NotAllowed);
        }
        self.offers.reserve(1)?;
        let level = level_of(problem, scenario, point.as_slice());
        self.offers.push_reserved((scenario, point));
        self.lower_word(actor, scenario, level);
        Ok(())
    }

    // The word becomes the lesser of itself and the level, and then the actor's cap.
    fn lower_word(&mut self, actor: u32, scenario: u32, level: Level)
        requires actor { actor < length self.old.views }
        requires word { scenario < length self.old.words }
        requires view { scenario < length (view_at self.old actor) }
        ensures { self.new ≡ record self.old { words = slice_set self.old.words scenario (lesser_level (word_at self.old scenario) level); views = seen self.old actor scenario (lesser_level (word_at self.old scenario) level) } }
    {
        let word = self.words.get(scenario).lesser_level(level);
        self.words.set(scenario, word);
        see(&mut self.views, actor, scenario, word);
    }

    fn note(&mut self, actor: u32) -> Result<(), StepError>
        requires { actor < length self.old.views → length self.old.caps ≡ length (view_at self.old actor) }
        ensures { (p : Posed) → IsStep p self.old (machine.Note actor) self.new result }
    {
        if !self.has_actor(actor) {
            return Err(StepError::NotAllowed);
        }
        let view = &self.views[actor as usize];
        self.caps.lower(view);
        Ok(())
    }

    fn settle(
        &mut self,
        problem: &Problem,
        actor: u32,
        settlement: Settlement,
    ) -> Result<(), StepError>
        requires { IsShaped (problems.problem problem.now) self.old }
        ensures { IsStep (problems.problem problem.now) self.old (machine.Settle actor (settlement_of settlement)) self.new result }
    {
        if !self.may_settle(problem, actor, &settlement)? {
            return Err(StepError::NotAllowed);
        }
        self.slots.reserve(2)?;
        enter(&mut self.slots, settlement);
        Ok(())
    }

    fn may_settle(
        &self,
        problem: &Problem,
        actor: u32,
        settlement: &Settlement,
    ) -> Result<bool, AllocError>
        requires { IsShaped (problems.problem problem.now) self.now }
        ensures { IfOk result (λ may. MatchBool may (Allowed (problems.problem problem.now) self.now (machine.Settle actor (settlement_of settlement.now))) (Allowed (problems.problem problem.now) self.now (machine.Settle actor (settlement_of settlement.now)) → ⊥)) }
    {
        let mut scratch = Scratch::new(self.alloc, problem)?;
        if !self.has_actor(actor) || !has_room(self.slots.len(), &settlement.outcome) {
            return Ok(false);
        }
        let slots = self.slots.as_slice();
        let caps = self.caps.as_slice();
        Ok(may_settle(problem, slots, caps, actor, settlement, &mut scratch))
    }

    fn give_back(&mut self, actor: u32) -> Result<(), StepError>
        requires { length self.old.slots < 2 ^ 32 }
        ensures { (p : Posed) → IsStep p self.old (machine.GiveBack actor) self.new result }
    {
        if !self.has_actor(actor) {
            return Err(StepError::NotAllowed);
        }
        match find_held(self.slots.as_slice(), actor) {
            Some(node) => {
                set_mark(&mut self.slots, node, Mark::Open);
                Ok(())
            }
            None => Err(StepError::NotAllowed),
        }
    }

    fn sweep(&mut self, node: u32) -> Result<(), StepError>
        ensures { (p : Posed) → IsStep p self.old (machine.Sweep node) self.new result }
    {
        if !may_sweep(self.slots.as_slice(), &self.caps, node) {
            return Err(StepError::NotAllowed);
        }
        set_mark(&mut self.slots, node, Mark::Closed);
        Ok(())
    }
}

// No caps for any actor.
#[tactic(auto, using(crate::proofs::CapLaws::one_more))]
fn no_views(alloc: Global, actors: u32, count: u32) -> Result<Vec<Caps>, AllocError>
    ensures { IfOk result (λ views. views.items ≡ replicate actors (replicate count Inf)) }
{
    let mut views = Vec::new(alloc);
    for _actor in 0..actors {
        views.push(Caps::none(alloc, count)?)?;
    }
    Ok(views)
}

// Sets an actor's own cap of a scenario.
fn see(views: &mut Vec<Caps>, actor: u32, scenario: u32, level: Level)
    requires actor { actor < length views.old.items }
    requires scenario { scenario < length (slice_index_or views.old.items actor []) }
    ensures { views.new.items ≡ slice_set views.old.items actor (slice_set (slice_index_or views.old.items actor []) scenario level) }
{
    let view = &mut views[actor as usize];
    view.set(scenario, level);
}

// Whether the scenario is there and the point is feasible for it.
fn is_feasible(problem: &Problem, scenario: u32, point: &[i32]) -> bool
    ensures yes { result ≡ true → FeasibleFor (problems.problem problem.now) scenario point.now }
    ensures no { result ≡ false → FeasibleFor (problems.problem problem.now) scenario point.now → ⊥ }
{
    scenario < problem.count() && problem.meets(scenario, point)
}

// The value of a feasible point.
fn level_of(problem: &Problem, scenario: u32, point: &[i32]) -> Level
    requires limits { AreWithin (problems.problem problem.now) }
    requires feasible { FeasibleFor (problems.problem problem.now) scenario point.now }
    ensures { result ≡ machine.level_of (problems.problem problem.now) scenario point.now }
{
    Level::Value(problem.value(scenario, point))
}

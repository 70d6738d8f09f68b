// A place of the tree: a node, where it stands, and its mark.
ghost use Rattle.std.specs.Prelude.{◌≡◌, ◌≤◌, length, true, false};
ghost use Rattle.std.specs.Arc.{arc_value};
ghost use Rattle.certs.specs.Trees.{of_live};
ghost use Rattle.bb_core.specs.Settlements.{place_of};
ghost use Rattle.bb_core.specs.Shared.{work_of};
ghost use Rattle.bb_core.specs.Coverage.{Closed, Open, Held, open_at, ReachesCaps};
ghost use Rattle.core_machine.specs.Marks.{mark_of};

use crate::caps::Caps;
use bb_core::Work;
use certs::{Level, Levels, Node, live_level};
use int_model::PointBox;
use live_sets::LiveSet;
use open_pool::{are_same, is_same_box, reaches};
use std::marker::Model;
use std::sync::Arc;

/// Whether a node waits for an actor, is held by one, or is done with.
#[derive(Clone, Copy)]
pub(crate) enum Mark {
    Open,
    Held(u32),
    Closed,
}

/// A node, its box, its live scenarios with their levels, and its mark.
#[derive(Drop)]
pub(crate) struct Slot {
    node: Node,
    bounds: Arc<PointBox>,
    live: LiveSet,
    levels: Arc<Levels>,
    mark: Mark,
}

impl Model for Slot {
    ghost use Rattle.std.specs.Arc.{arc_value};
    ghost use Rattle.certs.specs.Trees.{of_live};
    ghost use Rattle.bb_core.specs.Coverage.{Slot as Standing};
    ghost use Rattle.core_machine.specs.Marks.{mark_of};

    ghost Value = { Standing };

    ghost view = { λ a. record { node = a.node; place = record { box = arc_value a.bounds; levels = of_live a.live 0 (arc_value a.levels) }; mark = mark_of a.mark } };

    ghost use Rattle.std.specs.Prelude.{◌≤◌, length};

    ghost invariant = { λ a. length (arc_value a.levels) ≤ 64 };
}

impl Slot {
    /// An open place that records nothing.
    pub(crate) fn open(bounds: Arc<PointBox>, live: LiveSet, levels: Arc<Levels>) -> Slot
        requires { length (arc_value levels) ≤ 64 }
        ensures { result ≡ open_at (arc_value bounds) (of_live live 0 (arc_value levels)) }
    {
        Slot {
            node: Node::Rest,
            bounds,
            live,
            levels,
            mark: Mark::Open,
        }
    }

    /// Whether the work is that of this place.
    pub(crate) fn is_work(&self, work: &Work) -> bool
        ensures yes { result ≡ true → self.now.place ≡ place_of (work_of work.now) }
        ensures no { result ≡ false → self.now.place ≡ place_of (work_of work.now) → ⊥ }
    {
        is_same_box(&self.bounds, &work.bounds)
            && are_same(self.live, &self.levels, work.live, &work.levels)
    }

    /// Whether the node waits.
    pub(crate) fn is_open(&self) -> bool
        ensures yes { result ≡ true → self.now.mark ≡ Open }
        ensures no { result ≡ false → self.now.mark ≡ Open → ⊥ }
    {
        match self.mark {
            Mark::Open => true,
            Mark::Held(_) => false,
            Mark::Closed => false,
        }
    }

    /// Whether the actor holds the node.
    pub(crate) fn is_held_by(&self, actor: u32) -> bool
        ensures yes { result ≡ true → self.now.mark ≡ Held actor }
        ensures no { result ≡ false → self.now.mark ≡ Held actor → ⊥ }
    {
        match self.mark {
            Mark::Open => false,
            Mark::Held(holder) => holder == actor,
            Mark::Closed => false,
        }
    }

    /// Whether the node is done with.
    pub(crate) fn is_closed(&self) -> bool
        ensures yes { result ≡ true → self.now.mark ≡ Closed }
        ensures no { result ≡ false → self.now.mark ≡ Closed → ⊥ }
    {
        match self.mark {
            Mark::Open => false,
            Mark::Held(_) => false,
            Mark::Closed => true,
        }
    }

    /// Marks the node.
    pub(crate) fn set_mark(&mut self, mark: Mark)
        ensures { self.new ≡ record self.old { mark = mark_of mark } }
    {
        self.mark = mark;
    }

    /// Records a node, which is closed then.
    pub(crate) fn close(&mut self, node: Node)
        ensures { self.new ≡ record self.old { node = node; mark = Closed } }
    {
        self.node = node;
        self.mark = Mark::Closed;
    }

    /// Whether the level of each live scenario is at least its cap.
    pub(crate) fn reaches(&self, caps: &Caps) -> bool
        ensures yes { result ≡ true → ReachesCaps caps.now self.now.place.levels }
        ensures no { result ≡ false → ReachesCaps caps.now self.now.place.levels → ⊥ }
    {
        live_reach(caps, self.live, &self.levels)
    }
}

#[tactic(auto, using(crate::proofs::CapLaws::reaches_live))]
fn live_reach(caps: &Caps, live: LiveSet, levels: &Levels) -> bool
    requires { length levels.now ≤ 64 }
    ensures yes { result ≡ true → ReachesCaps caps.now (of_live live 0 levels.now) }
    ensures no { result ≡ false → ReachesCaps caps.now (of_live live 0 levels.now) → ⊥ }
{
    for k in 0..levels.len() as u32 {
        let cap = caps.get(k);
        let level = live_level(live, levels, k);
        if !reaches(cap, level) {
            return false;
        }
    }
    true
}

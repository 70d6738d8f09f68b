// A place of the pool: a node, where it stands, and its mark.
ghost use Rattle.std.specs.Prelude.{◌≡◌, ◌⊎◌, ◌≤◌, ◌<◌, length, true, false, All, IfOk, IsTrue};
ghost use Rattle.std.specs.Arc.{arc_value};
ghost use Rattle.bb_core.specs.Settlements.{place_of};
ghost use Rattle.certs.specs.Trees.{of_live};
ghost use Rattle.bb_core.specs.Coverage.{Closed, Open, open_at};
ghost use Rattle.open_pool.specs.Marks.{mark_of, claimed, least_live};
ghost use Rattle.bb_core.specs.Shared.{work_of};
ghost use Rattle.open_pool.specs.Ends.{waiting_level};

use crate::boxes::is_same_box;
use crate::levels::{are_same, least_of};
use crate::members::members_below;
use bb_core::{Cuts, Hint, Work};
use certs::{Level, Levels, Node, live_level};
use int_model::PointBox;
use live_sets::LiveSet;
use std::alloc::{AllocError, Global};
use std::marker::Model;
use std::sync::Arc;

/// Whether a node waits for someone to claim it, is worked on, or is done with.
#[derive(Clone, Copy, PartialEq, Eq)]
pub(crate) enum Mark {
    Open,
    Claimed,
    Closed,
}

/// A node, its box, its live scenarios with their levels, the least of these, its mark, and the hint of
/// its parent, which no contract sees.
#[derive(Drop)]
pub(crate) struct Slot {
    node: Node,
    bounds: Arc<PointBox>,
    live: LiveSet,
    levels: Arc<Levels>,
    least: Level,
    mark: Mark,
    hint: Option<Arc<Hint>>,
}

impl Model for Slot {
    ghost use Rattle.std.specs.Prelude.{◌≡◌};
    ghost use Rattle.std.specs.Arc.{arc_value};
    ghost use Rattle.bb_core.specs.Coverage.{Slot as Standing};
    ghost use Rattle.certs.specs.Trees.{of_live};

    ghost Value = { Standing };

    ghost use Rattle.open_pool.specs.Marks.{mark_of, least_live};

    ghost view = { λ a. record { node = a.node; place = record { box = arc_value a.bounds; levels = of_live a.live 0 (arc_value a.levels) }; mark = mark_of a.mark } };

    ghost use Rattle.std.specs.Prelude.{◌≤◌, length};

    ghost invariant = { λ a. (a.least ≡ least_live (of_live a.live 0 (arc_value a.levels))) × (length (arc_value a.levels) ≤ 64) };
}

impl Slot {
    /// An open place that records nothing.
    pub(crate) fn open(
        bounds: Arc<PointBox>,
        live: LiveSet,
        levels: Arc<Levels>,
        hint: Option<Arc<Hint>>,
    ) -> Slot
        requires { length (arc_value levels) ≤ 64 }
        ensures { result ≡ open_at (arc_value bounds) (of_live live 0 (arc_value levels)) }
    {
        let least = least_of(live, &levels);
        Slot {
            node: Node::Rest,
            bounds,
            live,
            levels,
            least,
            mark: Mark::Open,
            hint,
        }
    }

    /// Whether the work is that of this place.
    pub(crate) fn is_work(&self, work: &Work) -> bool
        ensures yes { result ≡ true → self.now.place ≡ place_of (work_of work.now) }
        ensures no { result ≡ false → self.now.place ≡ place_of (work_of work.now) → ⊥ }
    {
        is_same_box(&self.bounds, &work.bounds)
            && are_same(self.live, &self.levels, work.live, &work.levels)
    }

    /// Whether the node waits.
    pub(crate) fn is_open(&self) -> bool
        ensures yes { result ≡ true → self.now.mark ≡ Open }
        ensures no { result ≡ false → self.now.mark ≡ Open → ⊥ }
    {
        self.mark == Mark::Open
    }

    /// Whether the node is worked on.
    pub(crate) fn is_claimed(&self) -> bool
        ensures yes { result ≡ true → self.now.mark ≡ claimed }
        ensures no { result ≡ false → self.now.mark ≡ claimed → ⊥ }
        ensures other { result ≡ false → (self.now.mark ≡ Open) ⊎ (self.now.mark ≡ Closed) }
    {
        self.mark == Mark::Claimed
    }

    /// The least level of the live scenarios.
    pub(crate) fn least(&self) -> Level
        ensures { result ≡ least_live self.now.place.levels }
    {
        self.least
    }

    /// Marks the node.
    pub(crate) fn set_mark(&mut self, mark: Mark)
        ensures { self.new ≡ record self.old { mark = mark_of mark } }
    {
        self.mark = mark;
    }

    /// Records a node, which is closed then.
    pub(crate) fn close(&mut self, node: Node)
        ensures { self.new ≡ record self.old { node = node; mark = Closed } }
    {
        self.node = node;
        self.mark = Mark::Closed;
    }

    /// The work at this place. The hint goes with it, and is lost to the place; boxes and levels are
    /// shared. Want of memory leaves the place as it was, with its hint.
    pub(crate) fn work(&mut self, alloc: Global, node: u32) -> Result<Work, AllocError>
        ensures work { IfOk result (λ w. (place_of (work_of w) ≡ self.old.place) × (w.node ≡ node)) }
        ensures live { IfOk result (λ w. All (λ s. s < length (arc_value w.levels)) w.live) }
        ensures same { self.new ≡ self.old }
    {
        let bounds = Arc::try_clone(&self.bounds)?;
        let levels = Arc::try_clone(&self.levels)?;
        let live = members_below(self.live, self.levels.len());
        Ok(Work {
            node,
            bounds,
            live,
            levels,
            hint: self.hint.take(),
            cuts: Cuts::from_vec(Vec::new(alloc)),
        })
    }

    /// What the place records.
    pub(crate) fn into_node(self) -> Node
        ensures { result ≡ self.node }
    {
        let Slot {
            node,
            bounds: _,
            live: _,
            levels: _,
            least: _,
            mark: _,
            hint: _,
        } = self;
        node
    }

    /// The level of a scenario, where the place isn't closed and the scenario is live.
    pub(crate) fn waiting_level(&self, k: u32) -> Option<Level>
        ensures { result ≡ waiting_level k self.now }
    {
        if self.mark == Mark::Closed {
            None
        } else {
            live_level(self.live, &self.levels, k)
        }
    }
}

// What is handed to the nodes of a tree.
ghost use Rattle.std.specs.Prelude.{◌≡◌, ◌∷◌, ◌++◌, [], List};
ghost use Rattle.scenario_changes.specs.Problems.{Problem as Posed};
ghost use Rattle.certs.specs.Trees.{Place};
ghost use Rattle.tree_check.specs.Walks.{IsWide, StandsFor, place_of};

use certs::Levels;
use int_model::PointBox;
use live_sets::LiveSet;
use std::mem;

/// A node's box, the scenarios that are live there, and a level for each scenario.
#[derive(Drop)]
pub(crate) struct Spot {
    pub(crate) bounds: PointBox,
    pub(crate) live: LiveSet,
    pub(crate) levels: Levels,
}

/// What the nodes so far have handed to a node.
#[derive(Drop)]
pub(crate) enum Arrival {
    Nothing,
    One(Spot),
    /// Two places or more: the node is wrong.
    Many,
}

impl Arrival {
    /// Hands one more place to a node.
    pub(crate) fn hand(&mut self, spot: Spot)
        ensures { (p : Posed) (places : List Place) → IsWide p spot → StandsFor p self.old places → StandsFor p self.new (places ++ place_of spot ∷ []) }
    {
        *self = match self {
            Arrival::Nothing => Arrival::One(spot),
            Arrival::One(_) => Arrival::Many,
            Arrival::Many => Arrival::Many,
        };
    }

    /// What is handed to a node, which is left without.
    pub(crate) fn take(&mut self) -> Arrival
        ensures { result ≡ self.old }
    {
        mem::replace(self, Arrival::Nothing)
    }
}

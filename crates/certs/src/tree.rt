// Search trees.
ghost use Rattle.std.specs.Prelude.{◌≡◌, length, slice_get, option_copied};

use crate::{Cert, Verdicts};
use live_sets::LiveSet;
use std::marker::Model;

/// What is recorded of a node of a search tree. The box of a node, the scenarios that are live there and
/// their levels are not recorded, since they follow from its parent.
#[derive(Drop)]
pub enum Node {
    /// Nothing is recorded.
    Rest,
    /// The verdicts of the live scenarios, in rising order of these.
    Leaf {
        cert: Cert,
        verdicts: Verdicts,
    },
    /// The same, and the two children: nodes `child` and `child + 1`. In both, the scenarios of `stay` are
    /// live. The children's boxes have at most `value` and at least `value + 1` in the column.
    Split {
        cert: Cert,
        verdicts: Verdicts,
        stay: LiveSet,
        child: u32,
        column: u32,
        value: i32,
    },
}

/// The nodes of a search tree, each after its parent.
#[derive(Drop)]
pub struct Tree {
    items: Vec<Node>,
}

impl Model for Tree {
    ghost use Rattle.std.specs.Prelude.{List};
    ghost use Rattle.certs.specs.declared.tree.Node.{Node};

    ghost Value = { List Node };

    ghost view = { λ t. t.items.items };
}

impl Tree {
    /// The list of these nodes.
    pub fn from_vec(items: Vec<Node>) -> Tree
        ensures { result ≡ items.items }
    {
        Tree { items }
    }

    /// How many there are.
    pub fn len(&self) -> usize
        ensures { result ≡ length self.now }
    {
        self.items.len()
    }

    /// Node k, None where there are no more than k.
    pub fn get(&self, k: usize) -> Option<&Node>
        ensures { option_copied result ≡ slice_get self.now k }
    {
        self.items.get(k)
    }

    /// All nodes.
    pub fn as_slice(&self) -> &[Node]
        ensures { result.now ≡ self.now }
    {
        &self.items
    }
}

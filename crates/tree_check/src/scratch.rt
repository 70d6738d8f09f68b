// Room that a check reuses from node to node.
ghost use Rattle.std.specs.Prelude.{◌≡◌, IfOk};
ghost use Rattle.scenario_changes.specs.Problems.{problem as posed};
ghost use Rattle.tree_check.specs.Walks.{HasRoom};

use certs::Level;
use int_model::PointBox;
use scenario_changes::Problem;
use std::alloc::{AllocError, Global};

/// Raised levels, a replay and a hull.
#[derive(Drop)]
pub(crate) struct Scratch {
    pub(crate) raised: Vec<Option<Level>>,
    pub(crate) replay: PointBox,
    pub(crate) hull: PointBox,
}

impl Scratch {
    pub(crate) fn new(alloc: Global, problem: &Problem) -> Result<Scratch, AllocError>
        ensures { IfOk result (HasRoom (posed problem.now)) }
    {
        Ok(Scratch {
            raised: Vec::with_capacity(alloc, problem.count() as usize)?,
            replay: problem.root(alloc)?,
            hull: problem.root(alloc)?,
        })
    }
}

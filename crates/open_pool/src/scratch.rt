// Room in which settlements are judged.
ghost use Rattle.std.specs.Prelude.{length, IfOk};
ghost use Rattle.scenario_changes.specs.Problems as problems;
ghost use Rattle.open_pool.specs.Judged.{IsScratch};

use certs::Level;
use int_model::PointBox;
use scenario_changes::Problem;
use std::alloc::{AllocError, Global};

/// Room for the raised levels of a node and for two boxes.
#[derive(Drop)]
pub struct Scratch {
    pub(crate) raised: Vec<Option<Level>>,
    pub(crate) replay: PointBox,
    pub(crate) hull: PointBox,
}

impl Scratch {
    /// Room for the problem's scenarios and columns.
    pub fn new(alloc: Global, problem: &Problem) -> Result<Scratch, AllocError>
        ensures { IfOk result (λ a. IsScratch (problems.problem problem.now).columns (length (problems.problem problem.now).scenarios) a) }
    {
        let raised = Vec::with_capacity(alloc, problem.count() as usize)?;
        let replay = problem.root(alloc)?;
        let hull = problem.root(alloc)?;
        Ok(Scratch {
            raised,
            replay,
            hull,
        })
    }
}

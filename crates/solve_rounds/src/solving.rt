// A search by one worker, from the root.
ghost use Rattle.std.specs.Prelude.{◌<◌, ◌≤◌};

use alone_run::{Ended, run_alone};
use finder::{BestPoints, Finder};
use incumbent_words::Words;
use open_pool::Pool;
use scenario_changes::Problem;
use std::alloc::{AllocError, Global};

/// The most nodes that a search tree may have.
pub(crate) const MAX_NODES: u32 = 100_001;

/// What a search of at most so many nodes ends with.
pub(crate) fn solved(alloc: Global, problem: &Problem, nodes: u32) -> Result<Ended, AllocError>
    requires some { 0 < nodes }
    requires few { nodes ≤ 100001 }
{
    let count = problem.count();
    let (words, seat) = Words::make(alloc, count)?;
    let points = BestPoints::make(alloc, count, problem.model().columns())?;
    let finder = Finder::new(problem, seat, points);
    let pool = Pool::begin(alloc, problem, nodes)?;
    let ended = run_alone(alloc, problem, pool, &words, finder)?;
    Ok(ended)
}

//! Laws of the definitions. Each function has no code, and its contract is the law.
ghost use Rattle.certs.specs.Laws.{AcceptedIsRight, BoundsFit, EndsCover, LevelIsSafe, OrderTellsBounds, PlacesAreSafe, RunIsRight, StartIsSafe, TreeHasPoints, TreeIsSmall};

/// No feasible point of the scenario in the box has a value below the level of a valid verdict. Where
/// the level is `Inf` there is no such point.
pub fn level_is_safe()
    ensures { LevelIsSafe }
{}

/// No feasible point of the scenario in the root box has a value below the level of the start.
pub fn start_is_safe()
    ensures { StartIsSafe }
{}

/// A level is at most another one exactly where it bounds all values that the other one bounds. The
/// greater of two levels bounds what both bound, and the lesser what one of them bounds.
pub fn order_tells_bounds()
    ensures { OrderTellsBounds }
{}

/// Each feasible point of a scenario lies in the box of an end of the scenario, and has no value below
/// the level of this end.
pub fn ends_cover()
    ensures { EndsCover }
{}

/// No feasible point of a scenario in the box of a node has a value below the scenario's level there.
pub fn places_are_safe()
    ensures { PlacesAreSafe }
{}

/// A tree has at most 2V - 1 nodes, where its root box has V points, at least one.
pub fn tree_is_small()
    ensures { TreeIsSmall }
{}

/// A tree of two or more nodes has a split, so its root box has a point.
pub fn tree_has_points()
    ensures { TreeHasPoints }
{}

/// The least level over the ends of a scenario is `Inf` or within ±2^60, as all values are.
pub fn bounds_fit()
    ensures { BoundsFit }
{}

/// What a tree is accepted with is right: an infeasible scenario has no feasible point, no feasible point
/// is better than an optimal one, and none has a value below a claimed bound.
pub fn accepted_is_right()
    ensures { AcceptedIsRight }
{}

/// The claim that the least level over the ends of a scenario allows beside a feasible point of the
/// scenario, or beside none, is a right answer.
pub fn run_is_right()
    ensures { RunIsRight }
{}

//! Laws of the definitions. Each function has no code, and its contract is the law.
ghost use Rattle.dual_bounds.specs.Laws.{BoundIsSafe, PositiveHasNone, RefusesTheRest, SumIsBelow};

/// The sum of a vector is at most its scale times the cost of each feasible point of the box.
pub fn sum_is_below()
    ensures { SumIsBelow }
{}

/// No feasible point of the box has a value below the bound, where the program keeps the limits.
pub fn bound_is_safe()
    ensures { BoundIsSafe }
{}

/// A positive sum with the scale 0 means that no point of the box is feasible.
pub fn positive_has_none()
    ensures { PositiveHasNone }
{}

/// `Vector::new` refuses exactly the parts that break a limit.
pub fn refuses_the_rest()
    ensures { RefusesTheRest }
{}

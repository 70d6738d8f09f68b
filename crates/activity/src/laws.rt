//! Laws of the definitions. Each function has no code, and its contract is the law.
ghost use Rattle.activity.specs.Laws.{SumsAreExtremes};

/// Over a box that isn't empty a row's least and greatest sum are those of points of the box, and no
/// point of the box has a sum beyond them.
pub fn sums_are_extremes()
    ensures { SumsAreExtremes }
{}

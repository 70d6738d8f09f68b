//! Laws of the definitions. Each function has no code, and its contract is the law.
ghost use Rattle.bb_core.specs.Laws.{CoveredHasBounds, CoveredLosesNothing, MarksKeepCoverage, RootIsCovered, SettlingKeepsCoverage};
ghost use Rattle.bb_core.specs.Interleavings.{EveryInterleaving};

/// Where a tree covers, each feasible point of a scenario has at least the scenario's cap as value, or
/// lies in the box of an open or held node where the scenario is live.
pub fn covered_loses_nothing()
    ensures { CoveredLosesNothing }
{}

/// Where a tree covers, no feasible point of a scenario in the box of a node has a value below the
/// scenario's level there.
pub fn covered_has_bounds()
    ensures { CoveredHasBounds }
{}

/// The root alone, open, covers.
pub fn root_is_covered()
    ensures { RootIsCovered }
{}

/// Coverage stays where a node that isn't closed becomes open or held.
pub fn marks_keep_coverage()
    ensures { MarksKeepCoverage }
{}

/// Coverage stays where a lawful settlement of a node that isn't closed is recorded, if the levels of
/// the scenarios that it drops reach their caps.
pub fn settling_keeps_coverage()
    ensures { SettlingKeepsCoverage }
{}

/// Whatever the order of the events of many actors: no better feasible point is lost, each word is the
/// least value that was offered, and where no node is open or held it is the scenario's optimum.
pub fn every_interleaving()
    ensures { EveryInterleaving }
{}

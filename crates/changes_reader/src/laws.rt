//! Laws of the definitions. Each function has no code, and its contract is the law.
ghost use Rattle.changes_reader.specs.Laws.{MeansItsOwn};

/// In a model whose names are distinct, as those of every model that is built, a name means the one column or row
/// that has it.
pub fn means_its_own()
    ensures { MeansItsOwn }
{}

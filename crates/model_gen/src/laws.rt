//! Laws of the definitions. Each function has no code, and its contract is the law.
ghost use Rattle.model_gen.specs.Laws.{DemandsCanBeMet};

/// No row asks for more than 9 of each of its columns.
pub fn demands_can_be_met()
    ensures { DemandsCanBeMet }
{}

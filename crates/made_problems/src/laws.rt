//! Laws of the definitions. Each function has no code, and its contract is the law.
ghost use Rattle.made_problems.specs.Laws.{TextsAreAccepted};

/// Both texts of each generated problem are accepted by their readers: the model text has a model, with the problem's
/// columns and rows, and the changes text has changes of that model.
pub fn texts_are_accepted()
    ensures { TextsAreAccepted }
{}

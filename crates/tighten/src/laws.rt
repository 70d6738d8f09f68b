//! Laws of the definitions. Each function has no code, and its contract is the law.
ghost use Rattle.tighten.specs.Laws.{StepKeeps, ReplayKeeps};

/// A step keeps every feasible point of the box.
pub fn step_keeps()
    ensures { StepKeeps }
{}

/// A replay keeps every feasible point of the box.
pub fn replay_keeps()
    ensures { ReplayKeeps }
{}

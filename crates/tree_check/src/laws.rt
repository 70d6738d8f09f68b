//! What is proved of the answers. The function has no code, and its contract is the law.
ghost use Rattle.tree_check.specs.Laws.{RefusedIsNotAccepted};

/// A log is refused only where its counts aren't the problem's or it isn't accepted, but for want of memory.
/// So where there is memory, [`check`](crate::check) answers Ok exactly where a log is accepted.
pub fn refused_is_not_accepted()
    ensures { RefusedIsNotAccepted }
{}

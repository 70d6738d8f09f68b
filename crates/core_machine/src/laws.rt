//! A pool is a part of the machine: laws over the relations of `open_pool`'s calls. Each function has no
//! code, and its contract is the law.
ghost use Rattle.core_machine.specs.PoolLaws.{ClaimsAreEvents, DoneHasOptima, GiveBacksAreEvents, LoweredCapsAreNotes, NotesAreEvents, OtherGiveBacksAreNone, PoolsBeginAsParts, SettlementsAreEvents, SettlementsAreJudgedAlike};

/// The pool of a problem at its start is a part of the machine at its start.
pub fn pools_begin_as_parts()
    ensures { PoolsBeginAsParts }
{}

/// A claim by an actor who holds no node is its Claim where it is answered with a node, and else no event.
/// Where the answer is `Done`, no node is open or held.
pub fn claims_are_events()
    ensures { ClaimsAreEvents }
{}

/// An actor's settlement of the node that it holds may be made in the machine exactly where the pool may
/// make it.
pub fn settlements_are_judged_alike()
    ensures { SettlementsAreJudgedAlike }
{}

/// A settlement of the node that an actor holds is its Settle where it is recorded, and its GiveBack where
/// it is stray or halts the pool.
pub fn settlements_are_events()
    ensures { SettlementsAreEvents }
{}

/// A node that is given back is its holder's GiveBack.
pub fn give_backs_are_events()
    ensures { GiveBacksAreEvents }
{}

/// To give back a node that nobody holds is no event.
pub fn other_give_backs_are_none()
    ensures { OtherGiveBacksAreNone }
{}

/// Caps that become the lesser of themselves and an actor's are its Note.
pub fn notes_are_events()
    ensures { NotesAreEvents }
{}

/// Caps of which each becomes the lesser of itself and an actor's are its Note, too.
pub fn lowered_caps_are_notes()
    ensures { LoweredCapsAreNotes }
{}

/// Whatever the order of the events: where the pool of a state that they lead to answers `Done`, each word
/// is its scenario's optimum, or none where nothing is feasible.
pub fn done_has_optima()
    ensures { DoneHasOptima }
{}

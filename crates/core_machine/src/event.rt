// Events, and why one isn't taken.
ghost use Rattle.std.specs.Prelude.{◌≡◌};
ghost use Rattle.core_machine.specs.declared.event.StepError.TheVariants as refused;

use bb_core::Settlement;
use int_model::Point;
use std::alloc::AllocError;
use thiserror::Error;

/// One atomic step of an actor, or of the pool.
#[derive(Drop)]
pub enum Event {
    /// The actor, who holds no node, takes an open one.
    Claim {
        actor: u32,
        node: u32,
    },
    /// The actor reads the word of a scenario, which becomes its cap.
    Look {
        actor: u32,
        scenario: u32,
    },
    /// The actor offers a feasible point of a scenario. The word becomes the lesser of itself and the
    /// point's value, and then the actor's cap.
    Offer {
        actor: u32,
        scenario: u32,
        point: Point,
    },
    /// The pool's caps become the lesser of themselves and the actor's.
    Note {
        actor: u32,
    },
    /// The actor closes the node that it holds, or splits it in two open ones.
    Settle {
        actor: u32,
        settlement: Settlement,
    },
    /// The node that the actor holds is open again.
    GiveBack {
        actor: u32,
    },
    /// An open node all of whose levels reach the pool's caps is closed.
    Sweep {
        node: u32,
    },
}

/// Why an event isn't taken.
#[derive(Clone, Copy, Debug, PartialEq, Eq, Error)]
pub enum StepError {
    /// The event isn't allowed in this state.
    #[error("the event isn't allowed here")]
    NotAllowed,
    /// No memory was left.
    #[error("out of memory")]
    Memory,
}

impl From<AllocError> for StepError {
    ghost from_gives = { λ _ error. error ≡ refused.Memory };

    fn from(_: AllocError) -> Self {
        StepError::Memory
    }
}

//! What a step of a worker answered.

ghost use Rattle.std.specs.Prelude.{◌≡◌, Some, None, OnErr, IfOk};
ghost use Rattle.vring_turns.specs.Turn.{event_of};
ghost use Rattle.vhost_step.specs.Told.{over_in};

use std::alloc::AllocError;
use tap_ledger::Act;
use vring_turns::{Step, TurnEnd};

// The event that a step made, and what the turn did where it is over.
pub(crate) struct Made {
    pub(crate) act: Act,
    pub(crate) over: Option<TurnEnd>,
}

// A step that made no event found no memory.
pub(crate) fn outcome(step: Step) -> Result<Made, AllocError>
    ensures event { IfOk result (λ m. event_of step ≡ Some m.act) }
    ensures over { IfOk result (λ m. m.over ≡ over_in step) }
    ensures none { OnErr result (event_of step ≡ None) }
{
    match step {
        Step::More(act) => Ok(Made { act, over: None }),
        Step::Ended {
            act: Some(act),
            turn,
        } => Ok(Made {
            act,
            over: Some(turn),
        }),
        Step::Ended { act: None, turn: _ } => Err(AllocError),
    }
}

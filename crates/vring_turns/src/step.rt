//! What a step of a worker answers.
use crate::end::TurnEnd;
use tap_ledger::Act;

/// The event that a step made, and whether the turn is over.
#[derive(Clone, Copy, Debug, PartialEq, Eq)]
pub enum Step {
    /// It made this event, and the turn goes on.
    More(Act),
    /// The turn is over.
    Ended {
        /// The last event. A step that ends because the queue is off or memory ran out makes none.
        act: Option<Act>,
        /// What the turn did.
        turn: TurnEnd,
    },
}

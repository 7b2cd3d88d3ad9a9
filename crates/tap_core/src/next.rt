//! What an actor does next.

use tap_world::Event;

/// What an actor does next.
#[derive(Clone, Copy, Debug, PartialEq, Eq)]
pub enum Next {
    /// This event.
    Does(Event),
    /// Nothing now: the next event of its command isn't allowed yet.
    Waits,
    /// Nothing any more in this phase.
    Ended,
}

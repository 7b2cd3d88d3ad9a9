//! How a command goes on behind an event.

use crate::doing::Doing;
use tap_trace::Answer;
use tap_world::Found;

/// How a command goes on behind an event.
pub enum Onward {
    /// Having seen a version, as far as this, and with what the event found.
    Goes {
        /// The newest version that the actor has seen.
        seen: u64,
        /// How far the command has come.
        doing: Doing,
        /// What the event found.
        found: Found,
    },
    /// To its end.
    Ends {
        /// The newest version that the actor has seen.
        seen: u64,
        /// The command's answer.
        answer: Answer,
    },
}

impl Onward {
    /// Ends the frame that it carries, if it carries one.
    pub fn abandon(self) {
        match self {
            Onward::Goes {
                seen: _,
                doing,
                found: _,
            } => doing.abandon(),
            Onward::Ends { seen: _, answer: _ } => {}
        }
    }
}

//! What a command does next, and whether its actor may go on, read off what actors share and how far the command has
//! come: no event is tried.
//!
//! `tap_world/specs/Scripts.antt` is the table of the next event's kind, and `tap_world/specs/Waiting.antt` the one of
//! who waits. Each look takes a fixed number of steps.
#![tactic(auto)]

mod files;
mod first;
mod kinds;
mod looks;
mod turns;
mod waits;

pub use kinds::next_kind;
pub use waits::may_go;

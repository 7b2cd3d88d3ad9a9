//! What a run leaves, as the trace that is printed of it.
//!
//! [`project`] takes the parts of a finished world and gives the trace that `tap_world/specs/Project.antt` reads off
//! that world: for each phase its operations and its answers, then each file's line, each guest's steps, and the lists
//! of positions of each vhost's rings. `specs/Told.antt` has the world that the parts make, and what has to hold of
//! them; `specs/Phases.antt` how the parts of phases are filled, operation by operation and answer by answer.
//!
//! Each operation, answer, entry, step and chain is looked at once. The answers of a phase are sorted by their actors.
#![tactic(auto)]

mod commands;
mod files;
mod guests;
mod laws;
mod open_part;
mod operations;
mod phases;
mod rings;
mod telling;
#[cfg(test)]
mod tests;

pub use laws::{only_parts_are_told, steady_can_be_told};
pub use telling::project;

//! `plain`: the run of a scenario that a seed picks, on one thread.
//!
//! `tap_world/specs/Runs.antt` says which run that is: before each event the seed's number moves on, and picks one of
//! the events that may come next. `specs/PlainRun.antt` says what comes of it, and `specs/Reads.antt` that reads give
//! what was sent.
#![tactic(auto)]

mod choices;
mod laws;
mod plain;

pub use laws::{plain_runs_are_runs, plain_runs_are_sound, plain_traces, reads_give_what_was_sent};
pub use plain::run_plain;

//! The events of a file's ring, gate and consumer: a frame that is sent gets its place, or is dropped; a gate is shut or
//! opened; batch and ring are emptied by a read or a purge; and a ring gets another capacity, and is cut to it.
//!
//! Each function makes the next event of a command that has come as far as its name says, whatever that event is by the
//! file (`tap_world/specs/Scripts.antt`). It asks that the event may be done (`core_shared/specs/MayDo.antt`), and
//! promises that it was done (`core_shared/specs/Did.antt`); inside, each kind of event is a function of its own.
//!
//! Where memory runs out nothing is promised of what actors share, and the run is given up; a frame that was passed in,
//! or that had been taken off a line, is ended then.
#![tactic(auto)]

mod gates;
mod sending;
mod sizing;
mod taking;

pub use gates::{reopen, shut};
pub use sending::{put, send_on};
pub use sizing::{resize, shrink};
pub use taking::{purge, read};

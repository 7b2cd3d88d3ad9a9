//! The events of commands at the table of queues: what a command looks up, and what it publishes.
//!
//! A look makes an operation's command hold the writer, or end with the table's refusal ([`begin_change`]); it reads a
//! frame that is sent and finds its row ([`begin_send`]), or finds what stands in front of a file's frames
//! ([`begin_read`], [`begin_write`]). A publication gives the table one more operation: a command's own
//! ([`publish_change`], [`publish_attach`], [`publish_detach`]), or the flow of a frame that was written ([`learn`]),
//! once the host has it ([`host`]). [`op_of`] is the operation of a command.
//!
//! Each function asks that the event may be done (`core_shared/specs/MayDo.antt`), and promises that it was done
//! (`core_shared/specs/Did.antt`). A resize is published by `core_rings`, behind its cuts.
//!
//! Where memory runs out nothing is promised of what actors share, and the run is given up; a frame that was passed in
//! is ended then.
#![tactic(auto)]

mod bad;
mod change;
mod operation;
mod publish;
mod read;
mod send;
mod write;

pub use change::{begin_change, publish_attach, publish_change, publish_detach};
pub use operation::op_of;
pub use read::begin_read;
pub use send::begin_send;
pub use write::{begin_write, host, learn};

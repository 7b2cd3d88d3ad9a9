//! Where a run's bytes come from and where they go.
//!
//! A [`Source`] means the bytes that it has left, where it tells them, and a count of its faults; a
//! [`Sink`] means the bytes that it was given, where it tells them, and a count of its faults.
//! [`MemSource`] and [`MemSink`] tell their bytes, and fail at listed calls. [`StdSource`] and
//! [`StdSink`] stand over std's readers and writers, and tell what std's contracts tell of these: a
//! reader or writer in memory tells its bytes, a file or a terminal tells none and is trusted.
//!
//! What a call does to bytes is said in std's words (`Consumes`, `Appends`, `Keeps`).
//! `specs/Memory.antt` and `specs/Standard.antt` say what these ends are to a contract.
#![tactic(auto)]

mod memory;
mod sink;
mod source;
mod standard;
#[cfg(test)]
mod tests;

pub use memory::{MemSink, MemSource};
pub use sink::{Sink, SinkErr};
pub use source::{Failed, Source};
pub use standard::{StdSink, StdSource};

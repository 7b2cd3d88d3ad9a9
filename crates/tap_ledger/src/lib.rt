//! What becomes of frames: their fates with their causes, the counts of fates, and the two ends at which a
//! worker meets frames.
//!
//! A [`Fate`] is what one name comes to, and [`Counters`] count fates. A worker on the receive side takes
//! frames from a [`FrameQueue`], and one on the transmit side gives them to a [`HostIn`]; each of its steps
//! makes the one event that an [`Act`] tells. [`MemQueue`] and [`MemHost`] are both ends in memory.
//!
//! [`TapErr`] is why an operation on the table of a tap is refused, for the table and for the traces alike.
//!
//! `specs/Fate.antt` numbers the causes, `specs/Refusals.antt` the refusals, `specs/Counters.antt` says what counters count, `specs/Queue.antt`
//! and `specs/Host.antt` what a queue and a host mean to a contract and what a call does to them, and
//! `specs/Memory.antt` what those in memory do beside that.
#![tactic(auto)]

mod act;
mod counters;
mod error;
mod fate;
mod hand;
mod host;
mod laws;
mod mem_host;
mod mem_queue;
mod queue;
mod side;
#[cfg(test)]
mod tests;

pub use act::Act;
pub use counters::Counters;
pub use error::{Busy, Invalid, TapErr, TooBig};
pub use fate::{Cause, Fate};
pub use hand::{Hand, OutFrame};
pub use host::HostIn;
pub use laws::queue_laws;
pub use mem_host::MemHost;
pub use mem_queue::MemQueue;
pub use queue::FrameQueue;
pub use side::Side;

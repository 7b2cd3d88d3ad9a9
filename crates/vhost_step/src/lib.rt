//! One step of a worker's turn, where whoever holds the file or has the host hands frames over one by one.
//!
//! A worker takes frames from a queue and gives frames to a host. Here the queue has one frame at most (`OneFrame`), and
//! the host has room for one (`OneHost`). So each call makes one step of the definitions: its contract is one equation
//! with `rx_step` or `tx_step` of `vring_turns`, whose state before and after is the worker's turn, the ring's queue and
//! the guest's memory. What becomes of the frame is told beside it: `specs/Receive.antt`.
//!
//! Between two steps a worker fits its ring and stands with it, the ring is a good one in the memory, and what was
//! fetched lies there; each call asks for that and leaves it so. Where the turn is over, its ring is idle; where memory
//! ran out, `leave_idle` makes it so.
#![tactic(auto)]

mod laws;
mod leave;
mod one_frame;
mod one_host;
mod receive;
mod told;
mod transmit;
mod went;

pub use crate::laws::gives_alone;
pub use crate::leave::leave_idle;
pub use crate::receive::{RxBegun, RxDid, begin_rx, find_none, hand_over, step_rx};
pub use crate::transmit::{TxBegun, TxDid, begin_tx, step_tx};
pub use crate::went::Went;

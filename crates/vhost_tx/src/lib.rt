//! The transmit worker: it takes the frames that a guest offers on a ring, and gives them to a host.
//!
//! A contract sees a `TxWorker` as a `Worker`: the turn that it makes, and the layout and the position
//! that its queue has. Each call of `step` makes one event of the turn, the one that `tx_step` of
//! `vring_turns` says comes next, and tells it. Between two steps nothing need be known but what
//! `fits` tests. `specs/Worker.antt` says when a worker and a queue fit together.
#![tactic(auto)]

mod copying;
mod fetches;
mod stages;
mod steps;
mod worker;

pub use crate::worker::{TxStep, TxWorker};

#[cfg(test)]
mod tests;

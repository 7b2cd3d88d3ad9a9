//! The receive worker: it takes frames from a queue, and lays each into the chains that a guest offers on a
//! ring.
//!
//! A contract sees an `RxWorker` as a `Worker`: the turn that it makes, and the layout and the position
//! that its ring's queue has. Each call of `step` makes one event of the turn, the one that `rx_step` of
//! `vring_turns` says comes next, and tells it. Between two steps nothing need be known but what `fits`
//! and `lies_in` test. `specs/Worker.antt` says when a worker and a queue fit together.
#![tactic(auto)]

mod chains;
mod fetches;
mod front;
mod laws;
mod stages;
mod steps;
mod ways;
mod worker;

pub use crate::laws::ready_turns_have_chains;
pub use crate::worker::{RxStep, RxWorker};

#[cfg(test)]
mod tests;

//! What a device keeps of a split ring that it serves, after VIRTIO 1.2, 2.7.7 to 2.7.10: the next
//! position, the chains that are done and those that were published, the used index, and the fault
//! that stopped the ring.
//!
//! A contract sees a `Vq` as a `Reserved`: a `Queue` and how many places for published chains are
//! reserved. `specs/Positions.antt` says what each call makes of the lists of positions, and that the
//! chains of a list are published once, in their order; `specs/Publication.antt` says which bytes a
//! publication writes, and when the driver wants a notice. `Once` is the same for any kind of ring.
#![tactic(auto)]

mod done;
mod laws;
mod once;
mod publish;
mod vq;

pub use crate::done::Done;
pub use crate::laws::positions_stay_in_order;
pub use crate::once::Once;
pub use crate::vq::Vq;

#[cfg(test)]
mod tests;

//! A lawful driver of a packed ring, after VIRTIO 1.2, 2.8: it makes chains available in the ring, one
//! behind the other, and takes back what the device used.
//!
//! A contract sees a `PackedDriver` as its `Books`: which ids are out, with how many descriptors each,
//! and its two places in the ring. `specs/Books.antt` says how they change, `specs/Posts.antt` what a
//! post writes and when it is refused, `specs/Harvests.antt` what a harvest finds, and `specs/Area.antt`
//! where all of it lies.
#![tactic(auto)]

mod area;
mod driver;
mod ids;
mod pieces;
mod read;
mod write;

pub use crate::driver::PackedDriver;
pub use vring_drive::{DriveErr, OrMemory, PostErr, StrayUsed};

#[cfg(test)]
mod tests;

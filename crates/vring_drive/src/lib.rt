//! A lawful driver of a split ring, after VIRTIO 1.2, 2.7: it makes chains of its descriptors
//! available, and takes back what the device used.
//!
//! A contract sees a `Driver` as its `Books`: the free descriptors, the chains that are out, and its
//! places in the two rings. `specs/Books.antt` says how they change, `specs/Posts.antt` what a post
//! writes and when it is refused, `specs/Harvests.antt` what a harvest reads, finds and writes, and
//! `specs/Area.antt` where all of it lies.
#![tactic(auto)]

mod area;
mod driver;
mod error;
mod free;
mod laws;
mod pieces;
mod read;
mod write;

pub use crate::driver::Driver;
pub use crate::error::{DriveErr, PostErr, StrayUsed};
pub use crate::laws::descriptors_stay_whole;
pub use tap_ground::OrMemory;

#[cfg(test)]
mod tests;

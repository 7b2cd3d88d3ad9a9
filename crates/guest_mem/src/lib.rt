//! The memory of a guest: bytes at 64-bit addresses, made of regions.
//!
//! A `Memory` is made of regions that share no byte, and each of its bytes starts as 0. A read or a
//! write may go over regions that touch; where one of its bytes lies outside every region, the first
//! such address comes back, and nothing is read or written. Where the caller knows that all of them
//! are there, `bytes_in`, `read_in`, `write_in`, `le16_at` and `put_le16` can't fail.
//!
//! A contract sees a `Memory` as its regions and the list of its bytes that aren't 0, each behind its
//! address, in rising order: equal memories are equal lists. `specs/Memory.antt` has the words: the byte
//! at an address, the first address of a range that has none, bytes read and bytes written, all as
//! functions. `specs/Laws.antt` says how they hang together, `specs/Regions.antt` which regions make a
//! memory, and `specs/Blocks.antt` how it is kept.
#![tactic(auto)]

mod block;
mod build;
mod covered;
mod laws;
mod memory;
mod region;
mod span;

pub use crate::laws::{byte_laws, range_laws, worked_examples, write_laws};
pub use crate::memory::{Memory, OutOfRange};
pub use crate::region::{Region, RegionFault, region_fault};

#[cfg(test)]
mod tests;

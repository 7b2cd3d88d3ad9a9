//! The walker of split rings: it takes the chain that a driver made available, and trusts nothing.
//!
//! `fetch` reads the available ring at a position and follows the chain's descriptors, through one
//! indirect table at most. It appends the chain's segments to a room, or says that there is nothing
//! new, which rule the ring breaks first, or that the room has too few places left. `gather` reads the
//! bytes of a chain's segments, and `scatter` writes bytes over them.
//!
//! `specs/Chain.antt` says what a chain is and which rule a path breaks first, and `specs/Fetch.antt`
//! what a fetch answers. `specs/Fetched.antt` gives that answer as a function, which `specs/Laws.antt`
//! ties to it, and `specs/Spread.antt` what a device reads from segments and writes into them. All of
//! them speak of the bytes of a memory and of no code: of the byte at each address, and of a test of
//! whether a range has bytes. A contract sees the room, `Segments`, as the list of its segments.
#![tactic(auto)]

mod good;
mod laws;
mod near;
mod read;
mod rules;
mod segments;
mod spread;
mod table;
mod walk;

pub use crate::good::is_good;
pub use crate::laws::{
    chains_are_usable, empty_is_not_crowded, no_long_path, one_answer, spread_laws, worked_examples,
};
pub use crate::rules::{MAX_TABLE_LEN, is_bad_length};
pub use crate::segments::{MAX_SEGMENTS, Segments};
pub use crate::spread::{byte_count, gather, scatter};
pub use crate::table::Table;
pub use crate::walk::{Fetched, fetch};
pub use vring_split::{RingFault, Segment};

#[cfg(test)]
mod tests;

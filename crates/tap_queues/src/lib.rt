//! The queue rows of a device: which file's queue stands at which index, and since which epoch.
//!
//! To a contract `Queues` is a list of rows, in the order of their indices. A file is attached at
//! the end, and detaching it moves the last row into its place, as Linux's tun device does. There
//! are at most 256 rows, and no file has two. Only `new` takes memory.
//!
//! Read `specs/Rows.antt`.
#![tactic(auto)]

mod queues;
#[cfg(test)]
mod tests;

pub use queues::{MAX_QUEUES, Moved, Queues, Row};

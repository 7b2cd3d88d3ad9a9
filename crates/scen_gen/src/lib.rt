//! Large scenarios that are made by number.
//!
//! [`generate`] makes four files on one device, and a phase of two actors: one sends so many frames, the other reads
//! after every second of them. `specs/Generated.antt` has each line by its number.
#![tactic(auto)]

mod generating;
#[cfg(test)]
mod tests;

pub use generating::generate;

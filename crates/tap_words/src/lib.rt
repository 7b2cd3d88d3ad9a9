//! The words of the command line, and what they ask for.
//!
//! The words are read with `clap`: plain words, `--seed` with one value, and `--json`, in any order; behind `--` every
//! word is plain. [`request_of`] answers the [`Request`] that they make by the table of commands, or none.
//!
//! `specs/Words.antt` has the command line and the table, and `specs/Examples.antt` words with what they ask for.
#![tactic(auto)]

mod laws;
mod request;
#[cfg(test)]
mod tests;
mod words;

pub use laws::{count_law, examples};
pub use request::Request;
pub use words::request_of;

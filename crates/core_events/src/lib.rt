//! The next event of any command: one function, which finds the one of the crates below that makes it.
#![tactic(auto)]

mod beginning;
mod going;

pub use going::make_next;

//! Runs a program of `ebpf_code` on the bytes of a frame.
//!
//! `run` answers the low half of R0 at the end, as the steps of `specs/Meaning.antt` say, which are
//! those of RFC 9669 for the instructions of the profile. It takes no memory, counts each instruction
//! that it executes, and executes each at most once.
//!
//! `never_stuck` is a law of that meaning: a program without faults reads only registers that are set,
//! goes only forward and ends.
#![tactic(auto)]

mod calculation;
mod execution;
mod machine;
mod steps;

pub use execution::{evaluate, never_stuck, run};
pub use steps::Steps;

#[cfg(test)]
mod tests;

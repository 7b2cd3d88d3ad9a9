//! The events of receive turns: a turn finds its ring off, or begins, and makes one step after another.
//!
//! Each step is one of the world's: it is made on the ring, the guest's memory and the worker's turn, is told to the
//! guest where it has a step there, and changes the file where a frame is taken in hand, leaves it or comes back to it.
//! `specs/Moved.antt` says what a step makes of what actors share, and `specs/Going.antt` how the command goes on.
#![tactic(auto)]

mod first;
mod later;
mod moved;
mod told;

pub use first::begin_receive;
pub use later::receive;

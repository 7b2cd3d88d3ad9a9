//! A learning bridge's table: at which port each address was last a source, and at which ports a frame
//! is sent on.
//!
//! A contract sees a `Bridge` as its table, which is a list of addresses by rising bytes, each with its
//! port and time: equal tables are equal lists, and each call is one equation. `specs/Bridge.antt` says
//! what a frame does, `specs/Examples.antt` has it worked out, and `specs/Laws.antt` has what holds
//! whatever frames came. `specs/Kept.antt` says how the addresses also stand by their times, so that
//! a frame looks only at those that go away.
#![tactic(auto)]

mod address;
mod bridge;
mod laws;
mod table;
#[cfg(test)]
mod tests;

pub use crate::address::{Address, MOST, STAY, Seen};
pub use crate::bridge::Bridge;
pub use crate::laws::{bridge_examples, bridges_are_sound};

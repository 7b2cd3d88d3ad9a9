//! The actors of a phase: the newest version that each has seen, its commands as places among the phase's lines, and how
//! far the first of them has come.
//!
//! `specs/Acting.antt` says which actors of a world they are.
#![tactic(auto)]

mod actor;
mod actors;

pub use actor::Actor;
pub use actors::Actors;

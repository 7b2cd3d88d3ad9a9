//! Guests and vhosts of the world as code: a guest's memory with the steps on it, and a vhost with its device, its
//! drivers, and the workers of the turns that are under way on its rings.
//!
//! A contract sees a [`GuestMem`] as the world's `Guest`, and a [`VhostSide`] as a `Side`: the world's `Vhost`, how
//! many places its rings have reserved, and the workers. `specs/Side.antt` says what holds of it: a ring that no
//! worker serves is idle, and one that a worker serves fits it, stands with its turn, and has a turn and a backend.
//! `specs/Within.antt` says when all of it lies in the regions of a guest's memory. The calls are those of the
//! world's definitions: `specs/Calls.antt` ties them to `call_of`, `specs/Backs.antt` has Drive of a backend, and
//! `specs/Words.antt` says that every refusal has words.
#![tactic(auto)]

mod backs;
mod called;
mod calling;
mod control;
mod driver;
mod driving;
mod guest;
mod laws;
mod sending;
mod side;
mod turning;
mod words;

pub use crate::backs::Backed;
pub use crate::called::Called;
pub use crate::guest::GuestMem;
pub use crate::laws::{backs_are_the_worlds, callers_meet_no_worker, drivers_tell, vhosts_tell};
pub use crate::side::VhostSide;

#[cfg(test)]
mod tests;

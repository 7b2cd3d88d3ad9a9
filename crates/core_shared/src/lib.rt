//! What the actors of a scenario share, and what it is that one of them makes its command's next event.
//!
//! [`Shared`] is the world without its actors and answers (`specs/Worlds.antt`). [`Asked`] is a command of an actor,
//! [`Doing`] how far it has come (`specs/Coming.antt` says so in the words of the world), with what it carries
//! (`specs/Suiting.antt`), and [`Onward`] how it goes on. Each event of a command is a function of a crate above, which
//! asks for `specs/MayDo.antt` and promises `specs/Did.antt`; [`events_make_steps`] says that an event which was done is
//! a step of the world.
//!
//! Frames can't be dropped: what is shared, how far a command has come and how it goes on are abandoned, which ends the
//! frames that they have.
#![tactic(auto)]

mod asked;
mod doing;
mod guests;
mod laws;
mod onward;
mod shared;
#[cfg(test)]
mod tests;
mod vhosts;

pub use asked::Asked;
pub use doing::{Doing, GivenFrame};
pub use guests::Guests;
pub use laws::events_make_steps;
pub use onward::Onward;
pub use shared::Shared;
pub use vhosts::Vhosts;

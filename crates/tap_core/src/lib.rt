//! A scenario that is being run: one event after another, in any order that the rules allow.
//!
//! A [`Core`] is what actors share, the actors of the phase, and the answers given. To a contract it is the scenario, how
//! many of its phases have begun, and the world of `tap_world` that its run has come to (`specs/Running.antt`).
//! [`Core::next`] tells what an actor does next, [`Core::apply`] makes an event, [`Core::begin_phase`] begins the next
//! phase, and [`Core::project`] makes the trace. Each takes time that doesn't grow with the world, but for the phase's
//! lines, and the whole for the trace.
//!
//! Where memory runs out the run is given up: there is no core any more, and every frame is ended.
#![tactic(auto)]

mod apply;
mod laws;
mod next;
mod phases;
mod run;
mod settle;

pub use next::Next;
pub use run::Core;

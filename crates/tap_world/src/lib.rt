//! The world that a scenario runs in: definitions, laws on what they mean, and no code.
//!
//! A run is a list of [`Event`]s, phase by phase. `specs/Setup.antt` says what a scenario lays down,
//! `specs/Line.antt` and `specs/LineSteps.antt` what a file's line is and how one step changes it,
//! `specs/Guests.antt` what a guest and a vhost are, `specs/World.antt` what a world holds, and `specs/Effect.antt`
//! what an event changes, as data; `specs/Stands.antt` where names stand. The rows of events:
//! `specs/StepTable.antt`, `specs/StepRing.antt`, `specs/StepControl.antt`, `specs/StepBackend.antt`,
//! `specs/StepTurns.antt`, `specs/StepTransmits.antt`; all of them: `specs/Step.antt`. `specs/Commands.antt` is the
//! table of the events of each command, in the forms of `specs/Grammar.antt`; `specs/Scripts.antt` says which event
//! a command has next, `specs/Runs.antt` what a run is and which one a seed picks. What is to hold in every world of a
//! run is in `specs/Sound.antt` over `specs/SoundNames.antt`, `specs/SoundTable.antt`, `specs/SoundRings.antt` and
//! `specs/SoundActors.antt`, and what else holds there in `specs/Steady.antt`; which actors wait in
//! `specs/Waiting.antt`; the trace of a run in `specs/Project.antt`, what this means in `specs/Laws.antt`, and a worked
//! run in `specs/Examples.antt`.
#![tactic(auto)]

mod event;
mod laws;
mod line;
mod told;

pub use event::{Event, EventKind, Found, Heard};
pub use laws::{
    frames_agree, leave_in_order, name_stands_once, one_order, upgrade_has_same_orders, worked_run,
};
pub use line::{Entry, Standing};
pub use told::{Published, Said};

//! Traces as plain data: what a run did.
//!
//! A [`Trace`] has the published operations and the answers phase by phase, the line of each file, the steps on each
//! guest, and the lists of positions of each ring. To a contract it is a record of numbers and lists.
#![tactic(auto)]

mod answer;
mod causes;
mod kind;
mod trace;
mod turn;

pub use answer::Answer;
pub use causes::{DriveText, VhostText};
pub use kind::Kind;
pub use tap_frame::{BadFrame, Name};
pub use tap_ledger::{Busy, Cause, Fate, Invalid, Side, TapErr as TapText, TooBig};
pub use trace::{
    AnswerLine, FilePart, GuestPart, OpLine, OpText, PhasePart, PlaceLine, PositionList, RingPart,
    StepLine, Trace,
};
pub use turn::{ChainText, TurnText};

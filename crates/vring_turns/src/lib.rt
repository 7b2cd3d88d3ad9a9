//! Turns of a device on a ring, as definitions: what a worker may do next, and what each of its steps
//! makes of the ring, of the guest's memory and of the frames. The workers' contracts, and all that
//! replays a turn, cite them. What code both workers have in common stands here too: how much one turn
//! does (`limits`), how it closes (`close`), and what a fetch tells (`fetches`).
//!
//! `specs/Ring.antt` has one change of a ring for each kind of step: notices on or off, a fetch with
//! what it found, a rewind, a publication. `specs/ReceiveImage.antt` and `specs/TransmitBytes.antt`
//! have the copies into and out of chains. `specs/TxTurn.antt` and `specs/RxTurn.antt` put them in
//! their order: where a turn stands, which step comes next, and when it ends. `specs/Stage.antt` has what a
//! stage says, each stage written out. `specs/TxRun.antt` and
//! `specs/RxRun.antt` say what a whole turn did, `specs/RxLine.antt` what it made of its queue of frames,
//! `specs/Publications.antt` what it published, `specs/Standing.antt` how turn and ring stand between two
//! steps, and that positions stay in order, `specs/Ready.antt` that there is a next step until a turn is over,
//! and `specs/Ends.antt` why a turn ends. `specs/TxExamples.antt`,
//! `specs/TxCases.antt`, `specs/RxExamples.antt`, `specs/RxGathering.antt`, `specs/RxPublishing.antt` and
//! `specs/EndExamples.antt` are worked rings.
#![tactic(auto)]

mod cases;
mod close;
mod end;
mod fetches;
mod laws;
mod limits;
mod stage;
mod step;

pub use crate::cases::{end_examples, gathering_examples, publishing_examples, transmit_cases};
pub use crate::close::{Closes, closing, first_answer};
pub use crate::end::{End, TurnEnd};
pub use crate::fetches::{lie_in, told_of};
pub use crate::laws::{
    receive_ends, receive_examples, receive_ready, receive_standing, receive_turns, transmit_ends,
    transmit_examples, transmit_ready, transmit_standing, transmit_turns,
};
pub use crate::limits::{
    MOST_BYTES, MOST_CHAINS, MOST_PACKETS, MOST_QUOTA, PUBLISHES_AT, is_enough, is_published,
};
pub use crate::stage::{After, RxStage, TxStage};
pub use crate::step::Step;

//! A ring of frames that many senders fill without a lock.
//!
//! [`TapRing::new`] makes a ring and its tokens. Producers put frames ([`TapRing::try_put`]), one
//! consumer takes them in the order of their places ([`TapRing::lift`], [`TapRing::free`],
//! [`TapRing::take`]), and one keeper shuts, reopens and resizes ([`TapRing::shut`],
//! [`TapRing::reopen`], [`TapRing::resize`]). No call but `new` takes memory, and none waits.
//! [`TapRing::finish`] takes all tokens back and gives the frames that are left.
//!
//! To a contract a token is what it knows: a producer its claims ([`Produced`]), the consumer the frames
//! that it lifted ([`Consumed`]), the keeper its reopenings and resizes ([`Kept`]), and what the ring
//! was, a [`Moment`], at the steps by which it saw it.
//!
//! `specs/GateWord.antt` has the gate word, `specs/Turns.antt` what is kept of reopenings and resizes,
//! `specs/Standing.antt` the rule that holds between any two steps, `specs/Steps.antt` what each kind
//! of step tells, `specs/Tokens.antt` what a token is to a contract, `specs/Calls.antt` what each call
//! promises, and `specs/Finish.antt` what is so at the end.
#![tactic(auto)]

mod consumer;
mod ending;
mod gate;
mod keeper;
mod making;
mod plays;
mod producer;
mod ring;
mod rule;
mod steps;
#[cfg(test)]
mod tests;

pub use consumer::{Consumer, NotReady};
pub use ending::Ended;
pub use gate::{CLAIMS_END, EPOCHS_END, RESIZES_END, gate_laws};
pub use keeper::{Keeper, ResizesSpent, StaysShut};
pub use making::{MAX_SLOTS, Parts};
pub use producer::{Producer, PutBack, Why};
pub use ring::TapRing;
pub use rule::{Claim, Consumed, Kept, Loaded, Moment, Plan, Produced};

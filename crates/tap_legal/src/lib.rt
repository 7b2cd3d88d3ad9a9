//! Which traces are legal for a scenario: definitions alone.
//!
//! A sentence is a test on one line of the trace, over a few look-ups; a clause is the list of lines at which one of
//! its sentences fails. `specs/Numbered.antt` numbers the lines, `specs/Case.antt` has scenario and trace together,
//! `specs/Lookups.antt` and `specs/Takes.antt` the look-ups, `specs/Replays.antt` the replays of the guests,
//! `LegalTable`, `LegalAnswers`, `LegalLines`, `LegalFull`, `LegalGone`, `LegalNotReady`, `LegalGuests` and
//! `LegalFates` a clause each, and `specs/Verdict.antt` the verdict.
#![tactic(auto)]

mod clause;
mod laws;

pub use clause::Clause;
pub use laws::{legal_where_none_fails, upgrade_has_same_traces, worked_verdicts};

//! The acts on the guests and their replay: laws, each a function that does nothing.
//!
//! A trace that is sighted has on each guest a list of acts, with what each was handed (`tap_sights`). The replay of a
//! legal trace knows the printed steps alone, and looks ahead (`tap_legal`). `specs/Replaying.antt` says how the replay
//! stands to the acts at every printed step, `specs/Turns.antt` what acts make of the turns under way, and
//! `specs/Laws.antt` what follows of whole replays.
#![tactic(auto)]

ghost use Rattle.tap_acts.specs.Laws.{CallsAreReplayed, GuestsAreLegal};
ghost use Rattle.tap_acts.specs.Turns.{ActsLeaveTurns, SendsArePrinted, TurnsSettle};

/// A guest with calls alone has a replay that is whole and fails nowhere, and that leaves what the acts leave.
pub fn calls_are_replayed()
    ensures { CallsAreReplayed }
{}

/// What is sighted fails nowhere in clause g, where each guest's replay is that of its acts.
pub fn guests_are_legal()
    ensures { GuestsAreLegal }
{}

/// An act leaves each turn under way that isn't its own, with its ring; turns stay held by those under way.
pub fn acts_leave_turns()
    ensures { ActsLeaveTurns }
{}

/// A turn's quiet steps may be taken at once, whatever other commands do before them.
pub fn turns_settle()
    ensures { TurnsSettle }
{}

/// All steps of a transmit turn are printed, but for those that give a frame to the host.
pub fn sends_are_printed()
    ensures { SendsArePrinted }
{}

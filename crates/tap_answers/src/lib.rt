//! What each answer says of the world in which it was given: laws, each a function that does nothing. The statements
//! stand in `specs/`.
//!
//! An answer is told at an event. `specs/Says.antt` says what it says of the world before this event and of the one
//! after it, by its command: `specs/SaysSends.antt`, `specs/SaysReads.antt`, `specs/SaysWrites.antt`,
//! `specs/SaysOperations.antt`, `specs/SaysBackends.antt`, `specs/SaysTurns.antt` and `specs/SaysGuests.antt`, in the
//! words of `specs/SaysShared.antt`. `specs/Laws.antt` says that it is so in every run of a laid scenario.
//! `specs/NoRing.antt` says what follows for a ring that there isn't, and `specs/Idle.antt` where a turn that ends since
//! no frame was ready had found none.
#![tactic(auto)]

ghost use Rattle.tap_answers.specs.Idle.{IdleTurnsAreIdle, IdleTurnsFoundNone};
ghost use Rattle.tap_answers.specs.NoRing.{MissingRingsAreTold};
ghost use Rattle.tap_answers.specs.Laws.{AnswersSay, BackendsSay, GuestsSay, OperationsSay, ReadsSay, SendsSay, TurnsSay, WritesSay};

/// What the answer of a send says.
pub fn sends_say()
    ensures { SendsSay }
{
    scen_laid::laid_runs_are_sound();
    tap_steady::runs_are_steady();
}

/// What the answer of a read says.
pub fn reads_say()
    ensures { ReadsSay }
{
    scen_laid::laid_runs_are_sound();
    tap_steady::runs_are_steady();
}

/// What the answer of a write says.
pub fn writes_say()
    ensures { WritesSay }
{
    scen_laid::laid_runs_are_sound();
    tap_steady::runs_are_steady();
}

/// What the answer of a command on the queue table says.
pub fn operations_say()
    ensures { OperationsSay }
{
    scen_laid::laid_runs_are_sound();
    tap_steady::runs_are_steady();
}

/// What the answer of a `backend` says.
pub fn backends_say()
    ensures { BackendsSay }
{
    scen_laid::laid_runs_are_sound();
    tap_steady::runs_are_steady();
}

/// What the answer of a turn says.
pub fn turns_say()
    ensures { TurnsSay }
{
    scen_laid::laid_runs_are_sound();
    tap_steady::runs_are_steady();
}

/// What the answer of a poke, a peek, or a call of a vhost or a driver says.
pub fn guests_say()
    ensures { GuestsSay }
{
    scen_laid::laid_runs_are_sound();
    tap_steady::runs_are_steady();
}

/// What each answer says: it is that of its actor's command, and tells of the table what was seen.
pub fn answers_say()
    ensures { AnswersSay }
{
    scen_laid::laid_runs_are_sound();
    tap_steady::runs_are_steady();
}

/// A command on a ring that there isn't is answered ENOBUFS, by what its answer says (`specs/NoRing.antt`).
pub fn missing_rings_are_told()
    ensures { MissingRingsAreTold }
{}

/// A receive turn that tells that no frame was ready was to end so before its last event, or found none at it.
pub fn idle_turns_are_idle()
    ensures { IdleTurnsAreIdle }
{}

/// And one that was to end so had found none, at an event of its turn.
pub fn idle_turns_found_none()
    ensures { IdleTurnsFoundNone }
{
    scen_laid::laid_runs_are_sound();
    tap_steady::runs_are_steady();
    tap_grows::runs_grow();
}

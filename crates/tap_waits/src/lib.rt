//! Which actors of a world may go on: laws, each a function that does nothing. The statements stand in `specs/`.
//!
//! `specs/Next.antt` says that the table of who waits is right: the next event of an actor is allowed exactly where
//! the table says that it may go on. `specs/NextChoices.antt` says what follows for what actors do next, and for the
//! events that a run can choose from. `specs/Standstill.antt` says that no world stands still while a command is left.
//! Together they hold in every world that a run of a laid scenario reaches (`specs/Going.antt`).
#![tactic(auto)]

ghost use Rattle.tap_waits.specs.Next.{NextIsAllowed, NextIsAllowedInRuns};
ghost use Rattle.tap_waits.specs.NextChoices.{ChoicesAreNext, ChoicesAreNextInRuns};
ghost use Rattle.tap_waits.specs.Standstill.{NoStandstill};
ghost use Rattle.tap_waits.specs.Going.{RunsGoOn};

/// In a sound and steady world each actor with a command has a next event, and it is allowed exactly where the table of
/// who waits says so.
pub fn next_is_allowed()
    ensures { NextIsAllowed }
{
    vring_turns::transmit_ready();
}

/// So what an actor does next is told by that table, and the events that a run can choose from are the next ones of the
/// actors that may go on.
pub fn choices_are_next()
    ensures { ChoicesAreNext }
{
    next_is_allowed();
}

/// Both hold in each steady world that a run of a laid scenario reaches.
pub fn next_is_allowed_in_runs()
    ensures next { NextIsAllowedInRuns }
    ensures choices { ChoicesAreNextInRuns }
{
    next_is_allowed();
    choices_are_next();
    scen_laid::laid_runs_are_sound();
}

/// In a sound and steady world in which a command is left some actor may go on.
pub fn no_standstill()
    ensures { NoStandstill }
{}

/// In each world that a run of a laid scenario reaches the table of who waits is right, and while a command hasn't
/// ended some event is allowed.
pub fn runs_go_on()
    ensures { RunsGoOn }
{
    tap_steady::runs_are_steady();
    scen_laid::laid_runs_are_sound();
    next_is_allowed_in_runs();
    no_standstill();
}

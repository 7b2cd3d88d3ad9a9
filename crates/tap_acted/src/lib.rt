//! That each event of a run on a guest is one act: laws, each a function that does nothing. The statements stand in
//! `specs/`.
//!
//! `specs/Acted.antt` computes the acts along a run, `specs/Standing.antt` says how a guest stands in a world and after
//! acts, and `specs/Laws.antt` that both are one.
#![tactic(auto)]

ghost use Rattle.tap_acted.specs.Laws.{BacksAreActs, BytesAreActs, CallsAreActs, CallsAreAlike, FoundOffIsAnAct, RunsAreActs, TurnsBegin, TurnsGoOn};

/// Where each event is one act on a guest, or none, a guest stands in each world that a laid run reaches as
/// after the acts that are told along it.
pub fn runs_are_acts()
    ensures { RunsAreActs }
{
    tap_sound::worlds_go_on();
    tap_grows::events_grow();
    tap_grows::runs_grow();
}

/// A poke or a peek is one act.
pub fn bytes_are_acts()
    ensures { BytesAreActs }
{}

/// A call doesn't look at who holds the turns of its vhost's rings.
pub fn calls_are_alike()
    ensures { CallsAreAlike }
{}

/// A call on a vhost or a driver is one act.
pub fn calls_are_acts()
    ensures { CallsAreActs }
{}

/// A turn that finds its ring off or stopped is one act; every other event of a turn on its ring is a step of the turn
/// that is under way after acts, or that begins.
pub fn turns_are_acts()
    ensures off { FoundOffIsAnAct }
    ensures begins { TurnsBegin }
    ensures on { TurnsGoOn }
{}

/// Where a backend's command comes to its ring, that is one act.
pub fn backs_are_acts()
    ensures { BacksAreActs }
{}

//! What only grows along a run, and the moments of its answers: laws, each a function that does nothing. The statements
//! stand in `specs/`.
//!
//! `specs/Grows.antt` says what grows from a world to a later one, with what is coming (`specs/Coming.antt`), and
//! `specs/Sights.antt` four numbers that only rise by it. `specs/Leads.antt` says how a run leads from one world to
//! another, and which events it passes, and `specs/Runs.antt` that it makes worlds grow. `specs/Moments.antt` says of
//! each answer when its command could start and by which event it was told, that answers follow one another as their
//! commands do, and that each event of a run is of a command that is answered.
#![tactic(auto)]

ghost use Rattle.tap_grows.specs.Leads.{ChangesAreEvents, EventsLead, PassedIsAllowed, ReachedIsLed, RunLeads};
ghost use Rattle.tap_grows.specs.Moments.{EventsAreAnswered, RunsHaveMoments};
ghost use Rattle.tap_grows.specs.Runs.{AllIsPublished, BeginningsGrow, ComingGrows, EventsGrow, GrowsOn, GrowsToItself, RunsGrow, SeenRises};
ghost use Rattle.tap_grows.specs.Sights.{FilesAreLeft, SightsRise};

/// Each world grows to itself, and what grows from a world to a second and on to a third grows from the first to it.
pub fn growing_is_an_order()
    ensures same { GrowsToItself }
    ensures on { GrowsOn }
{}

/// Version, places given out, the place that nothing waits below, and steps only rise; and nothing waits below that
/// place.
pub fn sights_rise()
    ensures rise { SightsRise }
    ensures left { FilesAreLeft }
{}

/// Every event leaves what is published and to be published, and perhaps more behind it; and where all commands have
/// ended all of it is published.
pub fn coming_grows()
    ensures grows { ComingGrows }
    ensures ended { AllIsPublished }
{}

/// No event lowers the version that an actor has seen.
pub fn seen_rises()
    ensures { SeenRises }
{}

/// Every event of a world that a run of a laid scenario reaches makes it grow.
pub fn events_grow()
    ensures { EventsGrow }
{
    tap_sound::worlds_go_on();
    scen_laid::laid_runs_are_sound();
    tap_steady::runs_are_steady();
}

/// So does the beginning of a phase.
pub fn beginnings_grow()
    ensures { BeginningsGrow }
{}

/// A run leads to each world that it reaches.
pub fn runs_lead()
    ensures events { EventsLead }
    ensures reached { ReachedIsLed }
    ensures ended { RunLeads }
{
    tap_sound::worlds_go_on();
}

/// What is so in a world, and wasn't where a run to it began, came to be so by an event that the run has passed.
pub fn changes_are_events()
    ensures passed { PassedIsAllowed }
    ensures changes { ChangesAreEvents }
{}

/// A world that a run of a laid scenario reaches grows to each one to which the run leads.
pub fn runs_grow()
    ensures { RunsGrow }
{
    tap_sound::worlds_go_on();
    events_grow();
    beginnings_grow();
}

/// Each answer that a run of a laid scenario tells has its moment, and they follow one another as their commands do.
pub fn answers_have_moments()
    ensures { RunsHaveMoments }
{
    tap_sound::worlds_go_on();
    scen_laid::laid_runs_are_sound();
    tap_steady::runs_are_steady();
    seen_rises();
    events_grow();
    beginnings_grow();
}

/// Where all commands have ended, each event of a run of a laid scenario is of a command that is answered.
pub fn events_are_answered()
    ensures { EventsAreAnswered }
{
    tap_sound::worlds_go_on();
    scen_laid::laid_runs_are_sound();
    seen_rises();
    events_grow();
    runs_grow();
}

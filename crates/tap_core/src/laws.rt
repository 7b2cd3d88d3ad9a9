//! That a run goes on behind an event.

ghost use Rattle.tap_core.specs.Applying.{EventsAreApplied, EventsAreReady};

// An allowed event of a run is ready to be made; and where it was made, it was applied, and the run goes on.
pub(crate) fn events_are_applied()
    ensures ready { EventsAreReady }
    ensures applied { EventsAreApplied }
{
    scen_laid::laid_runs_are_sound();
    tap_steady::runs_are_steady();
    tap_sound::worlds_go_on();
    core_shared::events_make_steps();
}

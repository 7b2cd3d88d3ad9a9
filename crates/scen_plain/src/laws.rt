//! What a run that a seed picks is.

ghost use Rattle.scen_plain.specs.PlainRun.{OnePlainTrace, PlainRunsAreRuns, PlainRunsAreSound, UpgradeHasSameTraces};
ghost use Rattle.scen_plain.specs.Reads.{ReadsGiveWhatWasSent};

/// The run that a seed picks is a run of the scenario.
pub fn plain_runs_are_runs()
    ensures { PlainRunsAreRuns }
{
    tap_sound::order_is_run();
}

/// The run that a seed picks of a laid scenario is sound: each accepted frame stands exactly once, frames leave each
/// line in the order placed, each chain is published used at most once, and no command is left.
pub fn plain_runs_are_sound()
    ensures { PlainRunsAreSound }
{
    tap_sound::order_is_run();
    scen_laid::laid_runs_are_sound();
}

/// A scenario has at most one trace for each seed, and its upgrade to version 2 has the same.
pub fn plain_traces()
    ensures one { OnePlainTrace }
    ensures upgrade { UpgradeHasSameTraces }
{
    tap_world::one_order();
    tap_world::upgrade_has_same_orders();
}

/// What a read gives is what was sent, as its room gets it.
pub fn reads_give_what_was_sent()
    ensures { ReadsGiveWhatWasSent }
{
    scen_laid::laid_runs_are_sound();
    tap_steady::runs_are_steady();
}

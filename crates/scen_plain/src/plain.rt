//! The run that a seed picks.

ghost use Rattle.std.specs.Prelude.{IfOk};
ghost use Rattle.scen_laid.specs.Laid.{IsLaid};
ghost use Rattle.scen_plain.specs.Chosen.{WentOn};
ghost use Rattle.scen_plain.specs.PlainRun.{IsPlainRun};

use crate::choices::{move_on, pick};
use scen_text::Scenario;
use std::alloc::{AllocError, Global};
use tap_core::Core;
use tap_trace::Trace;
use tap_world::Event;

/// Runs a scenario as a seed picks, and tells the trace of that run.
///
/// # Errors
///
/// Where memory runs out; and, as if it had, where a phase has 2^64 - 1 events, which no machine comes to.
pub fn run_plain(alloc: Global, scenario: &Scenario, seed: u64) -> Result<Trace, AllocError>
    requires { IsLaid scenario.now }
    ensures { IfOk result (λ trace. IsPlainRun scenario.now seed trace) }
{
    let mut core = Core::new(alloc, scenario)?;
    let mut x = seed;
    let mut events = Vec::new(alloc);
    for _ in 0..scenario.phases.len() {
        core = core.begin_phase(alloc)?;
        (core, x) = run_phase(alloc, core, x, &mut events)?;
    }
    core.project(alloc)
}

// Makes the events of a phase that x picks, until there is none to pick, and tells what x is then. `events` is room for
// those that may come next. Where memory runs out the run is given up; so it is after 2^64 - 1 events, for which there
// is no room.
fn run_phase<'s>(
    alloc: Global,
    core: Core<'s>,
    x: u64,
    events: &mut Vec<Event>,
) -> Result<(Core<'s>, u64), AllocError>
    ensures { IfOk result (λ made. WentOn x core.entry made.1 made.0) }
{
    let mut running = core;
    let mut y = x;
    for _ in 0..u64::MAX {
        let moved = move_on(y);
        match pick(&running, moved, events) {
            Ok(Some(event)) => {
                running = running.apply(alloc, &event)?.0;
                y = moved;
            }
            Ok(None) => return Ok((running, y)),
            Err(error) => {
                running.abandon();
                return Err(error);
            }
        }
    }
    running.abandon();
    Err(AllocError)
}

//! The events that may come next, and which one is picked.

ghost use Rattle.std.specs.Prelude.{◌≡◌, true, IfOk, IfSome, OnOk, None};
ghost use Rattle.tap_world.specs.Runs.{choices, has_ended, moved_on, picked};
ghost use Rattle.tap_world.specs.Setup.{setup_of};
ghost use Rattle.tap_world.specs.Step.{is_allowed};

use std::alloc::AllocError;
use tap_core::{Core, Next};
use tap_world::Event;

/// The number that picks, moved on.
pub(crate) fn move_on(x: u64) -> u64
    ensures { result ≡ moved_on x }
{
    x.wrapping_mul(6_364_136_223_846_793_005)
        .wrapping_add(1_442_695_040_888_963_407)
}

// The events that may come next, in the order of their actors, in place of those that stood there.
fn choose(core: &Core<'_>, events: &mut Vec<Event>) -> Result<(), AllocError>
    ensures { OnOk result (events.new.items ≡ choices (setup_of core.now.scenario) core.now.world) }
{
    events.clear();
    for actor in 0..core.actors() {
        if let Next::Does(event) = core.next(actor) {
            events.push(event)?;
        }
    }
    Ok(())
}

/// The event that the number picks, if any may come next: it is allowed. If none may, every command has ended. `events`
/// is room for those that may.
pub(crate) fn pick(
    core: &Core<'_>,
    x: u64,
    events: &mut Vec<Event>,
) -> Result<Option<Event>, AllocError>
    ensures picked { IfOk result (λ event. event ≡ picked x (choices (setup_of core.now.scenario) core.now.world)) }
    ensures allowed { IfOk result (λ event. IfSome event (λ e. is_allowed (setup_of core.now.scenario) core.now.world e ≡ true)) }
    ensures ended { IfOk result (λ event. event ≡ None → has_ended core.now.world ≡ true) }
{
    core.is_running();
    tap_waits::runs_go_on();
    choose(core, events)?;
    let many = events.len() as u64;
    if many == 0 {
        return Ok(None);
    }
    Ok(Some(events[((x >> 33) % many) as usize]))
}

//! Calls of a vhost's control, and of its drivers.

ghost use Rattle.std.specs.Prelude.{◌≡◌, IfOk, Some};
ghost use Rattle.core_shared.specs.Did.{Went};
ghost use Rattle.core_shared.specs.MayDo.{MayGo};
ghost use Rattle.core_shared.specs.declared.doing.Doing.TheVariants as doing;
ghost use Rattle.tap_world.specs.StepControl.{driven_vhost};

use core_shared::{Asked, Onward, Shared};
use std::alloc::{AllocError, Global};
use tap_guests::callers_meet_no_worker;

/// `features`, `vnum`, `vbase`, `vaddr`, `getbase`, `drive`, `postin`, `postout` and `harvest`: one call of this vhost's
/// control or of a driver of it. It is the command's only event.
///
/// # Errors
///
/// Only where memory runs out.
pub fn call(
    shared: &mut Shared,
    alloc: Global,
    asked: &Asked<'_>,
    vhost: u16,
) -> Result<Onward, AllocError>
    requires command { driven_vhost asked.now.command ≡ Some vhost }
    requires may { MayGo asked.now doing.Begun shared.old }
    ensures went { IfOk result (λ on. Went asked.now doing.Begun shared.old shared.new on) }
{
    callers_meet_no_worker();
    let side = shared.vhosts.side_mut(vhost);
    side.is_sound();
    let guest = shared.guests.guest_mut(side.guest());
    // The command is one of the nine, so the call is made.
    let called = side
        .call(alloc, asked.command(), guest.memory_mut())?
        .unwrap();
    guest.tell(asked.actor(), asked.number(), called.step)?;
    Ok(Onward::Ends {
        seen: asked.seen(),
        answer: called.answer,
    })
}

//! What the guest of a vhost is told.

ghost use Rattle.std.specs.Prelude.{OnOk};
ghost use Rattle.core_transmit.specs.Stepping.{IsThere, Tells};

use core_shared::{Asked, Shared};
use std::alloc::AllocError;
use tap_trace::Kind;

/// Tells the guest of a vhost a step of the command.
pub(crate) fn tell(
    shared: &mut Shared,
    asked: &Asked<'_>,
    vhost: u16,
    kind: Kind,
) -> Result<(), AllocError>
    requires { IsThere vhost shared.old }
    ensures { OnOk result (Tells asked.now vhost kind shared.old shared.new) }
{
    let guest = shared.vhosts.side(vhost).guest();
    shared
        .guests
        .guest_mut(guest)
        .tell(asked.actor(), asked.number(), Some(kind))
}

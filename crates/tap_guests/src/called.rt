//! What a call on a vhost or its drivers answers.

ghost use Rattle.std.specs.Prelude.{◌≡◌};
ghost use Rattle.tap_world.specs.StepControl.{on_ring as on_ring_of};

use tap_trace::{Answer, Kind};

/// What a call on a vhost or its drivers answers, and the step on the guest that tells it, if one does.
#[derive(Debug, Drop)]
pub struct Called {
    /// The command's answer.
    pub answer: Answer,
    /// The step; a control call on a ring that there isn't has none.
    pub step: Option<Kind>,
}

// The step of a call on a ring; a ring that there isn't has none.
pub(crate) fn on_ring(ring: u16, kind: Kind) -> Option<Kind>
    ensures { result ≡ on_ring_of ring kind }
{
    if ring < 2 { Some(kind) } else { None }
}

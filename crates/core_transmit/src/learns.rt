//! What a transmit turn learns of the frames that it gave to the host.

ghost use Rattle.std.specs.Prelude.{◌≡◌, IfOk};
ghost use Rattle.core_shared.specs.declared.doing.Doing.TheVariants as doing;
ghost use Rattle.core_shared.specs.Did.{Went};
ghost use Rattle.core_shared.specs.MayDo.{MayGo};

use core_shared::{Asked, Doing, GivenFrame, Onward, Shared};
use std::alloc::AllocError;
use tap_steer::Op;
use tap_trace::ChainText;
use tap_world::{Found, Published};

/// Look: the turn has given this frame to the host. Where the newest table says that the file learns, the frame's flow is
/// to be learnt; else the turn goes on.
pub fn look_at_flow(
    shared: &Shared,
    asked: &Asked<'_>,
    vhost: u16,
    file: u16,
    chains: Vec<ChainText>,
    frame: GivenFrame,
) -> Onward
    requires may { MayGo asked.now (doing.Given vhost file chains frame) shared.now }
    ensures went { Went asked.now (doing.Given vhost file chains frame) shared.now shared.now result }
{
    let seen = shared.ops.newest() as u64;
    let doing = if shared.ops.table().learns(file) {
        Doing::Teaches {
            vhost,
            file,
            chains,
            frame,
        }
    } else {
        Doing::Transmits {
            vhost,
            file,
            chains,
        }
    };
    Onward::Goes {
        seen,
        doing,
        found: Found::Version(seen),
    }
}

/// Publish: the flow of the frame that was given to the host is learnt, and the turn goes on.
pub fn teach(
    shared: &mut Shared,
    asked: &Asked<'_>,
    vhost: u16,
    file: u16,
    chains: Vec<ChainText>,
    frame: GivenFrame,
) -> Result<Onward, AllocError>
    requires may { MayGo asked.now (doing.Teaches vhost file chains frame) shared.old }
    ensures went { IfOk result
        (λ on. Went asked.now (doing.Teaches vhost file chains frame) shared.old shared.new on) }
{
    shared.ops.publish(Published {
        phase: shared.phase,
        actor: asked.actor(),
        command: asked.number(),
        op: Op::Learn {
            file,
            hash: frame.flow,
        },
    })?;
    let seen = shared.ops.newest() as u64;
    Ok(Onward::Goes {
        seen,
        doing: Doing::Transmits {
            vhost,
            file,
            chains,
        },
        found: Found::Version(seen),
    })
}

//! Gates of files.

ghost use Rattle.core_shared.specs.Did.{Went};
ghost use Rattle.core_shared.specs.MayDo.{MayGo};
ghost use Rattle.core_shared.specs.declared.doing.Doing.TheVariants as doing;

use core_shared::{Asked, Doing, Onward, Shared};
use tap_steer::Op;
use tap_world::Found;

/// A detach that published this version shuts the gate of its file. It is to empty batch and ring next; how many places
/// were given out is found.
pub fn shut(shared: &mut Shared, asked: &Asked<'_>, file: u16, version: u64) -> Onward
    requires may { MayGo asked.now (doing.Withdrawn file version) shared.old }
    ensures went { Went asked.now (doing.Withdrawn file version) shared.old shared.new result }
{
    let side = shared.files.side_mut(file);
    let claimed = side.claimed();
    side.shut();
    Onward::Goes {
        seen: asked.seen(),
        doing: Doing::Purges { file, version },
        found: Found::Claimed(claimed),
    }
}

/// An attach opens the gate of its file, under the next epoch, which is found. It is to publish its operation next.
pub fn reopen(shared: &mut Shared, asked: &Asked<'_>, file: u16, op: Op) -> Onward
    requires may { MayGo asked.now (doing.Opens file op) shared.old }
    ensures went { Went asked.now (doing.Opens file op) shared.old shared.new result }
{
    let side = shared.files.side_mut(file);
    side.reopen();
    let epoch = side.epoch();
    Onward::Goes {
        seen: asked.seen(),
        doing: Doing::Opened { file, op },
        found: Found::Epoch(epoch),
    }
}

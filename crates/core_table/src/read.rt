//! The look of a read.

ghost use Rattle.std.specs.Prelude.{◌≡◌};
ghost use Rattle.core_shared.specs.Did.{Went};
ghost use Rattle.core_shared.specs.MayDo.{MayGo};
ghost use Rattle.core_shared.specs.declared.doing.Doing.TheVariants as doing;
ghost use Rattle.scen_words.specs.declared.command.Command.TheVariants as command;

use core_shared::{Asked, Doing, Onward, Shared};
use tap_frame::least;
use tap_steer::TapErr;
use tap_trace::Answer;
use tap_world::Found;

/// The first look of a read of a file, into room for so many bytes. It ends where the file has no device, or where the
/// room is too small for what stands in front of a frame.
pub fn begin_read(shared: &mut Shared, asked: &Asked<'_>, file: u16, room: u32) -> Onward
    requires may { MayGo asked.now doing.Begun shared.old }
    requires command { asked.now.command ≡ command.Read file room }
    ensures went { Went asked.now doing.Begun shared.old shared.new result }
{
    let seen = shared.ops.newest() as u64;
    let Some(shape) = shared.ops.table().shape_of(file) else {
        return Onward::Ends {
            seen,
            answer: Answer::Tap(TapErr::EBADFD),
        };
    };
    let needed = least(shape) as u64;
    if u64::from(room) < needed {
        return Onward::Ends {
            seen,
            answer: Answer::Room { least: needed },
        };
    }
    Onward::Goes {
        seen,
        doing: Doing::Reads { file, room, shape },
        found: Found::Version(seen),
    }
}

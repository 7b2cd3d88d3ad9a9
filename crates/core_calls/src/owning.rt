//! The owner of a file.

ghost use Rattle.std.specs.Prelude.{◌≡◌};
ghost use Rattle.core_shared.specs.Did.{Went};
ghost use Rattle.core_shared.specs.MayDo.{MayGo};
ghost use Rattle.core_shared.specs.declared.doing.Doing.TheVariants as doing;

use crate::shares::give_back;
use core_shared::{Asked, Doing, Onward, Shared};
use tap_trace::Answer;
use tap_world::Found;

/// The file's backend was published as this version; the receive worker of the vhost owns the file from now on. The
/// command ends with that version, and gives back the writer and its ring's turn.
pub fn own(shared: &mut Shared, asked: &Asked<'_>, vhost: u16, file: u16, version: u64) -> Onward
    requires may { MayGo asked.now (doing.Owns vhost file version) shared.old }
    ensures went { Went asked.now (doing.Owns vhost file version) shared.old shared.new result }
{
    shared.files.side_mut(file).own(Some(vhost));
    give_back(shared, vhost, 0);
    Onward::Ends {
        seen: asked.seen(),
        answer: Answer::Version(version),
    }
}

/// A file that was taken off a receive ring has no owner any more. The command goes on to its publication.
pub fn disown(shared: &mut Shared, asked: &Asked<'_>, vhost: u16, file: u16) -> Onward
    requires may { MayGo asked.now (doing.Unbacked vhost file) shared.old }
    ensures went { Went asked.now (doing.Unbacked vhost file) shared.old shared.new result }
{
    shared.files.side_mut(file).own(None);
    Onward::Goes {
        seen: asked.seen(),
        doing: Doing::Disowned { vhost, file },
        found: Found::Owner(None),
    }
}

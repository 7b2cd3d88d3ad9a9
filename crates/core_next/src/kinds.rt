//! The kind of a command's next event.

ghost use Rattle.core_next.specs.Telling.{HasWorker, IsNextKind};
ghost use Rattle.core_shared.specs.Coming.{come_of};

use crate::files::{purge_next, read_next, send_next, shrink_next};
use crate::first::first_kind;
use crate::turns::{rx_next, tx_next};
use core_shared::{Doing, Shared};
use scen_words::Command;
use tap_world::EventKind;

/// The kind of the next event of a command that has come so far; none where its turn is over, or where its file isn't
/// there.
pub fn next_kind(shared: &Shared, doing: &Doing, command: &Command) -> Option<EventKind>
    requires { HasWorker shared.now.vhosts doing.now }
    ensures { IsNextKind shared.now (come_of shared.now.vhosts doing.now) command.now result }
{
    match doing {
        Doing::Begun => Some(first_kind(shared, command)),
        Doing::Opens { .. } => Some(EventKind::Reopen),
        Doing::Withdrawn { .. } => Some(EventKind::Shut),
        Doing::Purges { file, .. } => purge_next(shared, *file),
        Doing::Resizes { .. } => Some(EventKind::Resize),
        Doing::Shrinks { file, .. } => shrink_next(shared, *file),
        Doing::Routed { file, epoch, .. } => send_next(shared, *file, *epoch),
        Doing::Placed { .. } => Some(EventKind::Ready),
        Doing::Reads { file, .. } => read_next(shared, *file),
        Doing::Hosts { .. } => Some(EventKind::HostIn),
        Doing::Backs { .. } => Some(EventKind::Drive),
        Doing::Owns { .. } | Doing::Unbacked { .. } => Some(EventKind::Owner),
        Doing::Receives { vhost, file } => rx_next(shared, *vhost, *file),
        Doing::Transmits { vhost, .. } => tx_next(shared, *vhost),
        Doing::Given { .. } => Some(EventKind::Look),
        Doing::Changes { .. }
        | Doing::Opened { .. }
        | Doing::Withdraws { .. }
        | Doing::Learns { .. }
        | Doing::Backed { .. }
        | Doing::Disowned { .. }
        | Doing::Released { .. }
        | Doing::Teaches { .. } => Some(EventKind::Publish),
    }
}

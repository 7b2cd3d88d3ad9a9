//! The kind of a command's first event.

ghost use Rattle.std.specs.Prelude.{◌≡◌, []};
ghost use Rattle.core_next.specs.Telling.{IsFirstKind};
ghost use Rattle.core_shared.specs.Worlds.{world_in};
ghost use Rattle.tap_world.specs.Scripts as world;

use crate::looks::vhost_in;
use core_shared::Shared;
use scen_words::Command;
use tap_world::EventKind;

// A turn begins by turning notices off, where its ring has a backend and isn't stopped.
fn turn_first(shared: &Shared, vhost: u16, ring: u16) -> EventKind
    ensures { result ≡ world.turn_first (world_in shared.now [] []) vhost ring }
{
    match vhost_in(shared, vhost) {
        Some(side) if side.off(vhost, ring).is_some() => EventKind::Owner,
        Some(_) | None => EventKind::Notices,
    }
}

// The kind of a command's first event.
pub(crate) fn first_kind(shared: &Shared, command: &Command) -> EventKind
    ensures { IsFirstKind shared.now command.now result }
{
    match command {
        Command::RxTurn { vhost } => turn_first(shared, *vhost, 0),
        Command::TxTurn { vhost } => turn_first(shared, *vhost, 1),
        Command::Poke { .. } => EventKind::Poke,
        Command::Peek { .. } => EventKind::Peek,
        Command::Features { .. }
        | Command::VNum { .. }
        | Command::VBase { .. }
        | Command::VAddr { .. }
        | Command::GetBase { .. }
        | Command::DriveAt { .. }
        | Command::PostIn { .. }
        | Command::PostOut { .. }
        | Command::Harvest { .. } => EventKind::Drive,
        Command::SetIff { .. }
        | Command::SetQueue { .. }
        | Command::Close { .. }
        | Command::Persist { .. }
        | Command::HdrSize { .. }
        | Command::Steer { .. }
        | Command::Filter { .. }
        | Command::Tick { .. }
        | Command::Resize { .. }
        | Command::Send { .. }
        | Command::Read { .. }
        | Command::Write { .. }
        | Command::Backend { .. } => EventKind::Look,
    }
}

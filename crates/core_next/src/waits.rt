//! Whether an actor may go on.

ghost use Rattle.std.specs.Prelude.{◌≡◌, [], ◌&&◌};
ghost use Rattle.core_next.specs.Telling.{HasWorker, TellsWhoMayBegin, TellsWhoMayDrive, TellsWhoMayGo};
ghost use Rattle.core_shared.specs.Coming.{come_of};
ghost use Rattle.core_shared.specs.Worlds.{world_in};
ghost use Rattle.tap_world.specs.Guests as world;
ghost use Rattle.tap_world.specs.Waiting as wait;

use crate::looks::{file_in, vhost_in};
use core_shared::{Doing, Shared};
use scen_words::Command;
use tap_guests::VhostSide;

/// Whether an actor may go on with a command that has come so far: its next event, if it has one, is allowed.
pub fn may_go(shared: &Shared, actor: u16, doing: &Doing, command: &Command) -> bool
    requires { HasWorker shared.now.vhosts doing.now }
    ensures { TellsWhoMayGo shared.now actor (come_of shared.now.vhosts doing.now) command.now result }
{
    match doing {
        Doing::Begun => may_begin(shared, actor, command),
        Doing::Learns { .. } | Doing::Teaches { .. } => shared.writer.is_none(),
        Doing::Backs { .. } => may_drive(shared, actor, command),
        Doing::Purges { file, .. } => may_purge(shared, *file),
        Doing::Shrinks { file, .. } => may_shrink(shared, *file),
        Doing::Changes { .. }
        | Doing::Opens { .. }
        | Doing::Opened { .. }
        | Doing::Withdraws { .. }
        | Doing::Withdrawn { .. }
        | Doing::Resizes { .. }
        | Doing::Routed { .. }
        | Doing::Placed { .. }
        | Doing::Reads { .. }
        | Doing::Hosts { .. }
        | Doing::Backed { .. }
        | Doing::Owns { .. }
        | Doing::Unbacked { .. }
        | Doing::Disowned { .. }
        | Doing::Released { .. }
        | Doing::Receives { .. }
        | Doing::Transmits { .. }
        | Doing::Given { .. } => true,
    }
}

// A purge waits for a frame that is in hand, and for the place in front of the ring to be put.
fn may_purge(shared: &Shared, file: u16) -> bool
    ensures { result ≡ wait.file_is (world_in shared.now [] []) file wait.may_purge }
{
    let Some(side) = file_in(shared, file) else {
        return false;
    };
    if side.has_batch() {
        side.hand().is_none()
    } else {
        side.ready_front().is_some()
    }
}

// A resize waits, while more wait than the ring has places, for each claimed place to be put.
fn may_shrink(shared: &Shared, file: u16) -> bool
    ensures { result ≡ wait.file_is (world_in shared.now [] []) file wait.may_shrink }
{
    match file_in(shared, file) {
        Some(side) => !side.is_over() || !side.has_claim(),
        None => false,
    }
}

// A ring's turn is free, or held by this actor; a ring that there isn't has none.
fn is_free_for(side: &VhostSide, actor: u16, ring: u16) -> bool
    ensures { result ≡ world.is_free_for actor ring side.now.vhost }
{
    match side.turn(ring) {
        Some(holder) => ring >= 2 || holder == u32::from(actor),
        None => true,
    }
}

// The turn of a vhost's ring is free, or held by this actor.
fn may_call(shared: &Shared, actor: u16, vhost: u16, ring: u16) -> bool
    ensures { result ≡ wait.vhost_is (world_in shared.now [] []) vhost (world.is_free_for actor ring) }
{
    match vhost_in(shared, vhost) {
        Some(side) => is_free_for(side, actor, ring),
        None => false,
    }
}

// So are the turns of both rings.
fn may_call_both(shared: &Shared, actor: u16, vhost: u16) -> bool
    ensures { result ≡ wait.vhost_is (world_in shared.now [] []) vhost
        (λ v. world.is_free_for actor 0 v && world.is_free_for actor 1 v) }
{
    match vhost_in(shared, vhost) {
        Some(side) => is_free_for(side, actor, 0) && is_free_for(side, actor, 1),
        None => false,
    }
}

// The turn of a vhost's ring is free.
fn may_turn(shared: &Shared, vhost: u16, ring: u16) -> bool
    ensures { result ≡ wait.vhost_is (world_in shared.now [] []) vhost (world.is_free ring) }
{
    match vhost_in(shared, vhost) {
        Some(side) => side.turn(ring).is_none(),
        None => false,
    }
}

// A backend may be set where the turn of its ring is free; a ring that there isn't has none.
fn may_back(shared: &Shared, vhost: u16, ring: u16) -> bool
    ensures { result ≡ wait.vhost_is (world_in shared.now [] []) vhost (wait.has_free_turn ring) }
{
    match vhost_in(shared, vhost) {
        Some(side) => ring >= 2 || side.turn(ring).is_none(),
        None => false,
    }
}

// The call of a backend that the table refused waits for its ring's turn; one that it didn't refuse holds that turn.
fn may_drive(shared: &Shared, actor: u16, command: &Command) -> bool
    ensures { TellsWhoMayDrive shared.now actor command.now result }
{
    let Command::Backend { vhost, ring, .. } = command else {
        return false;
    };
    may_call(shared, actor, *vhost, *ring)
}

// A command may begin: on the table where nobody holds the writer; a backend where its ring's turn is free, too; a turn
// where that is free; a control call of a vhost where it meets no turn; any other command always.
fn may_begin(shared: &Shared, actor: u16, command: &Command) -> bool
    ensures { TellsWhoMayBegin shared.now actor command.now result }
{
    match command {
        Command::SetIff { .. }
        | Command::SetQueue { .. }
        | Command::Close { .. }
        | Command::Persist { .. }
        | Command::HdrSize { .. }
        | Command::Steer { .. }
        | Command::Filter { .. }
        | Command::Tick { .. }
        | Command::Resize { .. } => shared.writer.is_none(),
        Command::Backend { vhost, ring, .. } => {
            shared.writer.is_none() && may_back(shared, *vhost, *ring)
        }
        Command::RxTurn { vhost } => may_turn(shared, *vhost, 0),
        Command::TxTurn { vhost } => may_turn(shared, *vhost, 1),
        Command::Features { vhost, .. } => may_call_both(shared, actor, *vhost),
        Command::VNum { vhost, ring, .. }
        | Command::VBase { vhost, ring, .. }
        | Command::VAddr { vhost, ring, .. }
        | Command::GetBase { vhost, ring } => may_call(shared, actor, *vhost, *ring),
        Command::DriveAt { .. }
        | Command::PostIn { .. }
        | Command::PostOut { .. }
        | Command::Harvest { .. }
        | Command::Poke { .. }
        | Command::Peek { .. }
        | Command::Send { .. }
        | Command::Read { .. }
        | Command::Write { .. } => true,
    }
}

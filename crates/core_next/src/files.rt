//! What is next on a file.

ghost use Rattle.std.specs.Prelude.{◌≡◌, []};
ghost use Rattle.core_shared.specs.Worlds.{world_in};
ghost use Rattle.tap_world.specs.Scripts as world;

use crate::looks::file_in;
use core_shared::Shared;
use tap_world::EventKind;

// A purge: the batch's front goes out, and then the ring's front moves.
pub(crate) fn purge_next(shared: &Shared, file: u16) -> Option<EventKind>
    ensures { result ≡ world.on (world_in shared.now [] []) file world.purge_next }
{
    let side = file_in(shared, file)?;
    Some(if side.has_batch() {
        EventKind::Out
    } else {
        EventKind::Move
    })
}

// A resize cuts while more wait than the ring has places, and then publishes.
pub(crate) fn shrink_next(shared: &Shared, file: u16) -> Option<EventKind>
    ensures { result ≡ world.on (world_in shared.now [] []) file world.shrink_next }
{
    let side = file_in(shared, file)?;
    Some(if side.is_over() {
        EventKind::Cut
    } else {
        EventKind::Publish
    })
}

// A send with a row: the first of Gone, Spent, Full and Claim whose condition holds.
pub(crate) fn send_next(shared: &Shared, file: u16, epoch: u16) -> Option<EventKind>
    ensures { result ≡ world.on (world_in shared.now [] []) file (world.send_next epoch) }
{
    let side = file_in(shared, file)?;
    Some(if side.is_gone(epoch) {
        EventKind::Gone
    } else if side.is_spent() {
        EventKind::Spent
    } else if side.is_full() {
        EventKind::Full
    } else {
        EventKind::Claim
    })
}

// A read meets a worker, takes the batch's front, moves the ring's front, or finds none ready.
pub(crate) fn read_next(shared: &Shared, file: u16) -> Option<EventKind>
    ensures { result ≡ world.on (world_in shared.now [] []) file world.read_next }
{
    let side = file_in(shared, file)?;
    Some(if side.owner().is_some() {
        EventKind::Owner
    } else if side.has_batch() {
        EventKind::Out
    } else if side.ready_front().is_some() {
        EventKind::Move
    } else {
        EventKind::NotReady
    })
}

// A turn takes a frame in hand where one is ready.
pub(crate) fn hand_next(shared: &Shared, file: u16) -> Option<EventKind>
    ensures { result ≡ world.on (world_in shared.now [] []) file world.hand_next }
{
    let side = file_in(shared, file)?;
    Some(if side.has_batch() || side.ready_front().is_some() {
        EventKind::Hand
    } else {
        EventKind::NotReady
    })
}

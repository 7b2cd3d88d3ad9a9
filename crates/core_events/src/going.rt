//! The next event of a command, by how far it has come.

ghost use Rattle.std.specs.Prelude.{IfOk};
ghost use Rattle.core_shared.specs.Did.{Went};
ghost use Rattle.core_shared.specs.MayDo.{MayGo};

use crate::beginning::begin;
use core_calls::{disown, drive_back, own, publish_back, publish_disowned, publish_released};
use core_receive::receive;
use core_rings::{purge, put, read, reopen, resize, send_on, shrink, shut};
use core_shared::{Asked, Doing, Onward, Shared};
use core_table::{host, learn, publish_attach, publish_change, publish_detach};
use core_transmit::{look_at_flow, teach, transmit};
use std::alloc::{AllocError, Global};

/// Makes the next event of a command that has come so far, and tells how the command goes on.
///
/// # Errors
///
/// Only where memory runs out: the frame that the command carried is ended then, and the run is to be given up.
pub fn make_next(
    shared: &mut Shared,
    alloc: Global,
    asked: &Asked<'_>,
    doing: Doing,
) -> Result<Onward, AllocError>
    requires may { MayGo asked.now doing shared.old }
    ensures went { IfOk result (λ on. Went asked.now doing shared.old shared.new on) }
{
    match doing {
        Doing::Begun => begin(shared, alloc, asked),
        Doing::Changes { op } => publish_change(shared, asked, op),
        Doing::Opens { file, op } => Ok(reopen(shared, asked, file, op)),
        Doing::Opened { file, op } => publish_attach(shared, asked, file, op),
        Doing::Withdraws { file, op } => publish_detach(shared, asked, file, op),
        Doing::Withdrawn { file, version } => Ok(shut(shared, asked, file, version)),
        Doing::Purges { file, version } => Ok(purge(shared, asked, file, version)),
        Doing::Resizes { file, capacity } => Ok(resize(shared, asked, file, capacity)),
        Doing::Shrinks {
            file,
            capacity,
            claimed,
            cuts,
        } => shrink(shared, asked, file, capacity, claimed, cuts),
        Doing::Routed { file, epoch, frame } => send_on(shared, asked, file, epoch, frame),
        Doing::Placed {
            file,
            place,
            epoch,
            frame,
        } => Ok(put(shared, asked, file, place, epoch, frame)),
        Doing::Reads { file, room, shape } => read(shared, alloc, asked, file, room, shape),
        Doing::Hosts {
            file,
            frame,
            learns,
        } => host(shared, asked, file, frame, learns),
        Doing::Learns { file, frame } => learn(shared, asked, file, frame),
        Doing::Backs {
            vhost,
            ring,
            file,
            refusal,
        } => drive_back(shared, asked, vhost, ring, file, refusal),
        Doing::Backed { vhost, ring, file } => publish_back(shared, asked, vhost, ring, file),
        Doing::Owns {
            vhost,
            file,
            version,
        } => Ok(own(shared, asked, vhost, file, version)),
        Doing::Unbacked { vhost, file } => Ok(disown(shared, asked, vhost, file)),
        Doing::Disowned { vhost, file } => publish_disowned(shared, asked, vhost, file),
        Doing::Released { vhost, file } => publish_released(shared, asked, vhost, file),
        Doing::Receives { vhost, file } => receive(shared, alloc, asked, vhost, file),
        Doing::Transmits {
            vhost,
            file,
            chains,
        } => transmit(shared, asked, vhost, file, chains),
        Doing::Given {
            vhost,
            file,
            chains,
            frame,
        } => Ok(look_at_flow(shared, asked, vhost, file, chains, frame)),
        Doing::Teaches {
            vhost,
            file,
            chains,
            frame,
        } => teach(shared, asked, vhost, file, chains, frame),
    }
}

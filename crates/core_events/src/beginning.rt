//! The first event of a command.

ghost use Rattle.std.specs.Prelude.{IfOk};
ghost use Rattle.core_shared.specs.Did.{Went};
ghost use Rattle.core_shared.specs.MayDo.{MayGo};
ghost use Rattle.core_shared.specs.declared.doing.Doing.TheVariants as doing;

use core_calls::{begin_back, call, peek, poke};
use core_receive::begin_receive;
use core_shared::{Asked, Onward, Shared};
use core_table::{begin_change, begin_read, begin_send, begin_write, op_of};
use core_transmit::begin_transmit;
use scen_words::Command;
use std::alloc::{AllocError, Global};

// Makes the first event of a command.
pub(crate) fn begin(
    shared: &mut Shared,
    alloc: Global,
    asked: &Asked<'_>,
) -> Result<Onward, AllocError>
    requires may { MayGo asked.now doing.Begun shared.old }
    ensures went { IfOk result (λ on. Went asked.now doing.Begun shared.old shared.new on) }
{
    match asked.command() {
        // Each of these has an operation.
        Command::SetIff { .. }
        | Command::SetQueue { .. }
        | Command::Close { .. }
        | Command::Persist { .. }
        | Command::HdrSize { .. }
        | Command::Steer { .. }
        | Command::Filter { .. }
        | Command::Tick { .. }
        | Command::Resize { .. } => Ok(begin_change(shared, asked, op_of(asked).unwrap())),
        Command::Send { name, hdr, bytes } => {
            begin_send(shared, alloc, asked, *name, *hdr, bytes.as_slice())
        }
        Command::Read { file, room } => Ok(begin_read(shared, asked, *file, *room)),
        Command::Write { file, bytes } => {
            begin_write(shared, alloc, asked, *file, bytes.as_slice())
        }
        Command::Features { vhost, .. }
        | Command::VNum { vhost, .. }
        | Command::VBase { vhost, .. }
        | Command::VAddr { vhost, .. }
        | Command::GetBase { vhost, .. }
        | Command::DriveAt { vhost, .. }
        | Command::PostIn { vhost, .. }
        | Command::PostOut { vhost, .. }
        | Command::Harvest { vhost, .. } => call(shared, alloc, asked, *vhost),
        Command::Backend { vhost, ring, file } => {
            Ok(begin_back(shared, asked, *vhost, *ring, *file))
        }
        Command::RxTurn { vhost } => begin_receive(shared, alloc, asked, *vhost),
        Command::TxTurn { vhost } => begin_transmit(shared, alloc, asked, *vhost),
        Command::Poke { guest, addr, bytes } => {
            poke(shared, asked, *guest, *addr, bytes.as_slice())
        }
        Command::Peek { guest, addr, len } => peek(shared, alloc, asked, *guest, *addr, *len),
    }
}

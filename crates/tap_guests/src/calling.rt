//! A command's whole call on a vhost or on the driver of a ring.

ghost use Rattle.std.specs.Prelude.{◌≡◌, IfNone, IfOk};
ghost use Rattle.tap_guests.specs.Calls.{AskUnserved, CallsAny, HasPiece, with_vhost};
ghost use Rattle.tap_guests.specs.Within.{IsIn};

use crate::called::Called;
use crate::side::VhostSide;
use guest_mem::Memory;
use scen_words::Command;
use std::alloc::{AllocError, Global};

impl VhostSide {
    /// Makes the call of a command that is one: `features`, `vnum`, `vbase`, `vaddr`, `getbase`, `drive`, `postin`,
    /// `postout` or `harvest`. Any other command changes nothing here, and answers none.
    pub fn call(
        &mut self,
        alloc: Global,
        command: &Command,
        mem: &mut Memory,
    ) -> Result<Option<Called>, AllocError>
        requires unserved { AskUnserved command.now self.old }
        requires piece { HasPiece command.now }
        requires within { IsIn mem.old.regions self.old }
        ensures call { IfOk result (λ told. CallsAny command.now self.old.vhost mem.old told self.new.vhost mem.new) }
        ensures nothing { IfOk result (λ told. IfNone told (self.new ≡ self.old)) }
        ensures nothing_written { IfOk result (λ told. IfNone told (mem.new ≡ mem.old)) }
        ensures only { self.new ≡ with_vhost self.new.vhost self.old }
        ensures regions { mem.new.regions ≡ mem.old.regions }
        ensures within { IsIn mem.new.regions self.new }
    {
        match command {
            Command::Features { vhost, bits } => Ok(Some(self.set_features(*vhost, *bits)?)),
            Command::VNum { vhost, ring, num } => Ok(Some(self.set_num(*vhost, *ring, *num)?)),
            Command::VBase { vhost, ring, base } => Ok(Some(self.set_base(*vhost, *ring, *base)?)),
            Command::VAddr {
                vhost,
                ring,
                desc,
                avail,
                used,
            } => Ok(Some(self.set_addr(*vhost, *ring, *desc, *avail, *used, mem)?)),
            Command::GetBase { vhost, ring } => Ok(Some(self.get_base(*vhost, *ring)?)),
            Command::DriveAt { vhost, ring, addr } => {
                Ok(Some(self.drive(alloc, *vhost, *ring, *addr, mem)?))
            }
            Command::PostIn { vhost, ring, lens } => {
                Ok(Some(self.post_in(*vhost, *ring, lens.as_slice(), mem)?))
            }
            Command::PostOut { vhost, ring, bytes } => {
                Ok(Some(self.post_out(*vhost, *ring, bytes.as_slice(), mem)?))
            }
            Command::Harvest { vhost, ring } => Ok(Some(self.harvest(*vhost, *ring, mem)?)),
            Command::SetIff { .. }
            | Command::SetQueue { .. }
            | Command::Close { .. }
            | Command::Persist { .. }
            | Command::HdrSize { .. }
            | Command::Steer { .. }
            | Command::Filter { .. }
            | Command::Tick { .. }
            | Command::Resize { .. }
            | Command::Send { .. }
            | Command::Read { .. }
            | Command::Write { .. }
            | Command::Backend { .. }
            | Command::RxTurn { .. }
            | Command::TxTurn { .. }
            | Command::Poke { .. }
            | Command::Peek { .. } => Ok(None),
        }
    }
}

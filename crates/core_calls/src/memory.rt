//! Bytes of a guest's memory.

ghost use Rattle.std.specs.Prelude.{◌≡◌, IfOk};
ghost use Rattle.core_shared.specs.Did.{Went};
ghost use Rattle.core_shared.specs.MayDo.{MayGo};
ghost use Rattle.core_shared.specs.declared.doing.Doing.TheVariants as doing;
ghost use Rattle.scen_words.specs.declared.command.Command.TheVariants as command;

use core_shared::{Asked, Onward, Shared};
use std::alloc::{AllocError, Global};
use tap_trace::Kind;

/// `poke`: writes these bytes to a guest's memory from an address on, or tells the first address that isn't there. It
/// is the command's only event.
///
/// # Errors
///
/// Only where memory runs out.
pub fn poke(
    shared: &mut Shared,
    asked: &Asked<'_>,
    guest: u16,
    addr: u64,
    bytes: &[u8],
) -> Result<Onward, AllocError>
    requires command { asked.now.command ≡ command.Poke guest addr bytes.now }
    requires may { MayGo asked.now doing.Begun shared.old }
    ensures went { IfOk result (λ on. Went asked.now doing.Begun shared.old shared.new on) }
{
    let memory = shared.guests.guest_mut(guest);
    let answer = memory.poke(addr, bytes);
    memory.tell(asked.actor(), asked.number(), Some(Kind::Poke))?;
    Ok(Onward::Ends {
        seen: asked.seen(),
        answer,
    })
}

/// `peek`: reads `len` bytes of a guest's memory from an address on, or tells the first address that isn't there. It is
/// the command's only event.
///
/// # Errors
///
/// Only where memory runs out.
pub fn peek(
    shared: &mut Shared,
    alloc: Global,
    asked: &Asked<'_>,
    guest: u16,
    addr: u64,
    len: u32,
) -> Result<Onward, AllocError>
    requires command { asked.now.command ≡ command.Peek guest addr len }
    requires may { MayGo asked.now doing.Begun shared.old }
    ensures went { IfOk result (λ on. Went asked.now doing.Begun shared.old shared.new on) }
{
    let memory = shared.guests.guest_mut(guest);
    let answer = memory.peek(alloc, addr, len)?;
    memory.tell(asked.actor(), asked.number(), Some(Kind::Peek))?;
    Ok(Onward::Ends {
        seen: asked.seen(),
        answer,
    })
}

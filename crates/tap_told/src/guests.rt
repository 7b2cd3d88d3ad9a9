//! The steps on guests.

ghost use Rattle.std.specs.Prelude.{◌≡◌, ◌≤◌, ◌^◌, ◌++◌, IfOk, OnOk, [], ◌∷◌, length, map};
ghost use Rattle.tap_world.specs.ByNumber.{numbered};
ghost use Rattle.tap_world.specs.Project.{guest_part};

use sqlite_items::Items;
use std::alloc::{AllocError, Global};
use tap_guests::GuestMem;
use tap_trace::GuestPart;

// The part of a guest that is there.
fn push_guest(
    parts: &mut Items<GuestPart>,
    guest: u16,
    mem: Option<GuestMem>,
) -> Result<(), AllocError>
    ensures { OnOk result (parts.new ≡ parts.old ++ map guest_part (numbered guest (mem ∷ []))) }
{
    match mem {
        Some(mem) => parts.push(GuestPart {
            guest,
            steps: Items::from_vec(mem.into_steps()),
        }),
        None => Ok(()),
    }
}

/// The parts of guests by number.
pub(crate) fn guest_parts(
    alloc: Global,
    guests: Vec<Option<GuestMem>>,
) -> Result<Items<GuestPart>, AllocError>
    requires { length guests.items ≤ 2 ^ 16 }
    ensures { IfOk result (λ parts. parts ≡ map guest_part (numbered 0 guests.items)) }
{
    let mut parts = Items::new(alloc);
    for (guest, mem) in guests.into_iter().enumerate() {
        push_guest(&mut parts, guest as u16, mem)?;
    }
    Ok(parts)
}

//! The causes for which commands are refused.

ghost use Rattle.std.specs.Prelude.{◌≡◌, ◌++◌, ◌∷◌, OnOk, string_bytes, codes};
ghost use Rattle.std.specs.List.{join_with_byte};
ghost use Rattle.trace_causes.specs.Causes.{drive_fields, tap_fields, vhost_fields};

use crate::table::Word;
use std::alloc::AllocError;
use std::fmt::Write;
use tap_trace::{DriveText, TapText, VhostText};

/// Adds `err` and why the table refuses an operation.
pub fn put_tap(out: &mut String, why: TapText) -> Result<(), AllocError>
    ensures { OnOk result (string_bytes out.new
        ≡ string_bytes out.old ++ join_with_byte 32 (codes "err" ∷ tap_fields why)) }
{
    match why {
        TapText::EEXIST => out.push_str("err EEXIST"),
        TapText::EINVAL(why) => {
            let word = why.spelling();
            write!(out, "err EINVAL {word}")
        }
        TapText::EBUSY(why) => {
            let word = why.spelling();
            write!(out, "err EBUSY {word}")
        }
        TapText::E2BIG(why) => {
            let word = why.spelling();
            write!(out, "err E2BIG {word}")
        }
        TapText::EBADFD => out.push_str("err EBADFD"),
        TapText::ENOTSUP => out.push_str("err ENOTSUP"),
        TapText::ENFILE => out.push_str("err ENFILE"),
    }
}

/// Adds `verr` and why a vhost refuses a command.
pub fn put_vhost(out: &mut String, why: VhostText) -> Result<(), AllocError>
    ensures { OnOk result (string_bytes out.new
        ≡ string_bytes out.old ++ join_with_byte 32 (codes "verr" ∷ vhost_fields why)) }
{
    match why {
        VhostText::EINVAL => out.push_str("verr EINVAL"),
        VhostText::EBUSY => out.push_str("verr EBUSY"),
        VhostText::EFAULT => out.push_str("verr EFAULT"),
        VhostText::ENOBUFS => out.push_str("verr ENOBUFS"),
        VhostText::EHDR { want, have } => write!(out, "verr EHDR {want} {have}"),
        VhostText::ENOTSUP => out.push_str("verr ENOTSUP"),
    }
}

/// Adds `derr` and why a driver refuses a command.
pub fn put_drive(out: &mut String, why: DriveText) -> Result<(), AllocError>
    ensures { OnOk result (string_bytes out.new
        ≡ string_bytes out.old ++ join_with_byte 32 (codes "derr" ∷ drive_fields why)) }
{
    match why {
        DriveText::Unaligned => out.push_str("derr Unaligned"),
        DriveText::Outside { first_bad } => write!(out, "derr Outside {first_bad}"),
        DriveText::TooLong { len } => write!(out, "derr TooLong {len}"),
        DriveText::Full { need, free } => write!(out, "derr Full {need} {free}"),
        DriveText::Stray { id } => write!(out, "derr Stray {id}"),
    }
}

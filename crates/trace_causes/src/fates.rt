//! Frames that were dropped or discarded, and the fates of those that had a place.

ghost use Rattle.std.specs.Prelude.{◌≡◌, ◌++◌, ◌∷◌, OnOk, string_bytes, codes, decimal};
ghost use Rattle.std.specs.List.{join_with_byte};
ghost use Rattle.scen_words.specs.Field.{line};
ghost use Rattle.trace_causes.specs.Causes.{cause_fields, discard_fields, fate_fields};

use crate::table::Word;
use std::alloc::AllocError;
use std::fmt::Write;
use tap_ledger::{Cause, Fate};

fn put_gone(
    out: &mut String,
    file: Option<u16>,
    want: u16,
    found: u16,
    shut: bool,
) -> Result<(), AllocError>
    ensures { OnOk result (string_bytes out.new
        ≡ string_bytes out.old ++ join_with_byte 32 (codes "drop" ∷ cause_fields file (Cause.Gone want found shut))) }
{
    let shut = shut.spelling();
    out.push_str("drop Gone ")?;
    if let Some(file) = file {
        write!(out, "{file} ")?;
    }
    write!(out, "{want} {found} {shut}")
}

fn put_full(out: &mut String, file: Option<u16>, claimed: u64, freed: u64) -> Result<(), AllocError>
    ensures { OnOk result (string_bytes out.new
        ≡ string_bytes out.old ++ join_with_byte 32 (codes "drop" ∷ cause_fields file (Cause.Full claimed freed))) }
{
    out.push_str("drop Full ")?;
    if let Some(file) = file {
        write!(out, "{file} ")?;
    }
    write!(out, "{claimed} {freed}")
}

fn put_overrun(
    out: &mut String,
    file: Option<u16>,
    need: u32,
    quota: u16,
    had: u64,
) -> Result<(), AllocError>
    ensures { OnOk result (string_bytes out.new
        ≡ string_bytes out.old ++ join_with_byte 32 (codes "drop" ∷ cause_fields file (Cause.Overrun need quota had))) }
{
    out.push_str("drop Overrun ")?;
    if let Some(file) = file {
        write!(out, "{file} ")?;
    }
    write!(out, "{need} {quota} {had}")
}

fn put_spent(out: &mut String, file: Option<u16>, claimed: u64) -> Result<(), AllocError>
    ensures { OnOk result (string_bytes out.new
        ≡ string_bytes out.old ++ join_with_byte 32 (codes "drop" ∷ cause_fields file (Cause.Spent claimed))) }
{
    out.push_str("drop Spent ")?;
    if let Some(file) = file {
        write!(out, "{file} ")?;
    }
    write!(out, "{claimed}")
}

/// Adds `drop` and why a frame was dropped.
pub fn put_dropped(out: &mut String, file: Option<u16>, cause: Cause) -> Result<(), AllocError>
    ensures { OnOk result (string_bytes out.new
        ≡ string_bytes out.old ++ join_with_byte 32 (codes "drop" ∷ cause_fields file cause)) }
{
    match cause {
        Cause::NoQueue => out.push_str("drop NoQueue"),
        Cause::Filtered => out.push_str("drop Filtered"),
        Cause::Gone { want, found, shut } => put_gone(out, file, want, found, shut),
        Cause::Full { claimed, freed } => put_full(out, file, claimed, freed),
        Cause::Purged => out.push_str("drop Purged"),
        Cause::Overrun { need, quota, had } => put_overrun(out, file, need, quota, had),
        Cause::Cut => out.push_str("drop Cut"),
        Cause::Spent { claimed } => put_spent(out, file, claimed),
    }
}

// The length of a frame that had a place and was discarded, and for what.
fn put_discarded(out: &mut String, len: u32, cause: Cause) -> Result<(), AllocError>
    ensures { OnOk result (string_bytes out.new ≡ string_bytes out.old ++ line (decimal len ∷ discard_fields cause)) }
{
    match cause {
        Cause::NoQueue => writeln!(out, "{len} NoQueue"),
        Cause::Filtered => writeln!(out, "{len} Filtered"),
        Cause::Gone { want, found, shut } => {
            let shut = shut.spelling();
            writeln!(out, "{len} Gone {want} {found} {shut}")
        }
        Cause::Full { claimed, freed } => writeln!(out, "{len} Full {claimed} {freed}"),
        Cause::Purged => writeln!(out, "{len} purged"),
        Cause::Overrun { need, quota, had } => {
            writeln!(out, "{len} overrun {need} {quota} {had}")
        }
        Cause::Cut => writeln!(out, "{len} cut"),
        Cause::Spent { claimed } => writeln!(out, "{len} Spent {claimed}"),
    }
}

/// Adds the length of a frame that had a place, and what became of it, up to the end of the line.
pub fn put_fated(out: &mut String, len: u32, fate: Fate) -> Result<(), AllocError>
    ensures { OnOk result (string_bytes out.new ≡ string_bytes out.old ++ line (decimal len ∷ fate_fields fate)) }
{
    match fate {
        Fate::Waiting => writeln!(out, "{len} waiting"),
        Fate::Read => writeln!(out, "{len} read"),
        Fate::Guest => writeln!(out, "{len} guest"),
        Fate::Host => writeln!(out, "{len} host"),
        Fate::Discarded(cause) => put_discarded(out, len, cause),
    }
}

//! The lines of files.

ghost use Rattle.std.specs.Prelude.{◌≡◌, ◌+◌, ◌≤◌, ◌<◌, ◌^◌, ◌++◌, IfOk, OnOk, [], ◌∷◌, length, map, Some};
ghost use Rattle.tap_lines.specs.Files.{files_of};
ghost use Rattle.tap_world.specs.ByNumber.{numbered};
ghost use Rattle.tap_world.specs.Line.{fate_of};
ghost use Rattle.tap_world.specs.Project.{file_part, place_lines};

use sqlite_items::Items;
use std::alloc::{AllocError, Global};
use tap_ledger::{Cause, Fate};
use tap_lines::FileSide;
use tap_trace::{FilePart, PlaceLine};
use tap_world::{Entry, Standing};

// What has become of the frame of an entry.
fn fate_of(stands: Standing) -> Fate
    ensures { result ≡ fate_of stands }
{
    match stands {
        Standing::Out(fate) => fate,
        Standing::Cut => Fate::Discarded(Cause::Cut),
        Standing::Claimed(_) | Standing::Ready | Standing::Batched => Fate::Waiting,
    }
}

fn place_line(place: u64, entry: &Entry) -> PlaceLine
    ensures { result ∷ [] ≡ place_lines place (entry.now ∷ []) }
{
    PlaceLine {
        place,
        epoch: entry.epoch,
        name: entry.name,
        len: entry.len,
        fate: fate_of(entry.stands),
    }
}

// The entries of a line whose first place is this one.
fn place_lines(alloc: Global, first: u64, line: &[Entry]) -> Result<Items<PlaceLine>, AllocError>
    requires { first + length line.now < 2 ^ 64 }
    ensures { IfOk result (λ lines. lines ≡ place_lines first line.now) }
{
    let mut lines = Items::new(alloc);
    for (index, entry) in line.iter().enumerate() {
        lines.push(place_line(first + index as u64, entry))?;
    }
    Ok(lines)
}

fn file_part(alloc: Global, file: u16, side: &FileSide) -> Result<FilePart, AllocError>
    ensures { IfOk result (λ part. part ≡ file_part (file, side.now.file)) }
{
    Ok(FilePart {
        file,
        claimed: side.claimed(),
        freed: side.freed(),
        lines: place_lines(alloc, side.first(), side.line())?,
    })
}

// The part of a file that is there.
fn push_file(
    alloc: Global,
    parts: &mut Items<FilePart>,
    file: u16,
    side: &Option<FileSide>,
) -> Result<(), AllocError>
    ensures { OnOk result (parts.new
        ≡ parts.old ++ map file_part (numbered file (files_of (side.now ∷ [])))) }
{
    match side {
        Some(side) => parts.push(file_part(alloc, file, side)?),
        None => Ok(()),
    }
}

/// The parts of files by number.
pub(crate) fn file_parts(
    alloc: Global,
    sides: &[Option<FileSide>],
) -> Result<Items<FilePart>, AllocError>
    requires { length sides.now ≤ 2 ^ 16 }
    ensures { IfOk result (λ parts. parts ≡ map file_part (numbered 0 (files_of sides.now))) }
{
    let mut parts = Items::new(alloc);
    for (file, side) in sides.iter().enumerate() {
        push_file(alloc, &mut parts, file as u16, side)?;
    }
    Ok(parts)
}

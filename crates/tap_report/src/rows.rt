//! The report counted.

ghost use Rattle.std.specs.Prelude.{◌≡◌, ℕ, ◌+◌, ◌<◌, ◌^◌, ◌++◌, ◌∷◌, [], List, IfOk, map};
ghost use Rattle.tap_ledger.specs.Counters.{is_guest, is_read, is_waiting};
ghost use Rattle.tap_ledger.specs.declared.fate.Fate.{Fate};
ghost use Rattle.tap_report.specs.Report.{CountsCapped, IsReport};
ghost use Rattle.tap_report.specs.Rows.{device_row, device_rows, fate_and_len, file_row, is_cut, is_drop, is_dropped, is_of, is_overrun, is_purged, is_received, is_transmitted, of_device, of_line};

use crate::frames::{Counted, frames};
use crate::index::index_of;
use crate::rings::ring_rows;
use crate::summary::{DeviceRow, FileRow, Summary};
use crate::sums::one_if;
use crate::turns::turns;
use scen_text::Scenario;
use sqlite_items::Items;
use std::alloc::{AllocError, Global};
use tap_ledger::{Cause, Counters, Fate};
use tap_trace::{FilePart, PlaceLine, Trace};
use text_fields::DeviceName;

fn is_of(device: usize, of: Option<usize>) -> bool
    ensures { result ≡ is_of device of }
{
    match of {
        None => false,
        Some(number) => number == device,
    }
}

fn is_received(fate: Fate) -> bool
    ensures { result ≡ is_received fate }
{
    match fate {
        Fate::Host => true,
        _ => false,
    }
}

fn is_transmitted(fate: Fate) -> bool
    ensures { result ≡ is_transmitted fate }
{
    match fate {
        Fate::Read | Fate::Guest => true,
        _ => false,
    }
}

fn is_drop(cause: Cause) -> bool
    ensures { result ≡ is_drop cause }
{
    match cause {
        Cause::Purged => false,
        Cause::Overrun {
            need: _,
            quota: _,
            had: _,
        } => false,
        Cause::Cut => false,
        _ => true,
    }
}

fn is_dropped(fate: Fate) -> bool
    ensures { result ≡ is_dropped fate }
{
    match fate {
        Fate::Discarded(cause) => is_drop(cause),
        _ => false,
    }
}

// What the frames of a device come to.
#[derive(Clone, Copy)]
struct DeviceSums {
    rx: u64,
    tx: u64,
    dropped: u64,
}

fn device_sums(frames: &[Counted], device: usize) -> DeviceSums
    ensures rx { result.rx ≡ of_device device is_received frames.now }
    ensures tx { result.tx ≡ of_device device is_transmitted frames.now }
    ensures dropped { result.dropped ≡ of_device device is_dropped frames.now }
{
    let mut rx = 0u64;
    let mut tx = 0u64;
    let mut dropped = 0u64;
    for frame in frames {
        let own = is_of(device, frame.device);
        rx += one_if(own & is_received(frame.fate));
        tx += one_if(own & is_transmitted(frame.fate));
        dropped += one_if(own & is_dropped(frame.fate));
    }
    DeviceSums { rx, tx, dropped }
}

fn device_row(frames: &[Counted], device: usize, name: &DeviceName) -> DeviceRow
    ensures { result ≡ device_row frames.now device name.now }
{
    let sums = device_sums(frames, device);
    DeviceRow {
        name: name.duplicate(),
        rx: sums.rx,
        tx: sums.tx,
        dropped: sums.dropped,
    }
}

fn device_rows(
    alloc: Global,
    frames: &[Counted],
    names: &[DeviceName],
) -> Result<Items<DeviceRow>, AllocError>
    ensures { IfOk result (λ r. r ≡ device_rows frames.now 0 names.now) }
{
    let mut rows = Items::new(alloc);
    for (device, name) in names.iter().enumerate() {
        rows.push(device_row(frames, device, name))?;
    }
    Ok(rows)
}

fn waiting(lines: &[PlaceLine]) -> u64
    ensures { result ≡ of_line is_waiting lines.now }
{
    lines.iter().filter(|l| is_waiting(l.fate)).count() as u64
}

fn is_waiting(fate: Fate) -> bool
    ensures { result ≡ is_waiting fate }
{
    match fate {
        Fate::Waiting => true,
        _ => false,
    }
}

fn read(lines: &[PlaceLine]) -> u64
    ensures { result ≡ of_line is_read lines.now }
{
    lines.iter().filter(|l| is_read(l.fate)).count() as u64
}

fn is_read(fate: Fate) -> bool
    ensures { result ≡ is_read fate }
{
    match fate {
        Fate::Read => true,
        _ => false,
    }
}

fn guest(lines: &[PlaceLine]) -> u64
    ensures { result ≡ of_line is_guest lines.now }
{
    lines.iter().filter(|l| is_guest(l.fate)).count() as u64
}

fn is_guest(fate: Fate) -> bool
    ensures { result ≡ is_guest fate }
{
    match fate {
        Fate::Guest => true,
        _ => false,
    }
}

fn purged(lines: &[PlaceLine]) -> u64
    ensures { result ≡ of_line is_purged lines.now }
{
    lines.iter().filter(|l| is_purged(l.fate)).count() as u64
}

fn is_purged(fate: Fate) -> bool
    ensures { result ≡ is_purged fate }
{
    match fate {
        Fate::Discarded(Cause::Purged) => true,
        _ => false,
    }
}

fn overrun(lines: &[PlaceLine]) -> u64
    ensures { result ≡ of_line is_overrun lines.now }
{
    lines.iter().filter(|l| is_overrun(l.fate)).count() as u64
}

fn is_overrun(fate: Fate) -> bool
    ensures { result ≡ is_overrun fate }
{
    match fate {
        Fate::Discarded(Cause::Overrun { .. }) => true,
        _ => false,
    }
}

fn cut(lines: &[PlaceLine]) -> u64
    ensures { result ≡ of_line is_cut lines.now }
{
    lines.iter().filter(|l| is_cut(l.fate)).count() as u64
}

fn is_cut(fate: Fate) -> bool
    ensures { result ≡ is_cut fate }
{
    match fate {
        Fate::Discarded(Cause::Cut) => true,
        _ => false,
    }
}

fn file_row(part: &FilePart) -> FileRow
    ensures { result ≡ file_row part.now }
{
    let lines = part.lines.as_slice();
    FileRow {
        file: part.file,
        waiting: waiting(lines),
        read: read(lines),
        guest: guest(lines),
        purged: purged(lines),
        overrun: overrun(lines),
        cut: cut(lines),
    }
}

fn file_rows(alloc: Global, parts: &[FilePart]) -> Result<Items<FileRow>, AllocError>
    ensures { IfOk result (λ r. r ≡ map file_row parts.now) }
{
    let mut rows = Items::new(alloc);
    for part in parts {
        rows.push(file_row(part))?;
    }
    Ok(rows)
}

// Counts one more frame; the sum of the lengths stands still at its end.
fn count(counters: &mut Counters, frame: &Counted)
    requires { counters.old.accepted + 1 < 2 ^ 64 }
    ensures { (fates : List (Fate × ℕ)) → CountsCapped counters.old fates
        → CountsCapped counters.new (fates ++ fate_and_len frame.now ∷ []) }
{
    let Counted { fate, len, .. } = *frame;
    let room = u64::MAX - counters.bytes;
    let added = u64::from(len).min(room) as u32;
    counters.count(&fate, added);
}

fn total(frames: &[Counted]) -> Counters
    ensures { CountsCapped result (map fate_and_len frames.now) }
{
    let mut counters = Counters::new();
    for frame in frames {
        count(&mut counters, frame);
    }
    counters
}

/// The report of a trace of a scenario. Its sums stand still at 2^64 - 1.
pub fn report(alloc: Global, scenario: &Scenario, trace: &Trace) -> Result<Summary, AllocError>
    ensures { IfOk result (λ r. IsReport scenario.now trace.now r) }
{
    let index = index_of(alloc, scenario, trace)?;
    let frames = frames(alloc, &index, trace)?;
    let roles = index.roles.as_slice();
    let turns = turns(alloc, roles, trace.phases.as_slice())?;
    let guests = trace.guests.as_slice();
    Ok(Summary {
        devices: device_rows(alloc, frames.as_slice(), scenario.names.as_slice())?,
        files: file_rows(alloc, trace.files.as_slice())?,
        rings: ring_rows(
            alloc,
            roles,
            turns.as_slice(),
            guests,
            trace.rings.as_slice(),
        )?,
        total: total(frames.as_slice()),
    })
}

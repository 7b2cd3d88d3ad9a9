//! The parts of a trace behind its phases, to which lines are added at the end.

ghost use Rattle.std.specs.Prelude.{◌≡◌, IfOk};
ghost use Rattle.trace_text.specs.Building.{Opens, Takes, are_listed, file_back, guest_back, in_file, in_guest, in_ring, is_at_files, may_follow, ring_back, with_base, with_line, with_place, with_step, with_used};
ghost use Rattle.trace_text.specs.Ordered.{file_before, guest_before, place_before, ring_before};
ghost use Rattle.trace_words.specs.declared.said.Said.TheVariants as said;

use crate::items::{last, none_yet, pair_before};
use sqlite_items::Items;
use std::alloc::{AllocError, Global};
use tap_trace::{FilePart, GuestPart, PlaceLine, PositionList, RingPart, StepLine, Trace};

// Whether nothing stands behind the files.
fn is_at_files(trace: &Trace) -> bool
    ensures { result ≡ is_at_files trace.now }
{
    none_yet(&trace.guests) & none_yet(&trace.rings)
}

/// Whether the last ring has a list, where there is a ring.
pub fn are_listed(trace: &Trace) -> bool
    ensures { result ≡ are_listed trace.now }
{
    match last(&trace.rings) {
        Some(ring) => !none_yet(&ring.lists),
        None => true,
    }
}

// ---- files

fn file_follows(files: &Items<FilePart>, file: &FilePart) -> bool
    ensures { result ≡ may_follow file_before files.now file.now }
{
    match last(files) {
        Some(last) => last.file < file.file,
        None => true,
    }
}

/// `file`: behind the other files.
pub fn add_file(
    trace: &mut Trace,
    alloc: Global,
    file: u16,
    claimed: u64,
    freed: u64,
) -> Result<bool, AllocError>
    ensures { IfOk result (λ taken. Takes (with_line (said.File file claimed freed) trace.old) taken trace.new) }
{
    let part = FilePart {
        file,
        claimed,
        freed,
        lines: Items::new(alloc),
    };
    if !(is_at_files(trace) & file_follows(&trace.files, &part)) {
        return Ok(false);
    }
    trace.files.push(part)?;
    Ok(true)
}

// The last file's part, taken out of the trace, where a line can stand in it.
fn open_file(trace: &mut Trace) -> Option<FilePart>
    ensures { Opens (λ f. in_file f trace.old) (file_back trace.new) result }
{
    if !is_at_files(trace) {
        return None;
    }
    trace.files.pop()
}

fn place_follows(lines: &Items<PlaceLine>, line: &PlaceLine) -> bool
    ensures { result ≡ may_follow place_before lines.now line.now }
{
    match last(lines) {
        Some(last) => last.place < line.place,
        None => true,
    }
}

fn put_place(file: &mut FilePart, line: PlaceLine) -> Result<bool, AllocError>
    ensures { IfOk result (λ taken. Takes (with_place line file.old) taken file.new) }
{
    if !place_follows(&file.lines, &line) {
        return Ok(false);
    }
    file.lines.push(line)?;
    Ok(true)
}

/// `line`: behind the other places of the file.
pub fn add_place(trace: &mut Trace, line: PlaceLine) -> Result<bool, AllocError>
    ensures { IfOk result (λ taken. Takes (in_file (with_place line) trace.old) taken trace.new) }
{
    let Some(mut file) = open_file(trace) else {
        return Ok(false);
    };
    if !put_place(&mut file, line)? {
        return Ok(false);
    }
    trace.files.push(file)?;
    Ok(true)
}

// ---- guests

fn guest_follows(guests: &Items<GuestPart>, guest: &GuestPart) -> bool
    ensures { result ≡ may_follow guest_before guests.now guest.now }
{
    match last(guests) {
        Some(last) => last.guest < guest.guest,
        None => true,
    }
}

/// `guest`: behind the other guests.
pub fn add_guest(trace: &mut Trace, alloc: Global, guest: u16) -> Result<bool, AllocError>
    ensures { IfOk result (λ taken. Takes (with_line (said.Guest guest) trace.old) taken trace.new) }
{
    let part = GuestPart {
        guest,
        steps: Items::new(alloc),
    };
    if !(none_yet(&trace.rings) & guest_follows(&trace.guests, &part)) {
        return Ok(false);
    }
    trace.guests.push(part)?;
    Ok(true)
}

// The last guest's part, taken out of the trace, where a line can stand in it.
fn open_guest(trace: &mut Trace) -> Option<GuestPart>
    ensures { Opens (λ f. in_guest f trace.old) (guest_back trace.new) result }
{
    if !none_yet(&trace.rings) {
        return None;
    }
    trace.guests.pop()
}

/// `step`: behind the other steps on the guest.
pub fn add_step(trace: &mut Trace, step: StepLine) -> Result<bool, AllocError>
    ensures { IfOk result (λ taken. Takes (in_guest (with_step step) trace.old) taken trace.new) }
{
    let Some(mut guest) = open_guest(trace) else {
        return Ok(false);
    };
    guest.steps.push(step)?;
    trace.guests.push(guest)?;
    Ok(true)
}

// ---- rings

fn ring_follows(rings: &Items<RingPart>, ring: &RingPart) -> bool
    ensures { result ≡ may_follow ring_before rings.now ring.now }
{
    match last(rings) {
        Some(last) => pair_before(
            last.vhost,
            u32::from(last.ring),
            ring.vhost,
            u32::from(ring.ring),
        ),
        None => true,
    }
}

/// `ring`: behind the other rings, which have their lists.
pub fn add_ring(trace: &mut Trace, alloc: Global, vhost: u16, ring: u16) -> Result<bool, AllocError>
    ensures { IfOk result (λ taken. Takes (with_line (said.Ring vhost ring) trace.old) taken trace.new) }
{
    let part = RingPart {
        vhost,
        ring,
        lists: Items::new(alloc),
    };
    if !(are_listed(trace) & ring_follows(&trace.rings, &part)) {
        return Ok(false);
    }
    trace.rings.push(part)?;
    Ok(true)
}

// The last ring's part, taken out of the trace.
fn open_ring(trace: &mut Trace) -> Option<RingPart>
    ensures { Opens (λ f. in_ring f trace.old) (ring_back trace.new) result }
{
    trace.rings.pop()
}

fn put_base(ring: &mut RingPart, alloc: Global, base: u16) -> Result<bool, AllocError>
    ensures { IfOk result (λ taken. Takes (with_base base ring.old) taken ring.new) }
{
    if none_yet(&ring.lists) && base != 0 {
        return Ok(false);
    }
    ring.lists.push(PositionList {
        base,
        used: Items::new(alloc),
    })?;
    Ok(true)
}

/// `base`: the first list of a ring begins at 0.
pub fn add_base(trace: &mut Trace, alloc: Global, base: u16) -> Result<bool, AllocError>
    ensures { IfOk result (λ taken. Takes (in_ring (with_base base) trace.old) taken trace.new) }
{
    let Some(mut ring) = open_ring(trace) else {
        return Ok(false);
    };
    if !put_base(&mut ring, alloc, base)? {
        return Ok(false);
    }
    trace.rings.push(ring)?;
    Ok(true)
}

fn put_used(ring: &mut RingPart, chain: (u16, u16, u32)) -> Result<bool, AllocError>
    ensures { IfOk result (λ taken. Takes (with_used chain ring.old) taken ring.new) }
{
    let Some(mut list) = ring.lists.pop() else {
        return Ok(false);
    };
    list.used.push(chain)?;
    ring.lists.push(list)?;
    Ok(true)
}

/// `used`: in the last list of the ring.
pub fn add_used(trace: &mut Trace, chain: (u16, u16, u32)) -> Result<bool, AllocError>
    ensures { IfOk result (λ taken. Takes (in_ring (with_used chain) trace.old) taken trace.new) }
{
    let Some(mut ring) = open_ring(trace) else {
        return Ok(false);
    };
    if !put_used(&mut ring, chain)? {
        return Ok(false);
    }
    trace.rings.push(ring)?;
    Ok(true)
}

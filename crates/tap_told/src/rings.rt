//! The lists of positions of rings.

ghost use Rattle.std.specs.Prelude.{◌≡◌, ◌==◌, ◌≤◌, ◌^◌, ◌++◌, IfOk, OnOk, [], ◌∷◌, length, map, drop, take, slice_get};
ghost use Rattle.std.specs.List.{flat_map};
ghost use Rattle.tap_world.specs.ByNumber.{numbered};
ghost use Rattle.tap_world.specs.Guests.{Vhost};
ghost use Rattle.tap_world.specs.Project.{lists_from, ring_part, ring_parts};
ghost use Rattle.vhost_dev.specs.Settings.{ring_at};
ghost use Rattle.tap_told.specs.Needs.{vhosts_of};
ghost use Rattle.tap_told.specs.Positions.{begins_at};

use sqlite_items::Items;
use std::alloc::{AllocError, Global};
use tap_guests::VhostSide;
use tap_trace::{PositionList, RingPart};
use vhost_dev::VhostDev;

// The chains that were published behind so many, and before so many were.
fn between(journal: &[(u16, u16, u32)], start: u64, end: u64) -> &[(u16, u16, u32)]
    ensures { result.now ≡ drop start (take end journal.now) }
{
    let end = journal.len().min(end as usize);
    &journal[end.min(start as usize)..end]
}

// How many chains had been published before the list of this index, or in all where there is no such list.
fn begins_at(lists: &[(u16, u64)], index: usize, journal: &[(u16, u16, u32)]) -> u64
    ensures { result ≡ begins_at (slice_get lists.now index) journal.now }
{
    match lists.get(index) {
        Some((_, start)) => *start,
        None => journal.len() as u64,
    }
}

fn position_list(
    alloc: Global,
    base: u16,
    used: &[(u16, u16, u32)],
) -> Result<PositionList, AllocError>
    ensures { IfOk result (λ list. list ≡ record { base = base; used = used.now }) }
{
    Ok(PositionList {
        base,
        used: Items::from_slice(alloc, used)?,
    })
}

// Each list's base and its chains, which end where the next list begins.
fn position_lists(
    alloc: Global,
    lists: &[(u16, u64)],
    journal: &[(u16, u16, u32)],
) -> Result<Items<PositionList>, AllocError>
    ensures { IfOk result (λ told. told ≡ lists_from lists.now journal.now) }
{
    let mut told = Items::new(alloc);
    for (index, (base, start)) in lists.iter().enumerate() {
        let end = begins_at(lists, index + 1, journal);
        told.push(position_list(alloc, *base, between(journal, *start, end))?)?;
    }
    Ok(told)
}

fn ring_part(alloc: Global, vhost: u16, ring: u16, dev: &VhostDev) -> Result<RingPart, AllocError>
    ensures { IfOk result (λ part. part ≡ ring_part vhost ring (ring_at ring dev.now.settings)) }
{
    let rx = ring == 0;
    Ok(RingPart {
        vhost,
        ring,
        lists: position_lists(alloc, dev.lists(rx), dev.queue(rx).journal())?,
    })
}

// The parts of both rings of a vhost that is there.
fn push_rings(
    alloc: Global,
    parts: &mut Items<RingPart>,
    vhost: u16,
    side: &Option<VhostSide>,
) -> Result<(), AllocError>
    ensures { OnOk result (parts.new
        ≡ parts.old ++ flat_map ring_parts (numbered vhost (vhosts_of (side.now ∷ [])))) }
{
    if let Some(side) = side {
        parts.push(ring_part(alloc, vhost, 0, side.dev())?)?;
        parts.push(ring_part(alloc, vhost, 1, side.dev())?)?;
    }
    Ok(())
}

/// The parts of the rings of vhosts by number.
pub(crate) fn ring_parts(
    alloc: Global,
    sides: &[Option<VhostSide>],
) -> Result<Items<RingPart>, AllocError>
    requires { length sides.now ≤ 2 ^ 16 }
    ensures { IfOk result (λ parts. parts ≡ flat_map ring_parts (numbered 0 (vhosts_of sides.now))) }
{
    let mut parts = Items::new(alloc);
    for (vhost, side) in sides.iter().enumerate() {
        push_rings(alloc, &mut parts, vhost as u16, side)?;
    }
    Ok(parts)
}

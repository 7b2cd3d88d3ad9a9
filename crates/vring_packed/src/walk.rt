//! The walk along a chain.
ghost use Rattle.std.specs.Prelude.{◌≡◌, ◌<◌, ◌≤◌, [], Ok, Err, None, IfOk, OnOk, IfErr};
ghost use Rattle.guest_mem.specs.Memory.{byte_at, covers};
ghost use Rattle.tap_ground.specs.Options.{first_that_holds as first_broken};
ghost use Rattle.vring_packed.specs.Packed.{IsGoodFor};
ghost use Rattle.vring_packed.specs.Chain.{table_of, table_rules, with_segment, with_entries, with_desc};
ghost use Rattle.vring_packed.specs.Walk.{Finds};

use crate::desc::PackedDesc;
use crate::layout::PackedLayout;
use crate::read::{desc_at, entry_after};
use crate::rules::{segment_fault, table_fault};
use crate::segments::Gathered;
use guest_mem::{Memory, range_laws};
use vring_split::{RingFault, Segment};

/// A chain that was followed to its end.
#[derive(Clone, Copy)]
pub struct Found {
    /// The id, which its last descriptor in the ring has.
    pub id: u16,
    /// How many descriptors it has in the ring.
    pub count: u16,
}

/// Takes a descriptor as a segment.
fn take_segment(
    mem: &Memory,
    ring: &PackedLayout,
    desc: &PackedDesc,
    met: &mut Gathered,
) -> Result<(), RingFault>
    ensures taken { OnOk result (with_segment (covers mem.now.regions) ring.now desc.now met.old ≡ Ok met.new) }
    ensures fault { IfErr result (λ f. with_segment (covers mem.now.regions) ring.now desc.now met.old ≡ Err f) }
{
    if let Some(fault) = segment_fault(mem, ring, desc, met.count(), met.any_writable()) {
        return Err(fault);
    }
    met.push(Segment {
        addr: desc.addr,
        len: desc.len,
        write: desc.is_writable(),
    });
    Ok(())
}

/// Takes all entries of the table that a descriptor refers to.
fn take_table(
    mem: &Memory,
    ring: &PackedLayout,
    desc: &PackedDesc,
    met: &mut Gathered,
) -> Result<(), RingFault>
    requires { first_broken (table_rules (covers mem.now.regions) ring.now desc.now) ≡ None }
    ensures taken { OnOk result
        (with_entries (covers mem.now.regions) ring.now (table_of (byte_at mem.now) desc.now) met.old ≡ Ok met.new) }
    ensures fault { IfErr result (λ f.
        with_entries (covers mem.now.regions) ring.now (table_of (byte_at mem.now) desc.now) met.old ≡ Err f) }
{
    let entries = (desc.len / 16) as u16;
    for index in 0..entries {
        let entry = desc_at(mem, desc.addr, entries, index);
        take_segment(mem, ring, &entry, met)?;
    }
    Ok(())
}

/// Takes a descriptor of the ring, with the table that it may refer to.
#[tactic(auto, unfolding(crate::specs::Chain::with_desc))]
fn take_desc(
    mem: &Memory,
    ring: &PackedLayout,
    desc: &PackedDesc,
    met: &mut Gathered,
) -> Result<(), RingFault>
    ensures taken { OnOk result
        (with_desc (byte_at mem.now) (covers mem.now.regions) ring.now desc.now met.old ≡ Ok met.new) }
    ensures fault { IfErr result (λ f.
        with_desc (byte_at mem.now) (covers mem.now.regions) ring.now desc.now met.old ≡ Err f) }
{
    if !desc.is_indirect() {
        return take_segment(mem, ring, desc, met);
    }
    if let Some(fault) = table_fault(mem, ring, desc) {
        return Err(fault);
    }
    take_table(mem, ring, desc, met)
}

/// Follows the chain from an entry of the ring to its end, or to the first rule that it breaks. It looks
/// at no more descriptors of the ring than it has.
pub fn walk(
    mem: &Memory,
    ring: &PackedLayout,
    at: u16,
    met: &mut Gathered,
) -> Result<Found, RingFault>
    requires good { IsGoodFor ring.now (covers mem.now.regions) }
    requires inside { at < ring.now.num }
    requires none { met.old ≡ [] }
    ensures found { Finds (byte_at mem.now) (covers mem.now.regions) ring.now at result met.new }
    ensures few { IfOk result (λ f. f.count ≤ ring.now.num) }
{
    let mut at = at;
    for seen in 0..ring.num {
        let desc = desc_at(mem, ring.ring, ring.num, at);
        take_desc(mem, ring, &desc, met)?;
        if !desc.has_next() {
            return Ok(Found {
                id: desc.id,
                count: seen + 1,
            });
        }
        at = entry_after(ring.num, at);
    }
    Err(RingFault::TooLong)
}

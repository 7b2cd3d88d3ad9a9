//! What a publication writes into the used ring, and what it reads then.
ghost use Rattle.std.specs.Prelude.{◌≡◌, ◌+◌, ◌++◌, ◌<◌, ◌≤◌, ◌^◌, length, vec_len, vec_capacity};
ghost use Rattle.guest_mem.specs.Memory.{covers, written};
ghost use Rattle.vring_split.specs.Good.{IsGoodFor};
ghost use Rattle.vring_split.specs.Split.{used_entry_addr, used_idx_addr};
ghost use Rattle.vhost_queue.specs.Positions.{after, published_from};
ghost use Rattle.vhost_queue.specs.Publication.{entry_bytes, with_entries, with_field, wants_notice, flags_with, noticed_at, StandIn};

use crate::done::Done;
use guest_mem::{Memory, range_laws};
use vring_split::{Layout, UsedElem, need_event};

/// The available ring's flag by which a driver says that it wants no notice (VIRTIO 1.2, 2.7.6).
const NO_INTERRUPT: u16 = 1;
/// The used ring's flag by which a device says that it wants none (VIRTIO 1.2, 2.7.8).
const NO_NOTIFY: u16 = 1;

// Writes the used entry of an index.
fn write_entry(mem: &mut Memory, ring: &Layout, index: u16, chain: Done)
    requires { IsGoodFor ring.now (covers mem.old.regions) }
    ensures { mem.new ≡ written mem.old (used_entry_addr ring.now index) (entry_bytes chain) }
{
    range_laws();
    let entry = UsedElem {
        id: u32::from(chain.head),
        len: chain.len,
    };
    mem.write_in(ring.used_entry_addr(index), &entry.bytes());
}

// Writes the used entries of what is done, from an index on.
pub fn write_entries(mem: &mut Memory, ring: &Layout, used: u16, done: &[Done])
    requires { IsGoodFor ring.now (covers mem.old.regions) }
    ensures entries { mem.new ≡ with_entries ring.now used done.now mem.old }
    ensures regions { mem.new.regions ≡ mem.old.regions }
{
    let mut index = used;
    for chain in done {
        write_entry(mem, ring, index, *chain);
        index = index.wrapping_add(1);
    }
}

// Moves the used index past the entries of what is done, which stand in the ring by now.
pub fn write_index(mem: &mut Memory, ring: &Layout, used: u16, done: &[Done]) -> u16
    requires good { IsGoodFor ring.now (covers mem.old.regions) }
    requires few { length done.now < 2 ^ 16 }
    requires entries { StandIn ring.now used done.now mem.old }
    ensures index { result ≡ after used (length done.now) }
    ensures written { mem.new ≡ with_field (used_idx_addr ring.now) (after used (length done.now)) mem.old }
    ensures regions { mem.new.regions ≡ mem.old.regions }
{
    range_laws();
    let index = used.wrapping_add(done.len() as u16);
    mem.put_le16(ring.used_idx_addr(), index);
    index
}

// Whether the driver wants a notice of an index that went from `old` to `new`.
#[tactic(auto, unfolding(crate::specs::Publication::wants_notice))]
pub fn wants_notice(mem: &Memory, ring: &Layout, old: u16, new: u16) -> bool
    requires { IsGoodFor ring.now (covers mem.now.regions) }
    ensures { result ≡ wants_notice ring.now old new mem.now }
{
    range_laws();
    if ring.event {
        need_event(mem.le16_at(ring.used_event_addr()), new, old)
    } else {
        mem.le16_at(ring.avail_flags_addr()) & NO_INTERRUPT == 0
    }
}

// The used ring's flags with NO_NOTIFY set or cleared.
fn flags_with(on: bool, flags: u16) -> u16
    ensures { result ≡ flags_with on flags }
{
    if on {
        flags & !NO_NOTIFY
    } else {
        flags | NO_NOTIFY
    }
}

// Tells the driver that notices are wanted, or aren't: with event indexes from the next position on.
#[tactic(auto, unfolding(crate::specs::Publication::noticed_at))]
pub fn write_notices(mem: &mut Memory, ring: &Layout, next: u16, on: bool)
    requires { IsGoodFor ring.now (covers mem.old.regions) }
    ensures written { mem.new ≡ noticed_at ring.now next on mem.old }
    ensures regions { mem.new.regions ≡ mem.old.regions }
{
    range_laws();
    if !ring.event {
        let addr = ring.used_flags_addr();
        let flags = mem.le16_at(addr);
        mem.put_le16(addr, flags_with(on, flags));
    } else if on {
        mem.put_le16(ring.avail_event_addr(), next);
    }
}

// Appends what is done to what was published, at positions from one on. The places are reserved.
pub fn append_published(journal: &mut Vec<(u16, u16, u32)>, first: u16, done: &[Done])
    requires { vec_len journal.old + length done.now ≤ vec_capacity journal.old }
    ensures items { journal.new.items ≡ journal.old.items ++ published_from first done.now }
    ensures len { vec_len journal.new ≡ vec_len journal.old + length done.now }
    ensures capacity { vec_capacity journal.new ≡ vec_capacity journal.old }
{
    let mut position = first;
    for chain in done {
        journal.push_reserved((position, chain.head, chain.len));
        position = position.wrapping_add(1);
    }
}

//! What a post writes.
ghost use Rattle.std.specs.Prelude.{◌≡◌, ◌+◌, ◌^◌, ◌<◌, ◌≤◌, length, All, IsTrue};
ghost use Rattle.guest_mem.specs.Memory.{covers};
ghost use Rattle.vring_drive.specs.Area.{area_len, IsIn, IsLaidOut};
ghost use Rattle.vring_drive.specs.Posts.{desc_for, linked, filled, offered};

use crate::area::{SLOT_LEN, slot_at};
use guest_mem::{Memory, range_laws};
use vring_split::{Desc, Layout};

/// A descriptor's flag that another one follows (VIRTIO 1.2, 2.7.5).
const NEXT: u16 = 1;
/// A descriptor's flag that the device writes its piece (VIRTIO 1.2, 2.7.5).
const WRITE: u16 = 2;

// A descriptor of a chain, for its data slot, before those behind it.
fn desc_for(ring: &Layout, writable: bool, index: u16, len: u32, behind: &[u16]) -> Desc
    requires inside { index < ring.now.num }
    requires fits { ring.now.desc + area_len ring.now.num < 2 ^ 64 }
    ensures { result ≡ desc_for ring.now writable index len behind.now }
{
    let direction = if writable { WRITE } else { 0 };
    let (more, next) = match behind {
        [] => (0, 0),
        [next, ..] => (NEXT, *next),
    };
    Desc {
        addr: slot_at(ring, index),
        len,
        flags: direction + more,
        next,
    }
}

// Writes the descriptors of a chain.
pub fn link(mem: &mut Memory, ring: &Layout, writable: bool, chain: &[u16], lens: &[u32])
    requires area { IsIn ring.now mem.old }
    requires inside { All (λ i. i < ring.now.num) chain.now }
    requires lens { length chain.now ≤ length lens.now }
    ensures linked { mem.new ≡ linked ring.now writable chain.now lens.now mem.old }
    ensures regions { mem.new.regions ≡ mem.old.regions }
{
    range_laws();
    for i in 0..chain.len() {
        let desc = desc_for(ring, writable, chain[i], lens[i], &chain[i + 1..]);
        mem.write_in(ring.desc_addr(chain[i]), &desc.bytes());
    }
}

// Writes bytes into the data slots of a chain.
pub fn fill(mem: &mut Memory, ring: &Layout, chain: &[u16], bytes: &[u8])
    requires area { IsIn ring.now mem.old }
    requires inside { All (λ i. i < ring.now.num) chain.now }
    ensures filled { mem.new ≡ filled ring.now chain.now bytes.now mem.old }
    ensures regions { mem.new.regions ≡ mem.old.regions }
{
    range_laws();
    let mut left = bytes;
    for index in chain {
        let (piece, behind) = left.split_at(left.len().min(SLOT_LEN as usize));
        mem.write_in(slot_at(ring, *index), piece);
        left = behind;
    }
}

// Makes a head available at a place, and then moves the index behind it.
#[tactic(auto, unfolding(crate::specs::Posts::offered))]
pub fn offer(mem: &mut Memory, ring: &Layout, place: u16, head: u16)
    requires area { IsIn ring.now mem.old }
    requires laid { IsLaidOut ring.now }
    requires some { 0 < ring.now.num }
    ensures offered { mem.new ≡ offered ring.now place head mem.old }
    ensures regions { mem.new.regions ≡ mem.old.regions }
{
    range_laws();
    mem.put_le16(ring.avail_entry_addr(place), head);
    mem.put_le16(ring.avail_idx_addr(), place.wrapping_add(1));
}

//! What a post writes.
ghost use Rattle.std.specs.Prelude.{◌≡◌, ◌+◌, ◌<◌, ◌≤◌, ◌^◌, nat_lt, length, All};
ghost use Rattle.packed_drive.specs.Area.{area_len, IsIn};
ghost use Rattle.packed_drive.specs.Posts.{flags_for, desc_for, with_desc, linked, filled};

use crate::area::{SLOT_LEN, slot_at};
use guest_mem::{Memory, range_laws};
use vring_packed::{PackedDesc, Place};

/// The flags of a descriptor (VIRTIO 1.2, 2.8.13).
const NEXT: u16 = 1;

const WRITE: u16 = 2;

const AVAIL: u16 = 1 << 7;

const USED: u16 = 1 << 15;

/// A chain that is written: the ring's start and size, the chain's id, and whether the device writes it.
#[derive(Clone, Copy)]
pub struct Post {
    /// Where the ring starts.
    pub start: u64,
    /// The queue size.
    pub num: u16,
    /// The chain's id.
    pub id: u16,
    /// Whether the device writes it.
    pub writable: bool,
}

/// The flags of a descriptor that is made available.
fn flags_for(writable: bool, more: bool, wrap: bool) -> u16
    ensures { result ≡ flags_for writable more wrap }
{
    let follows = if more { NEXT } else { 0 };
    let direction = if writable { WRITE } else { 0 };
    let turn = if wrap { AVAIL } else { USED };
    follows + (direction + turn)
}

/// Writes a descriptor of a chain at a place.
pub fn write_desc(mem: &mut Memory, post: &Post, place: &Place, len: u32, more: bool)
    requires area { IsIn post.now.start post.now.num mem.old }
    requires fits { post.now.start + area_len post.now.num < 2 ^ 64 }
    requires inside { place.now.at < post.now.num }
    ensures written { mem.new ≡ with_desc post.now.start post.now.num post.now.writable post.now.id
        place.now len more mem.old }
    ensures regions { mem.new.regions ≡ mem.old.regions }
{
    range_laws();
    let desc = PackedDesc {
        addr: slot_at(post.start, post.num, place.at),
        len,
        id: post.id,
        flags: flags_for(post.writable, more, place.wrap),
    };
    mem.write_in(post.start + 16 * u64::from(place.at), &desc.bytes());
}

/// Writes descriptors of these lengths from a place on.
pub fn link(mem: &mut Memory, post: &Post, first: Place, lens: &[u32])
    requires area { IsIn post.now.start post.now.num mem.old }
    requires fits { post.now.start + area_len post.now.num < 2 ^ 64 }
    requires some { 1 ≤ post.now.num }
    requires most { post.now.num ≤ 32768 }
    requires inside { first.at < post.now.num }
    ensures linked { mem.new ≡ linked post.now.start post.now.num post.now.writable post.now.id first lens.now mem.old }
    ensures regions { mem.new.regions ≡ mem.old.regions }
{
    let mut place = first;
    for i in 0..lens.len() {
        write_desc(mem, post, &place, lens[i], i + 1 < lens.len());
        place = place.after(post.num, 1);
    }
}

/// Writes bytes into the data slots of the places from one on, as many as these lengths are.
pub fn fill(mem: &mut Memory, start: u64, num: u16, first: Place, lens: &[u32], bytes: &[u8])
    requires area { IsIn start num mem.old }
    requires fits { start + area_len num < 2 ^ 64 }
    requires some { 1 ≤ num }
    requires most { num ≤ 32768 }
    requires inside { first.at < num }
    requires lens { All (λ n. n ≤ 2048) lens.now }
    ensures filled { mem.new ≡ filled start num first lens.now bytes.now mem.old }
    ensures regions { mem.new.regions ≡ mem.old.regions }
{
    range_laws();
    let mut place = first;
    let mut left = bytes;
    for len in lens {
        let (piece, behind) = left.split_at(left.len().min(*len as usize));
        mem.write_in(slot_at(start, num, place.at), piece);
        left = behind;
        place = place.after(num, 1);
    }
}

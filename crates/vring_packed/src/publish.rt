//! What a publication writes into the ring.
ghost use Rattle.std.specs.Prelude.{◌≡◌, ◌<◌, ◌≤◌, ◌^◌, All, length};
ghost use Rattle.guest_mem.specs.Memory.{covers};
ghost use Rattle.vring_packed.specs.Packed.{IsGoodFor};
ghost use Rattle.vring_packed.specs.Publication.{used_flags, used_bytes, with_used, published_at, place_behind, passed};

use crate::done::PackedDone;
use crate::layout::PackedLayout;
use crate::place::Place;
use byteorder::{ByteOrder, LittleEndian};
use guest_mem::{Memory, range_laws};

/// The flags of a descriptor that the device wrote to.
const WRITE: u16 = 2;
/// AVAIL and USED together.
const AVAIL_USED: u16 = 1 << 7 | 1 << 15;

/// The flags of a used descriptor.
fn used_flags(wrap: bool, len: u32) -> u16
    ensures { result ≡ used_flags wrap len }
{
    let turn = if wrap { AVAIL_USED } else { 0 };
    let write = if len == 0 { 0 } else { WRITE };
    turn | write
}

/// What a used descriptor has behind its address.
fn used_bytes(wrap: bool, chain: &PackedDone) -> [u8; 8]
    ensures { result ≡ used_bytes wrap chain.now }
{
    let PackedDone { id, len, .. } = *chain;
    let mut bytes = [0u8; 8];
    LittleEndian::write_u32(&mut bytes[..], len);
    LittleEndian::write_u16(&mut bytes[4..], id);
    LittleEndian::write_u16(&mut bytes[6..], used_flags(wrap, len));
    bytes
}

/// Writes the used descriptor of a chain at a place.
#[tactic(auto, unfolding(crate::specs::Publication::with_used))]
fn write_used(mem: &mut Memory, ring: &PackedLayout, place: &Place, chain: &PackedDone)
    requires good { IsGoodFor ring.now (covers mem.old.regions) }
    requires inside { place.now.at < ring.now.num }
    ensures written { mem.new ≡ with_used ring.now place.now chain.now mem.old }
    ensures regions { mem.new.regions ≡ mem.old.regions }
{
    range_laws();
    let addr = ring.ring + 16 * u64::from(place.at) + 8;
    mem.write_in(addr, &used_bytes(place.wrap, chain));
}

/// Publishes chains from a place on, and gives the place behind them.
pub fn publish_at(mem: &mut Memory, ring: &PackedLayout, used: Place, done: &[PackedDone]) -> Place
    requires good { IsGoodFor ring.now (covers mem.old.regions) }
    requires inside { used.at < ring.now.num }
    requires counts { All (λ d. d.count ≤ ring.now.num) done.now }
    ensures memory { mem.new ≡ published_at ring.now used done.now mem.old }
    ensures regions { mem.new.regions ≡ mem.old.regions }
    ensures place { result ≡ place_behind ring.now.num used done.now }
    ensures inside { result.at < ring.now.num }
{
    let mut place = used;
    for chain in done {
        write_used(mem, ring, &place, chain);
        place = place.after(ring.num, chain.count);
    }
    place
}

/// How many places a publication of these chains passes.
pub fn passed(done: &[PackedDone]) -> u64
    requires { length done.now < 2 ^ 32 }
    ensures { result ≡ passed done.now }
{
    let mut total = 0u64;
    for chain in done {
        let PackedDone { count, .. } = *chain;
        total += u64::from(count);
    }
    total
}

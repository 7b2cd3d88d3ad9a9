//! The fetch, and the walk along a path.
ghost use Rattle.std.specs.Prelude.{◌≡◌, ◌<◌, ◌≤◌, length, take, IfOk, IfErr};
ghost use Rattle.guest_mem.specs.Memory.{byte_at, covers};
ghost use Rattle.vring_split.specs.Good.{IsGoodFor};
ghost use Rattle.vring_walk.specs.Chain.{segment_of, IsFirstFault};
ghost use Rattle.vring_walk.specs.Fetch.{avail_idx, avail_head, Fetches, TakesChain};
ghost use Rattle.vring_walk.specs.Fetched.{AppendsFetched};

use crate::near::covers_near;
use crate::read;
use crate::rules::{Met, broken_rule};
use crate::segments::{MAX_SEGMENTS, Segments};
use crate::table::Table;
use guest_mem::{Memory, Region, byte_laws};
use vring_split::{Desc, Layout, RingFault, Segment};

/// How many entries an indirect table has at most.
const MAX_ENTRIES: u32 = 1024;

/// What a fetch found.
#[derive(Clone, Copy, Debug, PartialEq, Eq)]
pub enum Fetched {
    /// A chain, whose segments were appended.
    Chain {
        /// The number of its first descriptor.
        head: u16,
    },
    /// No new chain.
    Nothing,
    /// A rule that the ring breaks, the first one.
    Bad(RingFault),
    /// A good chain with more segments than places left.
    Crowded,
}

/// The segment that a descriptor is.
#[inline]
fn segment_of(desc: &Desc) -> Segment
    ensures { result ≡ segment_of desc.now }
{
    Segment {
        addr: desc.addr,
        len: desc.len,
        write: desc.is_writable(),
    }
}

/// Follows the path from a head: how many segments its chain has, of which the room takes those that
/// fit, or the first rule that the path breaks. It looks at no more than the queue size and 1,025
/// descriptors. Each table is found once, and `near` is the stretch in which the last range lay.
fn walk(mem: &Memory, ring: &Layout, head: u16, room: &mut Segments) -> Result<u16, RingFault>
    requires good { IsGoodFor ring.now (covers mem.now.regions) }
    requires inside { head < ring.now.num }
    requires few { length room.old ≤ 1024 }
    ensures chain { IfOk result
        (TakesChain (byte_at mem.now) (covers mem.now.regions) ring.now head room.old room.new) }
    ensures fault { IfErr result (IsFirstFault (byte_at mem.now) (covers mem.now.regions) ring.now head) }
    ensures kept { take (length room.old) room.new ≡ room.old }
{
    byte_laws();
    let mut table = Table::own(ring);
    let mut bytes = read::table_bytes(mem, &table);
    let mut near = Region { addr: 0, len: 0 };
    let mut met = Met::nothing();
    let mut index = head;
    for _ in 0..u32::from(ring.num) + MAX_ENTRIES + 1 {
        let desc = read::entry(bytes, index);
        let mapped = covers_near(mem, &mut near, desc.addr, u64::from(desc.len));
        if let Some(fault) = broken_rule(ring, &table, &desc, &met, mapped) {
            return Err(fault);
        }
        if desc.is_indirect() {
            table = Table::of(&desc);
            bytes = read::table_bytes(mem, &table);
            index = 0;
            met.seen = 0;
            continue;
        }
        let segment = segment_of(&desc);
        room.add(segment);
        met = met.with(segment.write);
        if !desc.has_next() {
            return Ok(met.count);
        }
        index = desc.next;
    }
    unreachable!()
}

/// Takes the chain that is available at a position, and appends its segments to the room.
///
/// A position is the index that the driver had before it made the chain available. The answer is
/// `Chain` exactly where a good chain is there and fits, `Nothing` where the available index is the
/// position, `Bad` with the first rule that the ring breaks, and `Crowded` where the chain is good
/// and has more segments than the room has places left. The last three leave the room unchanged.
pub fn fetch(mem: &Memory, ring: &Layout, last: u16, room: &mut Segments) -> Fetched
    requires { IsGoodFor ring.now (covers mem.now.regions) }
    ensures answer { Fetches (byte_at mem.now) (covers mem.now.regions) ring.now last room.old result room.new }
    ensures as_function { AppendsFetched (byte_at mem.now) (covers mem.now.regions)
        ring.now last room.old result room.new }
{
    take_available(mem, ring, last, room)
}

/// Takes the chain that is available at a position, as `fetch` does.
fn take_available(mem: &Memory, ring: &Layout, last: u16, room: &mut Segments) -> Fetched
    requires { IsGoodFor ring.now (covers mem.now.regions) }
    ensures answer { Fetches (byte_at mem.now) (covers mem.now.regions) ring.now last room.old result room.new }
    ensures few { length room.old ≤ 1024 }
{
    let kept = room.list().len();
    let (index, head) = available(mem, ring, last);
    if index == last {
        return Fetched::Nothing;
    }
    if index.wrapping_sub(last) > ring.num {
        return Fetched::Bad(RingFault::AvailJump);
    }
    if head >= ring.num {
        return Fetched::Bad(RingFault::HeadRange);
    }
    match walk(mem, ring, head, room) {
        Ok(count) => {
            if kept + usize::from(count) <= MAX_SEGMENTS {
                Fetched::Chain { head }
            } else {
                room.truncate(kept);
                Fetched::Crowded
            }
        }
        Err(fault) => {
            room.truncate(kept);
            Fetched::Bad(fault)
        }
    }
}

/// The available index, and the head in the available ring's entry of a position.
#[inline]
#[tactic(auto, unfolding(crate::specs::Fetch::avail_idx, crate::specs::Fetch::avail_head))]
fn available(mem: &Memory, ring: &Layout, position: u16) -> (u16, u16)
    requires { IsGoodFor ring.now (covers mem.now.regions) }
    ensures index { result.0 ≡ avail_idx (byte_at mem.now) ring.now }
    ensures head { result.1 ≡ avail_head (byte_at mem.now) ring.now position }
{
    byte_laws();
    let bytes = read::avail_bytes(mem, ring);
    let index = read::le16_in(bytes, 2);
    let head = read::le16_in(bytes, 4 + 2 * usize::from(position & (ring.num - 1)));
    (index, head)
}

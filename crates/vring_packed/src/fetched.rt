//! The fetch.
ghost use Rattle.std.specs.Prelude.{◌≡◌, ◌<◌, ◌≤◌, ◌-◌, ◌++◌, [], length, IfOk};
ghost use Rattle.guest_mem.specs.Memory.{byte_at, covers};
ghost use Rattle.vring_packed.specs.Packed.{IsGoodFor};
ghost use Rattle.vring_packed.specs.Fetched.{AppendsFetched, AppendsChain, FitsRing};

use crate::layout::PackedLayout;
use crate::place::Place;
use crate::read::desc_at;
use crate::segments::{Gathered, MAX_SEGMENTS};
use crate::walk::walk;
use guest_mem::Memory;
use std::alloc::{AllocError, Global};
use std::marker::Model;
use vring_split::{RingFault, Segment};

/// What a fetch found.
#[derive(Clone, Copy, Debug, PartialEq, Eq)]
pub enum PackedFetched {
    /// A chain, whose segments were appended.
    Chain {
        /// The id, which its last descriptor in the ring has.
        id: u16,
        /// How many descriptors it has in the ring.
        count: u16,
    },
    /// No new chain.
    Nothing,
    /// A rule that the ring breaks, the first one.
    Bad(RingFault),
    /// A good chain with more segments than places left.
    Crowded,
}

/// A room for the segments of chains, with 1,024 places.
#[derive(Debug, Drop)]
pub struct Segments {
    items: Vec<Segment>,
    followed: Gathered,
}

impl Model for Segments {
    ghost use Rattle.std.specs.Prelude.{List, vec_len, vec_capacity, ◌≤◌};
    ghost use Rattle.vring_split.specs.declared.segment.Segment.{Segment as OneSegment};

    ghost Value = { List OneSegment };

    ghost view = { λ s. s.items.items };

    ghost invariant = { λ s. (vec_len s.items ≤ 1024) × (1024 ≤ vec_capacity s.items) };
}

impl Segments {
    /// An empty room, with memory for all its places.
    pub fn new(alloc: Global) -> Result<Segments, AllocError>
        ensures { IfOk result (λ s. s ≡ []) }
    {
        Ok(Segments {
            items: Vec::with_capacity(alloc, MAX_SEGMENTS)?,
            followed: Gathered::new(alloc)?,
        })
    }

    /// Frees all places.
    pub fn clear(&mut self)
        ensures { self.new ≡ [] }
    {
        self.items.clear();
    }

    /// The segments, in the order in which they came.
    pub fn list(&self) -> &[Segment]
        ensures list { result.now ≡ self.now }
        ensures few { length self.now ≤ 1024 }
    {
        self.items.as_slice()
    }

    /// Follows the chain from an entry, and appends its segments if they fit.
    fn take_chain(&mut self, mem: &Memory, ring: &PackedLayout, at: u16) -> PackedFetched
        requires good { IsGoodFor ring.now (covers mem.now.regions) }
        requires inside { at < ring.now.num }
        ensures answer { AppendsChain (byte_at mem.now) (covers mem.now.regions) ring.now at self.old result self.new }
        ensures few { FitsRing ring.now result }
    {
        self.followed.clear();
        match walk(mem, ring, at, &mut self.followed) {
            Err(fault) => PackedFetched::Bad(fault),
            Ok(found) => {
                if self.followed.count() > MAX_SEGMENTS - self.items.len() {
                    return PackedFetched::Crowded;
                }
                match self.items.extend_from_slice(self.followed.list()) {
                    Ok(()) => PackedFetched::Chain {
                        id: found.id,
                        count: found.count,
                    },
                    Err(_) => unreachable!(),
                }
            }
        }
    }
}

/// Takes the chain that is available at a place, and appends its segments to the room.
///
/// The answer is `Chain` exactly where a good chain is there and fits, `Nothing` where the descriptor at
/// the place isn't available, `Bad` with the first rule that the ring breaks, and `Crowded` where the
/// chain is good and has more segments than the room has places left. The last three leave the room
/// unchanged.
#[tactic(auto, unfolding(crate::specs::Fetched::fetched))]
pub fn fetch(mem: &Memory, ring: &PackedLayout, place: Place, room: &mut Segments) -> PackedFetched
    requires good { IsGoodFor ring.now (covers mem.now.regions) }
    requires inside { place.at < ring.now.num }
    ensures answer { AppendsFetched (byte_at mem.now) (covers mem.now.regions) ring.now place room.old result room.new }
    ensures few { FitsRing ring.now result }
{
    if desc_at(mem, ring.ring, ring.num, place.at).is_available(place.wrap) {
        room.take_chain(mem, ring, place.at)
    } else {
        PackedFetched::Nothing
    }
}

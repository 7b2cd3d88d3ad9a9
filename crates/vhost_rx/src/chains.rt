//! The chains that are gathered for one frame.
ghost use Rattle.std.specs.Prelude.{◌≡◌, ◌≢◌, ◌+◌, ◌*◌, ◌-◌, ◌^◌, ◌<◌, ◌≤◌, ◌↔◌, ◌++◌, [], length, take, drop, All, IsTrue, IfOk, None};
ghost use Rattle.guest_mem.specs.Memory.{byte_at, covers};
ghost use Rattle.vring_split.specs.Good.{IsGoodFor};
ghost use Rattle.vring_walk.specs.Spread.{laid};
ghost use Rattle.vhost_queue.specs.Queue.{room_of};
ghost use Rattle.vring_turns.specs.Ring.{LieIn, bytes_in, room_in, segments_of, with_all_done, found_behind, with_found};
ghost use Rattle.vring_turns.specs.ReceiveImage.{shares};
ghost use Rattle.vhost_rx.specs.Kept.{kept_shares};

use guest_mem::Memory;
use std::alloc::{AllocError, Global};
use std::marker::Model;
use vhost_queue::Vq;
use vring_split::Layout;
use vring_turns::{MOST_QUOTA, lie_in};
use vring_walk::{Fetched, Segment, Segments, chains_are_usable, fetch, scatter};

/// A chain that is gathered: its head, and how many segments and bytes it has.
#[derive(Clone, Copy, Debug, PartialEq, Eq)]
pub struct Chain {
    pub head: u16,
    pub segments: u16,
    pub bytes: u64,
}

/// The chains that are gathered, in their order.
#[derive(Debug, Drop)]
pub struct Chains {
    kept: Vec<Chain>,
    // The segments of all of them, one after the other.
    room: Segments,
    had: u64,
}

impl Model for Chains {
    ghost use Rattle.std.specs.Prelude.{List};
    ghost use Rattle.vring_turns.specs.Ring.{Gathered};

    ghost Value = { List Gathered };

    ghost use Rattle.vhost_rx.specs.Kept.{chains_of, HasChains};

    ghost view = { chains_of };

    ghost invariant = { HasChains };
}

// How many bytes segments have.
fn bytes_of(segments: &[Segment]) -> u64
    requires { length segments.now ≤ 1024 }
    ensures bytes { result ≡ bytes_in segments.now }
    ensures small { result ≤ 2 ^ 32 * length segments.now }
{
    let mut bytes = 0u64;
    for segment in segments {
        bytes += u64::from(segment.len);
    }
    bytes
}

// The chain of a head, whose segments are those behind the first ones.
fn chain_behind(head: u16, segments: &[Segment], before: usize) -> Chain
    requires within { before ≤ length segments.now }
    requires few { length segments.now ≤ 1024 }
    ensures head { result.head ≡ head }
    ensures segments { result.segments ≡ length (drop before segments.now) }
    ensures bytes { result.bytes ≡ bytes_in (drop before segments.now) }
    ensures small { result.bytes ≤ 2 ^ 32 * length (drop before segments.now) }
{
    let new = &segments[before..];
    Chain {
        head,
        segments: new.len() as u16,
        bytes: bytes_of(new),
    }
}

impl Chains {
    /// None, with memory for all that one frame may go into.
    pub fn new(alloc: Global) -> Result<Chains, AllocError>
        ensures { IfOk result (λ c. c ≡ []) }
    {
        Ok(Chains {
            kept: Vec::with_capacity(alloc, MOST_QUOTA)?,
            room: Segments::new(alloc)?,
            had: 0,
        })
    }

    /// How many there are.
    pub fn len(&self) -> usize
        ensures { result ≡ length self.now }
    {
        self.kept.len()
    }

    /// How many bytes they hold.
    pub fn had(&self) -> u64
        ensures { result ≡ room_in self.now }
    {
        self.had
    }

    /// Gives all of them up.
    pub fn clear(&mut self)
        ensures { self.new ≡ [] }
    {
        self.kept.clear();
        self.room.clear();
        self.had = 0;
    }

    /// Takes the chain that is available at a position, as `fetch` does.
    pub fn take(&mut self, mem: &Memory, ring: &Layout, position: u16) -> Fetched
        requires good { IsGoodFor ring.now (covers mem.now.regions) }
        requires few { length self.old < 1024 }
        requires lies { LieIn (covers mem.now.regions) self.old }
        ensures found { result ≡ (found_behind self.old mem.now ring.now position).0 }
        ensures chains { self.new ≡ with_found result (found_behind self.old mem.now ring.now position).1 self.old }
        ensures lies { LieIn (covers mem.now.regions) self.new }
    {
        chains_are_usable();
        let before = self.room.list().len();
        let found = fetch(mem, ring, position, &mut self.room);
        if let Fetched::Chain { head } = found {
            let chain = chain_behind(head, self.room.list(), before);
            self.had += chain.bytes;
            self.kept.push_reserved(chain);
        }
        found
    }

    /// Lays the bytes of two slices, one behind the other, over the chains.
    pub fn lay(&self, mem: &mut Memory, front: &[u8], behind: &[u8])
        requires lies { LieIn (covers mem.old.regions) self.now }
        requires short { length front.now + length behind.now ≤ 4294967295 }
        ensures { mem.new ≡ record mem.old {
          bytes = laid mem.old.bytes (segments_of self.now) (front.now ++ behind.now);
        } }
    {
        scatter(mem, self.room.list(), front, behind);
    }

    /// All of them are done, with the bytes that each got of so many.
    pub fn finish(&mut self, vq: &mut Vq, len: u32)
        requires gathered { vq.old.queue.positions.gathered ≡ length self.old }
        requires room { length self.old ≤ room_of vq.old }
        ensures queue { vq.new ≡ record vq.old {
          queue = record vq.old.queue {
            positions = with_all_done (shares self.old len) vq.old.queue.positions;
          };
        } }
        ensures chains { self.new ≡ [] }
    {
        finish_all(vq, &self.kept, len);
        self.clear();
    }

    /// Whether their segments lie in a memory.
    pub fn lie_in(&self, mem: &Memory) -> bool
        ensures { IsTrue result ↔ LieIn (covers mem.now.regions) self.now }
    {
        lie_in(mem, self.room.list())
    }
}

// Chains are done, with the bytes that each gets of so many.
fn finish_all(vq: &mut Vq, kept: &[Chain], len: u32)
    requires gathered { vq.old.queue.positions.gathered ≡ length kept.now }
    requires room { length kept.now ≤ room_of vq.old }
    ensures { vq.new ≡ record vq.old {
      queue = record vq.old.queue {
        positions = with_all_done (kept_shares kept.now len) vq.old.queue.positions;
      };
    } }
{
    let mut left = u64::from(len);
    for chain in kept {
        let got = chain.bytes.min(left);
        vq.done(chain.head, got as u32);
        left -= got;
    }
}

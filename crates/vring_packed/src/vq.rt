//! What a device keeps of a packed ring.
ghost use Rattle.std.specs.Prelude.{◌≡◌, ◌+◌, ◌-◌, ◌<◌, ◌≤◌, [], slice_get, IsSome, IfOk, OnOk, OnErr, length};
ghost use Rattle.guest_mem.specs.Memory.{byte_at, covers};
ghost use Rattle.vhost_queue.specs.Positions.{all_published};
ghost use Rattle.vhost_queue.specs.Queue.{most_gathered, room_in, turn_places};
ghost use Rattle.vring_packed.specs.Packed.{IsGoodFor};
ghost use Rattle.vring_packed.specs.Fetched.{AppendsFetched};
ghost use Rattle.vring_packed.specs.Publication.{published_at, passed, wants_notice, noticed_at};
ghost use Rattle.vring_packed.specs.Queue.{first_queue, lists_of, chain_of, with_fetched, with_served, with_rewound, with_finished, with_published, IsEarliest};

use crate::chain::PackedChain;
use crate::done::PackedDone;
use crate::fetched::{PackedFetched, Segments, fetch};
use crate::journal::append_published;
use crate::layout::PackedLayout;
use crate::notices::{set_notices, wants_notice};
use crate::place::Place;
use crate::publish::{passed, publish_at};
use guest_mem::Memory;
use std::alloc::{AllocError, Global};
use std::collections::VecDeque;
use std::marker::Model;
use vhost_queue::Once;

/// How many chains can be served and not done.
const MOST_GATHERED: usize = 1024;
/// How many chains can be done and not published.
const MOST_DONE: usize = 1087;
/// How many places for published chains a turn reserves.
const TURN_PLACES: usize = 2047;

/// What a device keeps of a packed ring.
#[derive(Debug, Drop)]
pub struct PackedVq {
    layout: PackedLayout,
    next: Place,
    position: u16,
    fetched: Option<PackedChain>,
    served: VecDeque<PackedChain>,
    done: Vec<PackedDone>,
    used: Place,
    journal: Vec<(u16, u16, u32)>,
    reserved: usize,
}

impl Model for PackedVq {
    ghost use Rattle.vring_packed.specs.Queue.{PackedQueue};

    ghost Value = { PackedQueue };

    ghost use Rattle.vring_packed.specs.Kept.{queue_of, IsKept};

    ghost view = { queue_of };

    ghost invariant = { IsKept };
}

/// The chain that a fetch at a place found.
fn chain_of(place: Place, answer: &PackedFetched) -> Option<PackedChain>
    ensures { result ≡ chain_of place answer.now }
{
    match *answer {
        PackedFetched::Chain { id, count } => Some(PackedChain { place, id, count }),
        PackedFetched::Nothing => None,
        PackedFetched::Bad(_) => None,
        PackedFetched::Crowded => None,
    }
}

impl PackedVq {
    /// A queue that begins at the first place, with nothing served.
    pub fn new(alloc: Global, layout: PackedLayout) -> Result<PackedVq, AllocError>
        requires some { 1 ≤ layout.num }
        requires most { layout.num ≤ 32768 }
        ensures { IfOk result (λ v. v ≡ first_queue layout) }
    {
        Ok(PackedVq {
            layout,
            next: Place::first(),
            position: 0,
            fetched: None,
            served: VecDeque::with_capacity(alloc, MOST_GATHERED)?,
            done: Vec::with_capacity(alloc, MOST_DONE)?,
            used: Place::first(),
            journal: Vec::new(alloc),
            reserved: 0,
        })
    }

    /// Where the ring lies, and how it is used.
    pub fn layout(&self) -> PackedLayout
        ensures { result ≡ self.now.layout }
    {
        self.layout
    }

    /// The position of the next chain.
    pub fn position(&self) -> u16
        ensures { result ≡ self.now.position }
    {
        self.position
    }

    /// How many chains were served and aren't done.
    pub fn gathered(&self) -> usize
        ensures gathered { result ≡ length self.now.served }
        ensures few { result ≤ most_gathered }
    {
        self.served.len()
    }

    /// How many more chains can be done before the next publication.
    pub fn room(&self) -> usize
        ensures { result ≡ room_in (lists_of self.now) self.now.reserved }
    {
        self.reserved.min(MOST_DONE) - self.done.len()
    }

    /// The chain that was fetched and may be served now.
    pub fn fetched(&self) -> Option<PackedChain>
        ensures { result ≡ self.now.fetched }
    {
        self.fetched
    }

    /// The earliest of the chains that were served and aren't done.
    pub fn earliest(&self) -> Option<PackedChain>
        ensures { result ≡ slice_get self.now.served 0 }
    {
        self.served.front().copied()
    }

    /// Reserves the places for all chains that a turn can publish.
    pub fn ready_turn(&mut self) -> Result<(), AllocError>
        ensures ok { OnOk result (self.new ≡ record self.old { reserved = turn_places }) }
        ensures err { OnErr result (self.new ≡ self.old) }
    {
        self.journal.reserve(TURN_PLACES)?;
        self.reserved = TURN_PLACES;
        Ok(())
    }

    /// Takes the chain that is available at the next place, and appends its segments to the room, as
    /// the free `fetch` does. A chain that was found may be served then.
    pub fn fetch(&mut self, mem: &Memory, room: &mut Segments) -> PackedFetched
        requires { IsGoodFor self.old.layout (covers mem.now.regions) }
        ensures answer { AppendsFetched (byte_at mem.now) (covers mem.now.regions)
            self.old.layout self.old.next room.old result room.new }
        ensures queue { self.new ≡ with_fetched result self.old }
    {
        let answer = fetch(mem, &self.layout, self.next, room);
        self.fetched = chain_of(self.next, &answer);
        answer
    }

    /// The chain that was fetched last was served.
    pub fn served(&mut self)
        requires few { length self.old.served < most_gathered }
        requires now { IsSome self.old.fetched }
        ensures { self.new ≡ with_served self.old.fetched self.old }
    {
        if let Some(chain) = self.fetched.take() {
            self.next = self.next.after(self.layout.num, chain.count);
            self.position = self.position.wrapping_add(1);
            self.served.push_back_reserved(chain);
        }
    }

    /// So many chains, the latest ones served, stand at their places again.
    pub fn rewind(&mut self, count: u16)
        requires { count ≤ length self.old.served }
        ensures { self.new ≡ with_rewound count self.old }
    {
        let kept = self.served.len() - usize::from(count);
        if let Some(chain) = self.served.get(kept) {
            self.next = chain.place;
        }
        self.served.truncate(kept);
        self.position = self.position.wrapping_sub(count);
        self.fetched = None;
    }

    /// The earliest of the chains that were served, which has this id, is done.
    pub fn done(&mut self, head: u16, len: u32)
        requires earliest { IsEarliest self.old.served head }
        requires room { 0 < room_in (lists_of self.old) self.old.reserved }
        ensures { self.new ≡ with_finished self.old.served len self.old }
    {
        if let Some(chain) = self.served.pop_front() {
            self.done.push_reserved(PackedDone {
                id: head,
                count: chain.count,
                len,
            });
        }
    }

    /// Publishes what is done, and tells whether the driver wants a notice.
    pub fn publish(&mut self, mem: &mut Memory) -> bool
        requires { IsGoodFor self.old.layout (covers mem.old.regions) }
        ensures queue { self.new ≡ with_published self.old }
        ensures memory { mem.new ≡ published_at self.old.layout self.old.used self.old.done mem.old }
        ensures regions { mem.new.regions ≡ mem.old.regions }
        ensures notice { result ≡ wants_notice self.old.layout self.old.used (passed self.old.done) mem.new }
    {
        let from = self.used;
        let count = passed(&self.done);
        self.used = publish_at(mem, &self.layout, from, &self.done);
        self.move_done();
        wants_notice(mem, &self.layout, from, count)
    }

    // Moves what is done to the end of what was published.
    fn move_done(&mut self)
        ensures { self.new
            ≡ record self.old {
              done = [];
              journal = (all_published (lists_of self.old)).journal;
              reserved = self.old.reserved - length self.old.done;
            } }
    {
        let unpublished = self.served.len() as u16 + self.done.len() as u16;
        append_published(
            &mut self.journal,
            self.position.wrapping_sub(unpublished),
            &self.done,
        );
        self.reserved -= self.done.len();
        self.done.clear();
    }

    /// Tells the driver that notices are wanted from now on, or aren't.
    pub fn notices(&mut self, mem: &mut Memory, on: bool)
        requires { IsGoodFor self.old.layout (covers mem.old.regions) }
        ensures memory { mem.new ≡ noticed_at self.old.layout on mem.old }
        ensures regions { mem.new.regions ≡ mem.old.regions }
        ensures queue { self.new ≡ self.old }
    {
        set_notices(mem, &self.layout, on);
    }

    /// Position, id and length of each chain that was published.
    pub fn journal(&self) -> &[(u16, u16, u32)]
        ensures { result.now ≡ self.now.journal }
    {
        self.journal.as_slice()
    }
}

impl Once for PackedVq {
    ghost use Rattle.std.specs.Prelude.{ℕ, List, ◌∷◌, ◌++◌, take};
    ghost use Rattle.guest_mem.specs.Memory.{Contents};
    ghost use Rattle.vhost_queue.specs.Positions.{served as served_of, rewound, with_done};
    ghost use Rattle.vring_packed.specs.Packed.{IsGoodFor as Good};
    ghost use Rattle.vring_packed.specs.Publication.{wants_notice as wants};
    ghost use Rattle.vring_packed.specs.Heads.{IsNext, ids_of, first_is_earliest};

    ghost lists = { λ v. lists_of v };

    ghost reserved = { λ v. v.reserved };

    ghost is_good = { λ v m. Good v.layout (covers m.regions) };

    ghost may_serve = { λ v. IsSome v.fetched };

    ghost may_finish = { λ v head. IsEarliest v.served head };

    ghost is_next = { λ v head. IsNext v.fetched head };

    ghost are_served = { λ v heads. heads ≡ ids_of v.served };

    ghost published = { λ v m. published_at v.layout v.used v.done m };

    ghost wants_notice = { λ v m. wants v.layout v.used (passed v.done) m };

    ghost first_may_finish = { λ v head heads is. first_is_earliest v.served head heads is };

    fn position(&self) -> u16 {
        PackedVq::position(self)
    }

    fn served(&mut self)
        requires few { length self.old.served < most_gathered }
        requires now { IsSome self.old.fetched }
        ensures queue { self.new ≡ with_served self.old.fetched self.old }
        ensures lists { lists_of self.new ≡ served_of (lists_of self.old) }
        ensures reserved { self.new.reserved ≡ self.old.reserved }
        ensures heads { (head : ℕ) (heads : List ℕ) → IsNext self.old.fetched head → heads ≡ ids_of self.old.served
            → heads ++ head ∷ [] ≡ ids_of self.new.served }
        ensures good { (m : Contents) → Good self.old.layout (covers m.regions)
            → Good self.new.layout (covers m.regions) }
    {
        PackedVq::served(self);
    }

    fn rewind(&mut self, count: u16)
        requires { count ≤ length self.old.served }
        ensures queue { self.new ≡ with_rewound count self.old }
        ensures lists { lists_of self.new ≡ rewound count (lists_of self.old) }
        ensures reserved { self.new.reserved ≡ self.old.reserved }
        ensures heads { (heads : List ℕ) → heads ≡ ids_of self.old.served
            → take (length heads - count) heads ≡ ids_of self.new.served }
        ensures good { (m : Contents) → Good self.old.layout (covers m.regions)
            → Good self.new.layout (covers m.regions) }
    {
        PackedVq::rewind(self, count);
    }

    fn done(&mut self, head: u16, len: u32)
        requires earliest { IsEarliest self.old.served head }
        requires room { 0 < room_in (lists_of self.old) self.old.reserved }
        ensures queue { self.new ≡ with_finished self.old.served len self.old }
        ensures lists { lists_of self.new ≡ with_done head len (lists_of self.old) }
        ensures reserved { self.new.reserved ≡ self.old.reserved }
        ensures heads { (heads : List ℕ) → head ∷ heads ≡ ids_of self.old.served → heads ≡ ids_of self.new.served }
        ensures good { (m : Contents) → Good self.old.layout (covers m.regions)
            → Good self.new.layout (covers m.regions) }
    {
        PackedVq::done(self, head, len);
    }

    fn publish(&mut self, mem: &mut Memory) -> bool
        requires { Good self.old.layout (covers mem.old.regions) }
        ensures queue { self.new ≡ with_published self.old }
        ensures lists { lists_of self.new ≡ all_published (lists_of self.old) }
        ensures reserved { self.new.reserved ≡ self.old.reserved - length (lists_of self.old).done }
        ensures heads { (heads : List ℕ) → heads ≡ ids_of self.old.served → heads ≡ ids_of self.new.served }
        ensures memory { mem.new ≡ published_at self.old.layout self.old.used self.old.done mem.old }
        ensures regions { mem.new.regions ≡ mem.old.regions }
        ensures notice { result ≡ wants self.old.layout self.old.used (passed self.old.done) mem.new }
        ensures good { Good self.new.layout (covers mem.new.regions) }
    {
        PackedVq::publish(self, mem)
    }

    fn journal(&self) -> &[(u16, u16, u32)] {
        PackedVq::journal(self)
    }
}

//! What a device keeps of a split ring.
ghost use Rattle.std.specs.Prelude.{◌≡◌, ◌+◌, ◌-◌, ◌<◌, ◌≤◌, ◌↔◌, IsTrue, IfOk, OnOk, OnErr, Some, length};
ghost use Rattle.guest_mem.specs.Memory.{covers};
ghost use Rattle.vring_split.specs.Good.{IsGoodFor};
ghost use Rattle.vhost_queue.specs.Positions.{IsIdle, served, rewound, with_done, rebased, all_published};
ghost use Rattle.vhost_queue.specs.Queue.{IsGood, IsQueueSize, room_of, first_queue, most_gathered, turn_places};
ghost use Rattle.vhost_queue.specs.Publication.{started, published_in, with_published, next_used, wants_notice, noticed_in};

use crate::done::Done;
use crate::once::Once;
use crate::publish::{append_published, wants_notice, write_entries, write_index, write_notices};
use guest_mem::{Memory, range_laws};
use std::alloc::{AllocError, Global};
use std::marker::Model;
use vring_split::{Layout, RingFault};

/// How many chains can be done and not published.
const MOST_DONE: usize = 1087;
/// How many places for published chains a turn reserves.
const TURN_PLACES: usize = 2047;

/// What a device keeps of a split ring.
#[derive(Debug, Drop)]
pub struct Vq {
    layout: Layout,
    next: u16,
    used: u16,
    gathered: u16,
    done: Vec<Done>,
    journal: Vec<(u16, u16, u32)>,
    reserved: usize,
    stopped: Option<RingFault>,
}

impl Model for Vq {
    ghost use Rattle.vhost_queue.specs.Queue.{Reserved};

    ghost Value = { Reserved };

    ghost use Rattle.vhost_queue.specs.Kept.{reserved_of, HasRoom};

    ghost view = { reserved_of };

    ghost invariant = { HasRoom };
}

impl Vq {
    /// A queue with one entry, every part at 0, and nothing served.
    pub fn new(alloc: Global, rx: bool) -> Result<Vq, AllocError>
        ensures { IfOk result (λ v. v ≡ record { queue = first_queue rx; reserved = 0 }) }
    {
        Ok(Vq {
            layout: Layout {
                num: 1,
                desc: 0,
                avail: 0,
                used: 0,
                indirect: false,
                event: false,
                rx,
            },
            next: 0,
            used: 0,
            gathered: 0,
            done: Vec::with_capacity(alloc, MOST_DONE)?,
            journal: Vec::new(alloc),
            reserved: 0,
            stopped: None,
        })
    }

    /// Where the ring lies, and how it is used.
    pub fn layout(&self) -> Layout
        ensures layout { result ≡ self.now.queue.layout }
        ensures size { IsQueueSize result.num }
    {
        self.layout
    }

    /// The position of the next chain.
    pub fn position(&self) -> u16
        ensures { result ≡ self.now.queue.positions.next }
    {
        self.next
    }

    /// How many chains were served and aren't done.
    pub fn gathered(&self) -> u16
        ensures gathered { result ≡ self.now.queue.positions.gathered }
        ensures few { result ≤ most_gathered }
    {
        self.gathered
    }

    /// How many more chains can be done before the next publication.
    pub fn room(&self) -> u16
        ensures { result ≡ room_of self.now }
    {
        (self.reserved.min(MOST_DONE) - self.done.len()) as u16
    }

    /// How many chains are done and not published.
    pub fn unpublished(&self) -> u16
        ensures { result ≡ length self.now.queue.positions.done }
    {
        self.done.len() as u16
    }

    /// How many places for published chains are reserved.
    pub fn reserved(&self) -> usize
        ensures { result ≡ self.now.reserved }
    {
        self.reserved
    }

    /// Whether nothing is served and not published.
    pub fn is_idle(&self) -> bool
        ensures { IsTrue result ↔ IsIdle self.now.queue.positions }
    {
        self.gathered == 0 && self.done.is_empty()
    }

    /// Gives the ring another layout.
    pub fn set_layout(&mut self, layout: Layout)
        requires idle { IsIdle self.old.queue.positions }
        requires size { IsQueueSize layout.num }
        ensures { self.new ≡ record self.old { queue = record self.old.queue { layout = layout } } }
    {
        self.layout = layout;
    }

    /// Begins a list of positions.
    pub fn rebase(&mut self, base: u16)
        requires { IsIdle self.old.queue.positions }
        ensures { self.new
            ≡ record self.old { queue = record self.old.queue { positions = rebased base self.old.queue.positions } } }
    {
        self.next = base;
    }

    /// Begins to serve the ring: takes its used index, and clears the fault that stopped it.
    pub fn start(&mut self, mem: &Memory)
        requires { IsGood self.old.queue mem.now }
        ensures { self.new ≡ record self.old { queue = started mem.now self.old.queue } }
    {
        range_laws();
        self.used = mem.le16_at(self.layout.used_idx_addr());
        self.stopped = None;
    }

    /// Reserves the places for all chains that a turn can publish.
    pub fn ready_turn(&mut self) -> Result<(), AllocError>
        ensures ok { OnOk result (self.new ≡ record self.old { reserved = turn_places }) }
        ensures err { OnErr result (self.new ≡ self.old) }
    {
        self.journal.reserve(TURN_PLACES)?;
        self.reserved = TURN_PLACES;
        Ok(())
    }

    /// The chain at the next position was served.
    pub fn served(&mut self)
        requires { self.old.queue.positions.gathered < most_gathered }
        ensures { self.new
            ≡ record self.old { queue = record self.old.queue { positions = served self.old.queue.positions } } }
    {
        self.next = self.next.wrapping_add(1);
        self.gathered += 1;
    }

    /// So many chains, the latest ones served, stand at their positions again.
    pub fn rewind(&mut self, count: u16)
        requires { count ≤ self.old.queue.positions.gathered }
        ensures { self.new
            ≡ record self.old { queue = record self.old.queue { positions = rewound count self.old.queue.positions } } }
    {
        self.next = self.next.wrapping_sub(count);
        self.gathered -= count;
    }

    /// The first chain that was served and isn't done is done.
    pub fn done(&mut self, head: u16, len: u32)
        requires some { 0 < self.old.queue.positions.gathered }
        requires room { 0 < room_of self.old }
        ensures { self.new
            ≡ record self.old {
              queue = record self.old.queue { positions = with_done head len self.old.queue.positions };
            } }
    {
        self.gathered -= 1;
        self.done.push_reserved(Done { head, len });
    }

    /// Publishes what is done, and tells whether the driver wants a notice.
    #[tactic(auto, unfolding(crate::specs::Publication::published_in))]
    pub fn publish(&mut self, mem: &mut Memory) -> bool
        requires { IsGood self.old.queue mem.old }
        ensures queue { self.new.queue ≡ with_published self.old.queue }
        ensures reserved { self.new.reserved ≡ self.old.reserved - length self.old.queue.positions.done }
        ensures memory { mem.new ≡ published_in self.old.queue mem.old }
        ensures regions { mem.new.regions ≡ mem.old.regions }
        ensures notice { result
            ≡ wants_notice self.old.queue.layout self.old.queue.used (next_used self.old.queue) mem.new }
    {
        let ring = self.layout;
        let old = self.used;
        write_entries(mem, &ring, old, &self.done);
        let new = write_index(mem, &ring, old, &self.done);
        self.used = new;
        self.move_done();
        wants_notice(mem, &ring, old, new)
    }

    // Moves what is done to the end of what was published.
    fn move_done(&mut self)
        ensures queue { self.new.queue ≡ record self.old.queue { positions = all_published self.old.queue.positions } }
        ensures reserved { self.new.reserved ≡ self.old.reserved - length self.old.queue.positions.done }
    {
        let unpublished = self.gathered + self.done.len() as u16;
        append_published(
            &mut self.journal,
            self.next.wrapping_sub(unpublished),
            &self.done,
        );
        self.reserved -= self.done.len();
        self.done.clear();
    }

    /// Tells the driver that notices are wanted from now on, or aren't.
    pub fn notices(&mut self, mem: &mut Memory, on: bool)
        requires { IsGood self.old.queue mem.old }
        ensures memory { mem.new ≡ noticed_in on self.old.queue mem.old }
        ensures regions { mem.new.regions ≡ mem.old.regions }
        ensures queue { self.new ≡ self.old }
    {
        write_notices(mem, &self.layout, self.next, on);
    }

    /// Stops the ring.
    pub fn stop(&mut self, fault: RingFault)
        ensures { self.new ≡ record self.old { queue = record self.old.queue { stopped = Some fault } } }
    {
        self.stopped = Some(fault);
    }

    /// The fault that stopped the ring, if it is stopped.
    pub fn stopped(&self) -> Option<RingFault>
        ensures { result ≡ self.now.queue.stopped }
    {
        self.stopped
    }

    /// Position, head and length of each chain that was published, of all lists of positions.
    pub fn journal(&self) -> &[(u16, u16, u32)]
        ensures { result.now ≡ self.now.queue.positions.journal }
    {
        self.journal.as_slice()
    }
}

impl Once for Vq {
    ghost use Rattle.std.specs.Prelude.{ℕ, List, [], ◌∷◌, ◌++◌, take};
    ghost use Rattle.guest_mem.specs.Memory.{Contents};
    ghost use Rattle.vhost_queue.specs.Queue.{IsGood as Good};
    ghost use Rattle.vhost_queue.specs.Publication.{published_in as published_by, wants_notice as wants};

    ghost lists = { λ v. v.queue.positions };

    ghost reserved = { λ v. v.reserved };

    ghost is_good = { λ v m. Good v.queue m };

    ghost may_serve = { λ _. Unit {0} };

    ghost may_finish = { λ _ _. Unit {0} };

    ghost is_next = { λ _ _. Unit {0} };

    ghost are_served = { λ v heads. length heads ≡ v.queue.positions.gathered };

    ghost published = { λ v m. published_by v.queue m };

    ghost wants_notice = { λ v m. wants v.queue.layout v.queue.used (next_used v.queue) m };

    ghost first_may_finish = { λ _ _ _ _. tt };

    fn position(&self) -> u16 {
        Vq::position(self)
    }

    fn served(&mut self)
        requires few { self.old.queue.positions.gathered < most_gathered }
        ensures queue { self.new
            ≡ record self.old { queue = record self.old.queue { positions = served self.old.queue.positions } } }
        ensures lists { self.new.queue.positions ≡ served self.old.queue.positions }
        ensures reserved { self.new.reserved ≡ self.old.reserved }
        ensures heads { (head : ℕ) (heads : List ℕ) → Unit {0} → length heads ≡ self.old.queue.positions.gathered
            → length (heads ++ head ∷ []) ≡ self.new.queue.positions.gathered }
        ensures good { (m : Contents) → Good self.old.queue m → Good self.new.queue m }
    {
        Vq::served(self);
    }

    fn rewind(&mut self, count: u16)
        requires { count ≤ self.old.queue.positions.gathered }
        ensures queue { self.new
            ≡ record self.old { queue = record self.old.queue { positions = rewound count self.old.queue.positions } } }
        ensures lists { self.new.queue.positions ≡ rewound count self.old.queue.positions }
        ensures reserved { self.new.reserved ≡ self.old.reserved }
        ensures heads { (heads : List ℕ) → length heads ≡ self.old.queue.positions.gathered
            → length (take (length heads - count) heads) ≡ self.new.queue.positions.gathered }
        ensures good { (m : Contents) → Good self.old.queue m → Good self.new.queue m }
    {
        Vq::rewind(self, count);
    }

    fn done(&mut self, head: u16, len: u32)
        requires some { 0 < self.old.queue.positions.gathered }
        requires room { 0 < room_of self.old }
        ensures queue { self.new
            ≡ record self.old {
              queue = record self.old.queue { positions = with_done head len self.old.queue.positions };
            } }
        ensures lists { self.new.queue.positions ≡ with_done head len self.old.queue.positions }
        ensures reserved { self.new.reserved ≡ self.old.reserved }
        ensures heads { (heads : List ℕ) → length (head ∷ heads) ≡ self.old.queue.positions.gathered
            → length heads ≡ self.new.queue.positions.gathered }
        ensures good { (m : Contents) → Good self.old.queue m → Good self.new.queue m }
    {
        Vq::done(self, head, len);
    }

    fn publish(&mut self, mem: &mut Memory) -> bool
        requires { Good self.old.queue mem.old }
        ensures queue { self.new.queue ≡ with_published self.old.queue }
        ensures lists { self.new.queue.positions ≡ all_published self.old.queue.positions }
        ensures reserved { self.new.reserved ≡ self.old.reserved - length self.old.queue.positions.done }
        ensures heads { (heads : List ℕ) → length heads ≡ self.old.queue.positions.gathered
            → length heads ≡ self.new.queue.positions.gathered }
        ensures memory { mem.new ≡ published_by self.old.queue mem.old }
        ensures regions { mem.new.regions ≡ mem.old.regions }
        ensures notice { result
            ≡ wants self.old.queue.layout self.old.queue.used (next_used self.old.queue) mem.new }
        ensures good { Good self.new.queue mem.new }
    {
        Vq::publish(self, mem)
    }

    fn journal(&self) -> &[(u16, u16, u32)] {
        Vq::journal(self)
    }
}

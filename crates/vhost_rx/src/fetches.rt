//! Fetches, and notices round them.
ghost use Rattle.std.specs.Prelude.{◌≡◌, ◌<◌, ◌≤◌, ◌||◌, false, true, length, None, Some, if◌then◌else◌};
ghost use Rattle.guest_mem.specs.Memory.{covers};
ghost use Rattle.vhost_queue.specs.Queue.{IsGood};
ghost use Rattle.vring_turns.specs.Ring.{LieIn, noticed, found, joined, all_rewound};
ghost use Rattle.vring_turns.specs.RxTurn.{goes_on, stage_of, gathers, rx_fetches, rx_made, rx_ring, rx_next, rx_at, quota};
ghost use Rattle.tap_ledger.specs.declared.hand.Hand.{Hand as Handed};
ghost use Rattle.vhost_rx.specs.Worker.{IsSteady, Changes, ring_of, need_in, fetch_stage};

use crate::ways::{after_by, rewinds, stage_of};
use crate::worker::RxWorker;
use guest_mem::Memory;
use tap_ledger::Act;
use vhost_queue::Vq;
use vring_turns::{After, End, RxStage, told_of};
use vring_walk::Fetched;

impl RxWorker {
    // Turns notices on or off, and goes on to a stage.
    pub(crate) fn notices(&mut self, vq: &mut Vq, mem: &mut Memory, on: bool, stage: RxStage) -> Act
        requires { IsGood vq.old.queue mem.old }
        ensures step { Changes (λ s. Some (rx_made (noticed on (rx_ring s) s.memory) stage s))
            self.old vq.old.queue mem.old self.new vq.new.queue mem.new result }
        ensures worker { self.new ≡ record self.old { turn = rx_at stage self.old.turn } }
        ensures queue { vq.new ≡ vq.old }
        ensures regions { mem.new.regions ≡ mem.old.regions }
    {
        vq.notices(mem, on);
        self.stage = stage;
        Act::Notices {
            on,
            wrote: on || !vq.layout().event,
        }
    }

    // Takes what is at the next position, and goes on to no stage yet.
    pub(crate) fn find(&mut self, vq: &mut Vq, mem: &Memory) -> Fetched
        requires good { IsGood vq.old.queue mem.now }
        requires few { length self.old.turn.chains < 1024 }
        requires gathered { vq.old.queue.positions.gathered ≡ length self.old.turn.chains }
        requires lies { LieIn (covers mem.now.regions) self.old.turn.chains }
        ensures found { result ≡ (found (ring_of self.old vq.old.queue) mem.now).0 }
        ensures ring { ring_of self.new vq.new.queue
            ≡ joined result (found (ring_of self.old vq.old.queue) mem.now).1 (ring_of self.old vq.old.queue) }
        ensures worker { self.new ≡ record self.old {
          turn = record self.old.turn { chains = self.new.turn.chains };
          next = vq.new.queue.positions.next;
        } }
        ensures reserved { vq.new.reserved ≡ vq.old.reserved }
        ensures lies { LieIn (covers mem.now.regions) self.new.turn.chains }
    {
        let ring = vq.layout();
        let found = self.chains.take(mem, &ring, vq.position());
        match found {
            Fetched::Chain { .. } => vq.served(),
            Fetched::Bad(fault) => vq.stop(fault),
            Fetched::Nothing | Fetched::Crowded => {}
        }
        self.next = vq.position();
        found
    }

    // How it goes on with the chains that are gathered, for a frame that needs so many bytes.
    pub(crate) fn gathers(&self, need: u32) -> After
        ensures { result ≡ gathers self.now.turn.mergeable need self.now.turn.chains }
    {
        let had = self.chains.had();
        if had >= u64::from(need) {
            After::Copy
        } else if self.chains.len() >= self.quota() {
            After::Discard { had }
        } else {
            After::Fetch
        }
    }

    // How it goes on after a fetch that found this, if it found something.
    pub(crate) fn way(&self, need: u32, found: Fetched) -> Option<After>
        ensures { result ≡ goes_on self.now.turn.mergeable need self.now.turn.chains found }
    {
        match found {
            Fetched::Chain { .. } => Some(self.gathers(need)),
            Fetched::Crowded => Some(After::Discard {
                had: self.chains.had(),
            }),
            Fetched::Bad(fault) => Some(After::PutBack(End::Stopped(fault))),
            Fetched::Nothing => None,
        }
    }

    // Rewinds the chains that are gathered or keeps them, and goes on to a stage.
    pub(crate) fn settle(&mut self, vq: &mut Vq, rewinds: bool, stage: RxStage)
        requires gathered { vq.old.queue.positions.gathered ≡ length self.old.turn.chains }
        requires few { length self.old.turn.chains ≤ 1024 }
        requires next { vq.old.queue.positions.next ≡ self.old.next }
        ensures ring { ring_of self.new vq.new.queue
            ≡ (if rewinds then all_rewound (ring_of self.old vq.old.queue) else ring_of self.old vq.old.queue) }
        ensures worker { self.new ≡ record self.old {
          turn = record self.old.turn { chains = self.new.turn.chains; stage = stage };
          next = vq.new.queue.positions.next;
        } }
        ensures reserved { vq.new.reserved ≡ vq.old.reserved }
    {
        if rewinds {
            vq.rewind(self.chains.len() as u16);
            self.chains.clear();
        }
        self.next = vq.position();
        self.stage = stage;
    }

    // Looks for a chain, for the first time or, after notices were turned on, once more.
    pub(crate) fn fetch(&mut self, vq: &mut Vq, mem: &Memory, second: bool) -> Act
        requires good { IsGood vq.old.queue mem.now }
        requires steady { IsSteady self.old vq.old }
        requires stage { self.old.turn.stage ≡ fetch_stage second }
        requires lies { LieIn (covers mem.now.regions) self.old.turn.chains }
        ensures step { Changes (λ s. Some (rx_fetches second (need_in self.old.turn) s))
            self.old vq.old.queue mem.now self.new vq.new.queue mem.now result }
        ensures steady { IsSteady self.new vq.new }
        ensures lies { LieIn (covers mem.now.regions) self.new.turn.chains }
        ensures layout { vq.new.queue.layout ≡ vq.old.queue.layout }
    {
        let position = vq.position();
        let need = self.need();
        let had = self.chains.had();
        let found = self.find(vq, mem);
        let way = self.way(need, found);
        let stage = after_by(second, need, had, way);
        self.settle(vq, rewinds(second, way), stage);
        told_of(position, found)
    }

    // Turns notices off again after a second fetch, and goes its way.
    pub(crate) fn notices_off(&mut self, vq: &mut Vq, mem: &mut Memory, after: After) -> Act
        requires good { IsGood vq.old.queue mem.old }
        requires steady { IsSteady self.old vq.old }
        requires stage { self.old.turn.stage ≡ RxStage.NoticesOff after }
        ensures step { Changes (λ s. Some (rx_made (noticed false (rx_ring s) s.memory) (stage_of after) s))
            self.old vq.old.queue mem.old self.new vq.new.queue mem.new result }
        ensures steady { IsSteady self.new vq.new }
        ensures chains { self.new.turn.chains ≡ self.old.turn.chains }
        ensures held { self.new.turn.held ≡ self.old.turn.held }
        ensures layout { vq.new.queue.layout ≡ vq.old.queue.layout }
        ensures regions { mem.new.regions ≡ mem.old.regions }
    {
        self.notices(vq, mem, false, stage_of(after))
    }

    // Turns notices off at the beginning, or on where no chain was there, and goes on.
    pub(crate) fn notices_first(&mut self, vq: &mut Vq, mem: &mut Memory) -> Act
        requires good { IsGood vq.old.queue mem.old }
        requires steady { IsSteady self.old vq.old }
        requires stage { self.old.turn.stage ≡ RxStage.Begin }
        ensures step { (h : Handed) → Changes (rx_next RxStage.Begin h)
            self.old vq.old.queue mem.old self.new vq.new.queue mem.new result }
        ensures steady { IsSteady self.new vq.new }
        ensures chains { self.new.turn.chains ≡ self.old.turn.chains }
        ensures held { self.new.turn.held ≡ self.old.turn.held }
        ensures layout { vq.new.queue.layout ≡ vq.old.queue.layout }
        ensures regions { mem.new.regions ≡ mem.old.regions }
    {
        self.notices(vq, mem, false, RxStage::Hand)
    }

    // Turns notices on where no chain was there.
    pub(crate) fn notices_on(&mut self, vq: &mut Vq, mem: &mut Memory) -> Act
        requires good { IsGood vq.old.queue mem.old }
        requires steady { IsSteady self.old vq.old }
        requires stage { self.old.turn.stage ≡ RxStage.NoticesOn }
        ensures step { (h : Handed) → Changes (rx_next RxStage.NoticesOn h)
            self.old vq.old.queue mem.old self.new vq.new.queue mem.new result }
        ensures steady { IsSteady self.new vq.new }
        ensures chains { self.new.turn.chains ≡ self.old.turn.chains }
        ensures held { self.new.turn.held ≡ self.old.turn.held }
        ensures layout { vq.new.queue.layout ≡ vq.old.queue.layout }
        ensures regions { mem.new.regions ≡ mem.old.regions }
    {
        self.notices(vq, mem, true, RxStage::FetchAgain)
    }
}

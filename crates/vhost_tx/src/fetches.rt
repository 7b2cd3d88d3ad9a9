//! Fetches, and notices round them.
ghost use Rattle.std.specs.Prelude.{◌≡◌, ◌≢◌, ◌<◌, ◌||◌, [], Some, None};
ghost use Rattle.guest_mem.specs.Memory.{covers};
ghost use Rattle.vhost_queue.specs.Queue.{IsGood};
ghost use Rattle.vring_turns.specs.Ring.{LieIn, noticed, found, joined};
ghost use Rattle.vring_turns.specs.TxTurn.{tx_after_fetch, tx_after_second, tx_after_notices, tx_fetches, tx_made, tx_ring, tx_next, at_stage};
ghost use Rattle.vhost_tx.specs.Worker.{IsSteady, Changes, ring_of};

use crate::worker::TxWorker;
use guest_mem::Memory;
use tap_ledger::Act;
use vhost_queue::Vq;
use vring_split::RingFault;
use vring_turns::{End, TxStage, closing, told_of};
use vring_walk::{Fetched, chains_are_usable, fetch};

// Notices are off again: a chain was found, or a fault.
fn after_notices(vq: &Vq, fault: Option<RingFault>) -> TxStage
    ensures { result ≡ tx_after_notices vq.now.queue fault }
{
    match fault {
        None => TxStage::Copy,
        Some(fault) => closing(vq, End::Stopped(fault)),
    }
}

impl TxWorker {
    // Turns notices on or off, and goes on to a stage.
    pub(crate) fn notices(&mut self, vq: &mut Vq, mem: &mut Memory, on: bool, stage: TxStage) -> Act
        requires { IsGood vq.old.queue mem.old }
        ensures step { Changes (λ s. Some (tx_made (noticed on (tx_ring s) s.memory) stage s))
            self.old vq.old.queue mem.old self.new vq.new.queue mem.new result }
        ensures worker { self.new ≡ record self.old { turn = at_stage stage self.old.turn } }
        ensures queue { vq.new ≡ vq.old }
        ensures regions { mem.new.regions ≡ mem.old.regions }
    {
        vq.notices(mem, on);
        self.stage = stage;
        Act::Notices {
            on,
            wrote: on || !vq.layout().event,
        }
    }

    // Turns notices off again after a second fetch, which found a chain or a fault.
    pub(crate) fn notices_off(
        &mut self,
        vq: &mut Vq,
        mem: &mut Memory,
        fault: Option<RingFault>,
    ) -> Act
        requires good { IsGood vq.old.queue mem.old }
        requires steady { IsSteady self.old vq.old }
        requires stage { self.old.turn.stage ≡ TxStage.NoticesOff fault }
        ensures step { Changes (tx_next (TxStage.NoticesOff fault))
            self.old vq.old.queue mem.old self.new vq.new.queue mem.new result }
        ensures steady { IsSteady self.new vq.new }
        ensures chains { self.new.turn.chains ≡ self.old.turn.chains }
        ensures queue { vq.new ≡ vq.old }
        ensures regions { mem.new.regions ≡ mem.old.regions }
    {
        let stage = after_notices(vq, fault);
        self.notices(vq, mem, false, stage)
    }

    // Takes what is at the next position, and goes on to no stage yet.
    pub(crate) fn find(&mut self, vq: &mut Vq, mem: &Memory) -> Fetched
        requires good { IsGood vq.old.queue mem.now }
        requires none { self.old.turn.chains ≡ [] }
        requires few { vq.old.queue.positions.gathered ≡ 0 }
        ensures found { result ≡ (found (ring_of self.old vq.old.queue) mem.now).0 }
        ensures ring { ring_of self.new vq.new.queue
            ≡ joined result (found (ring_of self.old vq.old.queue) mem.now).1 (ring_of self.old vq.old.queue) }
        ensures worker { self.new ≡ record self.old {
          turn = record self.old.turn { chains = self.new.turn.chains };
          next = vq.new.queue.positions.next;
        } }
        ensures reserved { vq.new.reserved ≡ vq.old.reserved }
        ensures fits { result ≢ Fetched.Crowded }
        ensures lies { LieIn (covers mem.now.regions) self.new.turn.chains }
    {
        chains_are_usable();
        self.room.clear();
        let ring = vq.layout();
        let found = fetch(mem, &ring, vq.position(), &mut self.room);
        match found {
            Fetched::Chain { head } => {
                vq.served();
                self.head = Some(head);
            }
            Fetched::Bad(fault) => vq.stop(fault),
            Fetched::Nothing | Fetched::Crowded => {}
        }
        self.next = vq.position();
        found
    }

    // Looks for a chain, and turns notices on where there is none.
    pub(crate) fn fetch(&mut self, vq: &mut Vq, mem: &Memory) -> Act
        requires good { IsGood vq.old.queue mem.now }
        requires steady { IsSteady self.old vq.old }
        requires stage { self.old.turn.stage ≡ TxStage.Fetch }
        ensures step { Changes (tx_fetches tx_after_fetch)
            self.old vq.old.queue mem.now self.new vq.new.queue mem.now result }
        ensures steady { IsSteady self.new vq.new }
        ensures lies { LieIn (covers mem.now.regions) self.new.turn.chains }
        ensures layout { vq.new.queue.layout ≡ vq.old.queue.layout }
    {
        let position = vq.position();
        let found = self.find(vq, mem);
        self.stage = match found {
            Fetched::Chain { .. } => TxStage::Copy,
            Fetched::Nothing => TxStage::NoticesOn,
            Fetched::Bad(fault) => closing(vq, End::Stopped(fault)),
            Fetched::Crowded => unreachable!(),
        };
        told_of(position, found)
    }

    // Looks once more, after notices were turned on.
    pub(crate) fn fetch_again(&mut self, vq: &mut Vq, mem: &Memory) -> Act
        requires good { IsGood vq.old.queue mem.now }
        requires steady { IsSteady self.old vq.old }
        requires stage { self.old.turn.stage ≡ TxStage.FetchAgain }
        ensures step { Changes (tx_fetches tx_after_second)
            self.old vq.old.queue mem.now self.new vq.new.queue mem.now result }
        ensures steady { IsSteady self.new vq.new }
        ensures lies { LieIn (covers mem.now.regions) self.new.turn.chains }
        ensures layout { vq.new.queue.layout ≡ vq.old.queue.layout }
    {
        let position = vq.position();
        let found = self.find(vq, mem);
        self.stage = match found {
            Fetched::Chain { .. } => TxStage::NoticesOff { fault: None },
            Fetched::Nothing => closing(vq, End::Idle),
            Fetched::Bad(fault) => TxStage::NoticesOff { fault: Some(fault) },
            Fetched::Crowded => unreachable!(),
        };
        told_of(position, found)
    }
}

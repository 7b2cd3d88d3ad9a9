//! What the worker does at each stage.
ghost use Rattle.std.specs.Prelude.{◌≡◌, ◌+◌, ◌<◌, length, Some, None, IfSome, OnSome, IfNone};
ghost use Rattle.guest_mem.specs.Memory.{Contents, covers};
ghost use Rattle.vhost_queue.specs.Positions.{with_done};
ghost use Rattle.vhost_queue.specs.Queue.{IsGood, room_of};
ghost use Rattle.vring_turns.specs.Ring.{LieIn};
ghost use Rattle.vring_turns.specs.TxTurn.{tx_after_packet, tx_publishes, tx_copies, tx_gives, tx_step, tx_told, tx_out_of_memory, at_stage};
ghost use Rattle.vring_turns.specs.Turn.{event_of, IfMore, most_packets, most_bytes};
ghost use Rattle.vhost_tx.specs.Worker.{IsSteady, Fits, Changes, state_of, out_of_memory};
ghost use Rattle.vhost_tx.specs.Copying.{counting, holding, IsRead};

use crate::copying::{Judged, Reading, read_chain};
use crate::worker::{TxStep, TxWorker};
use guest_mem::Memory;
use tap_frame::{Frame, Name};
use tap_ledger::{Act, HostIn};
use vhost_queue::Vq;
use vring_turns::{End, TxStage, closing, is_published};

// What was read of a chain: its head, for how many bytes it counts, and what its bytes are.
struct Read {
    head: u16,
    counted: u32,
    judged: Judged,
}

impl TxWorker {
    // A packet is behind it: it did enough, or it publishes, or it goes on.
    fn after_packet(&self, vq: &Vq) -> TxStage
        ensures { result ≡ tx_after_packet self.now.turn vq.now.queue }
    {
        if self.is_enough() {
            closing(vq, End::Again)
        } else if is_published(vq.unpublished()) {
            TxStage::Publish { end: None }
        } else {
            TxStage::Fetch
        }
    }

    // The chain of this head is done, and counts as a packet of so many bytes.
    fn finish(&mut self, vq: &mut Vq, head: u16, counted: u32)
        requires some { vq.old.queue.positions.gathered ≡ 1 }
        requires room { 0 < room_of vq.old }
        requires packets { self.old.turn.packets < most_packets }
        requires bytes { self.old.turn.bytes < most_bytes }
        ensures queue { vq.new ≡ record vq.old {
          queue = record vq.old.queue { positions = with_done head 0 vq.old.queue.positions };
        } }
        ensures worker { self.new ≡ record self.old { turn = counting counted self.old.turn } }
    {
        vq.done(head, 0);
        self.head = None;
        self.packets += 1;
        self.bytes += u64::from(counted);
    }

    // The chain is done, and its bytes are no frame.
    fn refuse(&mut self, vq: &mut Vq, head: u16, counted: u32)
        requires steady { IsSteady self.old vq.old }
        requires stage { self.old.turn.stage ≡ TxStage.Copy }
        ensures queue { vq.new ≡ record vq.old {
          queue = record vq.old.queue { positions = with_done head 0 vq.old.queue.positions };
        } }
        ensures worker { self.new ≡ record self.old {
          turn =
              at_stage (tx_after_packet (counting counted self.old.turn) vq.new.queue) (counting counted self.old.turn);
        } }
        ensures steady { IsSteady self.new vq.new }
    {
        self.finish(vq, head, counted);
        self.stage = self.after_packet(vq);
    }

    // The chain is done, and its bytes are a frame, which is kept.
    fn accept(&mut self, vq: &mut Vq, head: u16, counted: u32, frame: Frame)
        requires steady { IsSteady self.old vq.old }
        requires stage { self.old.turn.stage ≡ TxStage.Copy }
        ensures queue { vq.new ≡ record vq.old {
          queue = record vq.old.queue { positions = with_done head 0 vq.old.queue.positions };
        } }
        ensures worker { self.new ≡ record self.old { turn = holding frame (counting counted self.old.turn) } }
        ensures steady { IsSteady self.new vq.new }
    {
        self.finish(vq, head, counted);
        if let Some(other) = self.held.replace(frame) {
            let _ = other.end();
        }
        self.accepted += 1;
        self.stage = TxStage::Give;
    }

    // Reads the chain that was fetched, and what its bytes spell under a name.
    fn read(&self, mem: &Memory, name: Name) -> Read
        requires some { length self.now.turn.chains ≡ 1 }
        requires lies { LieIn (covers mem.now.regions) self.now.turn.chains }
        ensures { IsRead self.now.turn mem.now name result.head result.counted result.judged }
    {
        let head = match self.head {
            Some(head) => head,
            None => unreachable!(),
        };
        let Reading { counted, judged } = read_chain(
            self.alloc,
            mem,
            self.room.list(),
            self.hdr,
            name,
        );
        Read {
            head,
            counted,
            judged,
        }
    }

    // Gives the frame that it holds to the host.
    pub(crate) fn give<H: HostIn>(&mut self, vq: &Vq, host: &mut H) -> Act
        requires steady { IsSteady self.old vq.now }
        requires stage { self.old.turn.stage ≡ TxStage.Give }
        requires room { 0 < (H.host host.old).room }
        ensures step { (m : Contents) → tx_gives self.old.turn.held (state_of self.old vq.now.queue m (H.host host.old))
            ≡ Some (state_of self.new vq.now.queue m (H.host host.new), result) }
        ensures steady { IsSteady self.new vq.now }
        ensures chains { self.new.turn.chains ≡ self.old.turn.chains }
    {
        let stage = self.after_packet(vq);
        match self.held.take() {
            Some(frame) => {
                let name = frame.name();
                host.give(frame);
                self.stage = stage;
                Act::Given { name }
            }
            None => unreachable!(),
        }
    }

    // Publishes what is done, and then goes on or ends.
    pub(crate) fn publish(&mut self, vq: &mut Vq, mem: &mut Memory, end: Option<End>) -> Act
        requires good { IsGood vq.old.queue mem.old }
        requires steady { IsSteady self.old vq.old }
        requires stage { self.old.turn.stage ≡ TxStage.Publish end }
        ensures step { Changes (tx_publishes end)
            self.old vq.old.queue mem.old self.new vq.new.queue mem.new result }
        ensures steady { IsSteady self.new vq.new }
        ensures chains { self.new.turn.chains ≡ self.old.turn.chains }
        ensures layout { vq.new.queue.layout ≡ vq.old.queue.layout }
        ensures regions { mem.new.regions ≡ mem.old.regions }
    {
        let count = vq.unpublished();
        let call = vq.publish(mem);
        self.stage = match end {
            None => TxStage::Fetch,
            Some(end) => TxStage::Ended(end),
        };
        Act::Publish { count, call }
    }

    // Reads the bytes of the chain: they are a frame, or are refused. It makes nothing where memory ran out.
    pub(crate) fn copy(&mut self, vq: &mut Vq, mem: &Memory) -> Option<Act>
        requires steady { IsSteady self.old vq.old }
        requires stage { self.old.turn.stage ≡ TxStage.Copy }
        requires lies { LieIn (covers mem.now.regions) self.old.turn.chains }
        ensures step { IfSome result (Changes (λ s. tx_copies s.turn.chains s)
            self.old vq.old.queue mem.now self.new vq.new.queue mem.now) }
        ensures steady { OnSome result (IsSteady self.new vq.new) }
        ensures layout { vq.new.queue.layout ≡ vq.old.queue.layout }
        ensures lies { LieIn (covers mem.now.regions) self.new.turn.chains }
        ensures none { IfNone result (self.new ≡ out_of_memory self.old) }
        ensures queue { IfNone result (vq.new ≡ vq.old) }
    {
        let position = vq.position().wrapping_sub(1);
        let name = Name {
            part: self.accepted,
            ..self.name
        };
        let Read {
            head,
            counted,
            judged,
        } = self.read(mem, name);
        match judged {
            Judged::Accepted(frame) => {
                self.accept(vq, head, counted, frame);
                Some(Act::Copy { position, name })
            }
            Judged::Refused(bad) => {
                self.refuse(vq, head, counted);
                Some(Act::Refused { position, bad })
            }
            Judged::NoMemory => {
                self.stage = TxStage::Ended(End::NoMemory);
                None
            }
        }
    }

    // The event that comes next, or none where memory ran out.
    fn event<H: HostIn>(&mut self, vq: &mut Vq, mem: &mut Memory, host: &mut H) -> Option<Act>
        requires fits { Fits self.old vq.old }
        requires good { IsGood vq.old.queue mem.old }
        requires lies { LieIn (covers mem.old.regions) self.old.turn.chains }
        requires room { 0 < (H.host host.old).room }
        ensures event { IfSome result (λ act. tx_step (state_of self.old vq.old.queue mem.old (H.host host.old))
            ≡ Some (state_of self.new vq.new.queue mem.new (H.host host.new), act)) }
        ensures steady { OnSome result (IsSteady self.new vq.new) }
        ensures none { IfNone result (state_of self.new vq.new.queue mem.new (H.host host.new)
            ≡ state_of (out_of_memory self.old) vq.old.queue mem.old (H.host host.old)) }
        ensures reading { IfNone result (self.old.turn.stage ≡ TxStage.Copy) }
        ensures lies { LieIn (covers mem.new.regions) self.new.turn.chains }
        ensures layout { vq.new.queue.layout ≡ vq.old.queue.layout }
        ensures regions { mem.new.regions ≡ mem.old.regions }
    {
        match self.stage {
            TxStage::Begin => Some(self.notices(vq, mem, false, TxStage::Fetch)),
            TxStage::Fetch => Some(self.fetch(vq, mem)),
            TxStage::NoticesOn => Some(self.notices(vq, mem, true, TxStage::FetchAgain)),
            TxStage::FetchAgain => Some(self.fetch_again(vq, mem)),
            TxStage::NoticesOff { fault } => Some(self.notices_off(vq, mem, fault)),
            TxStage::Copy => self.copy(vq, mem),
            TxStage::Give => Some(self.give(vq, host)),
            TxStage::Publish { end } => Some(self.publish(vq, mem, end)),
            TxStage::Ended(_) => unreachable!(),
        }
    }

    // What a step answers that made an event.
    fn told(&self, act: Act) -> TxStep
        ensures { result ≡ tx_told self.now.turn self.now.turn.stage act }
    {
        match self.stage {
            TxStage::Ended(end) => TxStep::Ended {
                act: Some(act),
                turn: self.report(end),
            },
            _ => TxStep::More(act),
        }
    }

    /// Makes the one event that comes next, and tells it.
    ///
    /// The turn is over where it tells a report. Then the last event is told with it; where memory ran
    /// out, at the copy of a chain, none was made, and nothing but the turn changed. A frame that was
    /// accepted is given in the step after its copy.
    pub fn step<H: HostIn>(&mut self, vq: &mut Vq, mem: &mut Memory, host: &mut H) -> TxStep
        requires fits { Fits self.old vq.old }
        requires good { IsGood vq.old.queue mem.old }
        requires lies { LieIn (covers mem.old.regions) self.old.turn.chains }
        requires room { 0 < (H.host host.old).room }

        ensures event { IfSome (event_of result) (λ act.
            tx_step (state_of self.old vq.old.queue mem.old (H.host host.old))
            ≡ Some (state_of self.new vq.new.queue mem.new (H.host host.new), act)) }
        ensures told { IfSome (event_of result) (λ act. result ≡ tx_told self.new.turn self.new.turn.stage act) }

        ensures no_memory { IfNone (event_of result) (state_of self.new vq.new.queue mem.new (H.host host.new)
            ≡ state_of (out_of_memory self.old) vq.old.queue mem.old (H.host host.old)) }
        ensures reading { IfNone (event_of result) (self.old.turn.stage ≡ TxStage.Copy) }
        ensures report { IfNone (event_of result) (result ≡ tx_out_of_memory self.old.turn) }

        ensures fits { IfMore result (Fits self.new vq.new) }
        ensures good { IsGood vq.new.queue mem.new }
        ensures lies { LieIn (covers mem.new.regions) self.new.turn.chains }
        ensures regions { mem.new.regions ≡ mem.old.regions }
    {
        match self.event(vq, mem, host) {
            Some(act) => self.told(act),
            None => TxStep::Ended {
                act: None,
                turn: self.report(End::NoMemory),
            },
        }
    }
}

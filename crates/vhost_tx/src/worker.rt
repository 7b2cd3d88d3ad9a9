//! The worker.
ghost use Rattle.std.specs.Prelude.{◌≡◌, ◌↔◌, IsTrue, IfOk, OnOk, OnErr, None};
ghost use Rattle.std.specs.Option.{option_copied};
ghost use Rattle.guest_mem.specs.Memory.{covers};
ghost use Rattle.vring_turns.specs.Ring.{LieIn};
ghost use Rattle.vhost_queue.specs.Positions.{IsIdle};
ghost use Rattle.vhost_queue.specs.Queue.{turn_places};
ghost use Rattle.vring_turns.specs.TransmitBytes.{is_header_size};
ghost use Rattle.vring_turns.specs.TxTurn.{tx_begun, tx_report};

use crate::stages::{chains_at, goes_on_at, is_giving, is_publishing, stopped_at};
use guest_mem::Memory;
use std::alloc::{AllocError, Global};
use std::marker::Model;
use tap_frame::{Frame, Name};
use vhost_queue::Vq;
use vring_split::Layout;
use vring_turns::{End, Step, TurnEnd, TxStage, is_enough, lie_in};
use vring_walk::Segments;

/// What a step of a transmit worker answers.
pub type TxStep = Step;

/// A worker that makes one transmit turn.
pub struct TxWorker {
    pub(crate) alloc: Global,
    // What the queue has between two steps.
    pub(crate) ring: Layout,
    pub(crate) next: u16,
    pub(crate) hdr: u16,
    pub(crate) name: Name,
    pub(crate) packets: u32,
    pub(crate) bytes: u64,
    pub(crate) accepted: u16,
    // The chain that was fetched and isn't done: its head, and its segments.
    pub(crate) head: Option<u16>,
    pub(crate) room: Segments,
    pub(crate) held: Option<Frame>,
    pub(crate) stage: TxStage,
}

impl Model for TxWorker {
    ghost use Rattle.vhost_tx.specs.Worker.{Worker};

    ghost Value = { Worker };

    ghost use Rattle.vhost_tx.specs.Kept.{worker_of, HasSize};

    ghost view = { worker_of };

    ghost invariant = { HasSize };
}

impl TxWorker {
    ghost use Rattle.vhost_tx.specs.Worker.{Fits, IsSameQueue, HasNumbers};
    ghost use Rattle.vring_turns.specs.Stage.{tx_is_over};
    ghost use Rattle.vring_turns.specs.Turn.{is_enough as enough};

    /// A worker for one turn on a queue, whose frames have a header of `hdr` bytes, 10 or 12, in front of
    /// them. Its first frame gets the name, with part 0. It reserves what the turn needs.
    pub fn begin(alloc: Global, vq: &mut Vq, hdr: u16, name: Name) -> Result<TxWorker, AllocError>
        requires size { IsTrue (is_header_size hdr) }
        requires idle { IsIdle vq.old.queue.positions }
        requires running { vq.old.queue.stopped ≡ None }
        ensures begun { IfOk result (λ w. w ≡ record {
          turn = tx_begun hdr name;
          layout = vq.old.queue.layout;
          next = vq.old.queue.positions.next;
        }) }
        ensures reserved { OnOk result (vq.new ≡ record vq.old { reserved = turn_places }) }
        ensures fits { IfOk result (λ w. Fits w vq.new) }
        ensures unchanged { OnErr result (vq.new ≡ vq.old) }
    {
        let room = Segments::new(alloc)?;
        let ring = vq.layout();
        let next = vq.position();
        vq.ready_turn()?;
        Ok(TxWorker {
            alloc,
            ring,
            next,
            hdr,
            name,
            packets: 0,
            bytes: 0,
            accepted: 0,
            head: None,
            room,
            held: None,
            stage: TxStage::Begin,
        })
    }

    /// The accepted frame that isn't given yet.
    pub fn held(&self) -> Option<&Frame>
        ensures { option_copied result ≡ self.now.turn.held }
    {
        self.held.as_ref()
    }

    /// Where the turn stands: which step comes next.
    pub fn stage(&self) -> TxStage
        ensures { result ≡ self.now.turn.stage }
    {
        self.stage
    }

    /// Whether the queue is the one of `begin`, changed since by this worker's steps alone, as far as the
    /// numbers that both keep can tell, and the turn isn't over. It takes the same time whatever the turn did.
    pub fn fits(&self, vq: &Vq) -> bool
        ensures { IsTrue result ↔ Fits self.now vq.now }
    {
        !self.is_over() && self.has_queue(vq) && self.has_numbers(vq)
    }

    /// Whether the segments of the chain that was fetched lie in a memory. They do in the memory in which it
    /// was fetched.
    pub fn lies_in(&self, mem: &Memory) -> bool
        ensures { IsTrue result ↔ LieIn (covers mem.now.regions) self.now.turn.chains }
    {
        self.head.is_none() || lie_in(mem, self.room.list())
    }

    // Whether the turn is over.
    fn is_over(&self) -> bool
        ensures { result ≡ tx_is_over self.now.turn.stage }
    {
        matches!(self.stage, TxStage::Ended(_))
    }

    // Whether the queue is as the worker left it.
    fn has_queue(&self, vq: &Vq) -> bool
        ensures { IsTrue result ↔ IsSameQueue self.now vq.now.queue }
    {
        vq.layout() == self.ring
            && vq.position() == self.next
            && vq.gathered() == chains_at(self.stage)
            && vq.stopped() == stopped_at(self.stage)
            && (vq.unpublished() > 0 || !is_publishing(self.stage))
    }

    // Whether the worker and its room are as its stage says.
    fn has_numbers(&self, vq: &Vq) -> bool
        ensures { IsTrue result ↔ HasNumbers self.now vq.now }
    {
        u16::from(self.head.is_some()) == chains_at(self.stage)
            && self.held.is_some() == is_giving(self.stage)
            && (!goes_on_at(self.stage) || !self.is_enough())
            && u32::from(self.accepted) <= self.packets
            && u64::from(vq.room()) + u64::from(self.packets) >= 1087
    }

    // Whether it did as much as one turn does.
    pub(crate) fn is_enough(&self) -> bool
        ensures { result ≡ enough self.now.turn.packets self.now.turn.bytes self.now.turn.packets }
    {
        is_enough(self.packets, self.bytes, self.packets)
    }

    /// What the turn did so far, with an end.
    pub(crate) fn report(&self, end: End) -> TurnEnd
        ensures { result ≡ tx_report self.now.turn end }
    {
        TurnEnd {
            packets: self.packets,
            bytes: self.bytes,
            end,
        }
    }

    /// Ends the frame that it holds, if it holds one. It takes no memory.
    pub fn abandon(self) {
        let TxWorker {
            alloc: _,
            ring: _,
            next: _,
            hdr: _,
            name: _,
            packets: _,
            bytes: _,
            accepted: _,
            head: _,
            room: _,
            held,
            stage: _,
        } = self;
        if let Some(frame) = held {
            let _ = frame.end();
        }
    }
}

//! The worker.
ghost use Rattle.std.specs.Prelude.{◌≡◌, ◌↔◌, ◌≤◌, IsTrue, IfOk, OnOk, OnErr, None};
ghost use Rattle.std.specs.Option.{option_copied};
ghost use Rattle.guest_mem.specs.Memory.{covers};
ghost use Rattle.vhost_queue.specs.Positions.{IsIdle};
ghost use Rattle.vhost_queue.specs.Queue.{turn_places};
ghost use Rattle.vring_turns.specs.Ring.{LieIn};
ghost use Rattle.vring_turns.specs.TransmitBytes.{is_header_size};
ghost use Rattle.vring_turns.specs.RxTurn.{rx_begun, rx_report, quota};

use crate::chains::Chains;
use crate::stages::{
    copies_after, copies_at, counts_at, few_done_at, gathers_at, has_in_hand, is_publishing,
    stopped_at,
};
use guest_mem::Memory;
use std::alloc::{AllocError, Global};
use std::marker::Model;
use tap_frame::{Frame, Name};
use vhost_queue::Vq;
use vring_split::Layout;
use vring_turns::{
    End, MOST_BYTES, MOST_CHAINS, MOST_PACKETS, MOST_QUOTA, PUBLISHES_AT, RxStage, Step, TurnEnd,
};

/// What a step of a receive worker answers.
pub type RxStep = Step;

/// A worker that makes one receive turn.
pub struct RxWorker {
    // What the ring's queue has between two steps.
    pub(crate) ring: Layout,
    pub(crate) next: u16,
    pub(crate) mergeable: bool,
    pub(crate) hdr: u16,
    pub(crate) packets: u32,
    pub(crate) bytes: u64,
    // How many chains were done.
    pub(crate) handled: u32,
    pub(crate) held: Option<Frame>,
    pub(crate) chains: Chains,
    pub(crate) stage: RxStage,
}

impl Model for RxWorker {
    ghost use Rattle.vhost_rx.specs.Worker.{Worker};

    ghost Value = { Worker };

    ghost use Rattle.vhost_rx.specs.View.{worker_of, HasHeader};

    ghost view = { worker_of };

    ghost invariant = { HasHeader };
}

impl RxWorker {
    ghost use Rattle.vhost_rx.specs.Worker.{Fits, IsSameQueue, HasChains, HasPlaces, name_in_hand, need_in};
    ghost use Rattle.vring_turns.specs.Stage.{rx_is_over};

    /// A worker for one turn on a ring's queue, whose frames may go into several chains where `mergeable`
    /// says so, and have a header of `hdr` bytes, 10 or 12, in front of them: 12 where they may. It reserves
    /// what the turn needs.
    pub fn begin(
        alloc: Global,
        vq: &mut Vq,
        mergeable: bool,
        hdr: u16,
    ) -> Result<RxWorker, AllocError>
        requires size { IsTrue (is_header_size hdr) }
        requires with_mergeable { IsTrue mergeable → hdr ≡ 12 }
        requires idle { IsIdle vq.old.queue.positions }
        requires running { vq.old.queue.stopped ≡ None }
        ensures begun { IfOk result (λ w. w ≡ record {
          turn = rx_begun mergeable hdr;
          layout = vq.old.queue.layout;
          next = vq.old.queue.positions.next;
        }) }
        ensures reserved { OnOk result (vq.new ≡ record vq.old { reserved = turn_places }) }
        ensures fits { IfOk result (λ w. Fits w vq.new) }
        ensures unchanged { OnErr result (vq.new ≡ vq.old) }
    {
        let chains = Chains::new(alloc)?;
        let ring = vq.layout();
        let next = vq.position();
        vq.ready_turn()?;
        Ok(RxWorker {
            ring,
            next,
            mergeable,
            hdr,
            packets: 0,
            bytes: 0,
            handled: 0,
            held: None,
            chains,
            stage: RxStage::Begin,
        })
    }

    /// The frame in hand.
    pub fn held(&self) -> Option<&Frame>
        ensures { option_copied result ≡ self.now.turn.held }
    {
        self.held.as_ref()
    }

    /// The name of the frame in hand.
    pub fn in_hand(&self) -> Option<Name>
        ensures { result ≡ name_in_hand self.now }
    {
        match &self.held {
            Some(frame) => Some(frame.name()),
            None => None,
        }
    }

    /// Where the turn stands: which step comes next.
    pub fn stage(&self) -> RxStage
        ensures { result ≡ self.now.turn.stage }
    {
        self.stage
    }

    /// Whether the ring's queue is the one of `begin`, changed since by this worker's steps alone, as far as
    /// the numbers that both keep can tell, and the turn isn't over. It takes the same time whatever the
    /// turn did.
    pub fn fits(&self, vq: &Vq) -> bool
        ensures { IsTrue result ↔ Fits self.now vq.now }
    {
        !self.is_over() && self.has_queue(vq) && self.has_chains() && self.has_places(vq)
    }

    /// Whether the segments of the chains that were fetched lie in a memory. They do in the memory in which
    /// they were fetched.
    pub fn lies_in(&self, mem: &Memory) -> bool
        ensures { IsTrue result ↔ LieIn (covers mem.now.regions) self.now.turn.chains }
    {
        self.chains.lie_in(mem)
    }

    // Whether the turn is over.
    fn is_over(&self) -> bool
        ensures { result ≡ rx_is_over self.now.turn.stage }
    {
        matches!(self.stage, RxStage::Ended(_))
    }

    // Whether the queue is as the worker left it.
    fn has_queue(&self, vq: &Vq) -> bool
        ensures { IsTrue result ↔ IsSameQueue self.now vq.now.queue }
    {
        vq.layout() == self.ring
            && vq.position() == self.next
            && usize::from(vq.gathered()) == self.chains.len()
            && vq.stopped() == stopped_at(self.stage)
            && (vq.unpublished() > 0 || !is_publishing(self.stage))
    }

    // Whether the frame and the chains are as the stage says.
    fn has_chains(&self) -> bool
        ensures { IsTrue result ↔ HasChains self.now.turn }
    {
        let gathers = gathers_at(self.stage);
        let copies = copies_at(self.stage);
        let need = u64::from(self.need());
        self.held.is_some() == has_in_hand(self.stage)
            && (!gathers || self.chains.len() < self.quota())
            && (!gathers || self.chains.had() < need)
            && (!copies || need <= self.chains.had())
            && self.chains.len() <= self.quota()
            && (gathers || copies || self.chains.len() == 0)
    }

    // Whether it may count and publish what is still to come.
    fn has_places(&self, vq: &Vq) -> bool
        ensures { IsTrue result ↔ HasPlaces self.now.turn vq.now }
    {
        let counts = counts_at(self.stage);
        (!counts || self.packets < MOST_PACKETS)
            && (!counts || self.bytes < MOST_BYTES)
            && (!copies_after(self.stage) || self.handled < MOST_CHAINS)
            && (!few_done_at(self.stage) || vq.unpublished() < PUBLISHES_AT)
            && (2047 + u64::from(vq.unpublished())).saturating_sub(u64::from(self.handled))
                <= vq.reserved() as u64
    }

    // How many bytes the frame in hand needs.
    pub(crate) fn need(&self) -> u32
        ensures need { result ≡ need_in self.now.turn }
        ensures small { result ≤ 65547 }
    {
        match &self.held {
            Some(frame) => u32::from(self.hdr) + frame.bytes().len() as u32,
            None => 0,
        }
    }

    // How many chains a frame may go into.
    pub(crate) fn quota(&self) -> usize
        ensures { result ≡ quota self.now.turn.mergeable }
    {
        if self.mergeable { MOST_QUOTA } else { 1 }
    }

    /// What the turn did so far, with an end.
    pub(crate) fn report(&self, end: End) -> TurnEnd
        ensures { result ≡ rx_report self.now.turn end }
    {
        TurnEnd {
            packets: self.packets,
            bytes: self.bytes,
            end,
        }
    }

    /// Ends the frame in hand, if there is one. It takes no memory.
    pub fn abandon(self) {
        let RxWorker {
            ring: _,
            next: _,
            mergeable: _,
            hdr: _,
            packets: _,
            bytes: _,
            handled: _,
            held,
            chains: _,
            stage: _,
        } = self;
        if let Some(frame) = held {
            let _ = frame.end();
        }
    }
}

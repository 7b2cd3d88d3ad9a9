//! What the worker does at each stage.
ghost use Rattle.std.specs.Prelude.{◌≡◌, ◌+◌, ◌<◌, ◌≤◌, ◌||◌, false, true, [], None, Some, IfSome, IfOk, IfErr, IfNone, OnOk, OnErr};
ghost use Rattle.guest_mem.specs.Memory.{Contents, covers};
ghost use Rattle.vhost_queue.specs.Queue.{IsGood};
ghost use Rattle.vring_turns.specs.Ring.{LieIn, found};
ghost use Rattle.vring_turns.specs.RxTurn.{rx_after_packet, rx_copies, rx_publishes, rx_outs, rx_puts_back, rx_told, overrun, quota};
ghost use Rattle.tap_ledger.specs.Queue.{IsFinal, finished, put_back};
ghost use Rattle.vring_turns.specs.Turn.{event_of, IfMore};
ghost use Rattle.vring_turns.specs.Stage.{has_in_hand, rx_is_over};
ghost use Rattle.vhost_rx.specs.Worker.{HandsOut, Ended, EndsUntold, Stepped, name_in_hand, counts_at, IsSteady, Fits, Changes, state_of, need_in, ended_by};

use crate::front::front_of;
use crate::worker::{RxStep, RxWorker};
use guest_mem::Memory;
use tap_ledger::{Act, Cause, Fate, FrameQueue, Hand};
use vhost_queue::Vq;
use vring_turns::{End, RxStage, closing, is_enough, is_published};

impl RxWorker {
    // A packet is behind it: it did enough, or it publishes, or it goes on.
    fn after_packet(&self, vq: &Vq) -> RxStage
        ensures { result ≡ rx_after_packet self.now.turn vq.now.queue }
    {
        if is_enough(self.packets, self.bytes, self.handled) {
            closing(vq, End::Again)
        } else if is_published(vq.unpublished()) {
            RxStage::Publish { end: None }
        } else {
            RxStage::Hand
        }
    }

    // Takes a frame in hand, or ends where none is ready.
    fn hand<Q: FrameQueue>(&mut self, vq: &Vq, q: &mut Q) -> Result<Act, End>
        requires steady { IsSteady self.old vq.now }
        requires stage { self.old.turn.stage ≡ RxStage.Hand }
        requires free { (Q.queue q.old).in_hand ≡ None }
        ensures hands { IfOk result (HandsOut self.old self.new vq.now.queue (Q.queue q.old) (Q.queue q.new)) }
        ensures steady { OnOk result (IsSteady self.new vq.now) }
        ensures ended { IfErr result (Ended self.old (Q.queue q.old) (Q.queue q.new)) }
        ensures worker { IfErr result (λ end. self.new ≡ ended_by end self.old) }
        ensures chains { self.new.turn.chains ≡ self.old.turn.chains }
        ensures in_hand { OnOk result ((Q.queue q.new).in_hand ≡ name_in_hand self.new) }
    {
        match q.hand() {
            Hand::Got(frame) => {
                if let Some(other) = self.held.replace(frame) {
                    let _ = other.end();
                }
                self.stage = RxStage::Fetch;
                Ok(Act::Hand)
            }
            Hand::NotReady { place: _ } => {
                self.stage = closing(vq, End::Idle);
                Ok(Act::NotReady)
            }
            Hand::Off => {
                self.stage = RxStage::Ended(End::Off);
                Err(End::Off)
            }
            Hand::NoMemory => {
                self.stage = RxStage::Ended(End::NoMemory);
                Err(End::NoMemory)
            }
        }
    }

    // Lays the frame in hand into the chains, which are done then.
    fn copy(&mut self, vq: &mut Vq, mem: &mut Memory) -> Act
        requires steady { IsSteady self.old vq.old }
        requires stage { self.old.turn.stage ≡ RxStage.Copy }
        requires lies { LieIn (covers mem.old.regions) self.old.turn.chains }
        ensures step { IfSome self.old.turn.held (λ frame. Changes (rx_copies frame)
            self.old vq.old.queue mem.old self.new vq.new.queue mem.new result) }
        ensures steady { IsSteady self.new vq.new }
        ensures chains { self.new.turn.chains ≡ [] }
        ensures layout { vq.new.queue.layout ≡ vq.old.queue.layout }
        ensures regions { mem.new.regions ≡ mem.old.regions }
        ensures held { self.new.turn.held ≡ self.old.turn.held }
    {
        let need = self.need();
        let count = self.chains.len();
        let position = vq.position().wrapping_sub(count as u16);
        match &self.held {
            Some(frame) => {
                let name = frame.name();
                let front = front_of(frame.hdr(), count as u16);
                self.chains
                    .lay(mem, &front[..usize::from(self.hdr)], frame.bytes());
                self.chains.finish(vq, need);
                self.handled += count as u32;
                self.stage = RxStage::Out;
                Act::Copy { position, name }
            }
            None => unreachable!(),
        }
    }

    // Lets the frame in hand out with a fate, as a packet of so many bytes.
    fn out<Q: FrameQueue>(&mut self, vq: &Vq, q: &mut Q, fate: Fate, bytes: u32) -> Act
        requires steady { IsSteady self.old vq.now }
        requires counts { counts_at self.old.turn.stage ≡ true }
        requires holds { has_in_hand self.old.turn.stage ≡ true }
        requires none { self.old.turn.chains ≡ [] }
        requires may_be { IsFinal fate }
        requires small { bytes ≤ 65547 }
        requires unstopped { vq.now.queue.stopped ≡ None }
        requires held { (Q.queue q.old).in_hand ≡ name_in_hand self.old }
        ensures step { IfSome self.old.turn.held (λ frame. (m : Contents)
            → rx_outs bytes frame (state_of self.old vq.now.queue m) ≡ (state_of self.new vq.now.queue m, result)) }
        ensures moved { IfSome self.old.turn.held (λ frame. Q.queue q.new ≡ finished frame fate (Q.queue q.old)) }
        ensures steady { IsSteady self.new vq.now }
        ensures chains { self.new.turn.chains ≡ [] }
        ensures free { (Q.queue q.new).in_hand ≡ None }
        ensures none_held { self.new.turn.held ≡ None }
    {
        self.packets += 1;
        self.bytes += u64::from(bytes);
        self.stage = self.after_packet(vq);
        match self.held.take() {
            Some(frame) => {
                let name = frame.name();
                q.finish(frame, fate);
                Act::Out { name }
            }
            None => unreachable!(),
        }
    }

    // Puts the frame in hand back, and ends.
    fn put_back<Q: FrameQueue>(&mut self, vq: &Vq, q: &mut Q, end: End) -> Act
        requires steady { IsSteady self.old vq.now }
        requires stage { self.old.turn.stage ≡ RxStage.PutBack end }
        requires held { (Q.queue q.old).in_hand ≡ name_in_hand self.old }
        ensures step { (m : Contents) → rx_puts_back end (state_of self.old vq.now.queue m)
            ≡ (state_of self.new vq.now.queue m, result) }
        ensures moved { IfSome self.old.turn.held (λ frame. Q.queue q.new ≡ put_back frame (Q.queue q.old)) }
        ensures steady { IsSteady self.new vq.now }
        ensures chains { self.new.turn.chains ≡ self.old.turn.chains }
        ensures free { (Q.queue q.new).in_hand ≡ None }
        ensures none_held { self.new.turn.held ≡ None }
    {
        self.stage = closing(vq, end);
        match self.held.take() {
            Some(frame) => {
                q.put_back(frame);
                Act::PutBack
            }
            None => unreachable!(),
        }
    }

    // Publishes what is done, and then goes on or ends.
    fn publish(&mut self, vq: &mut Vq, mem: &mut Memory, end: Option<End>) -> Act
        requires good { IsGood vq.old.queue mem.old }
        requires steady { IsSteady self.old vq.old }
        requires stage { self.old.turn.stage ≡ RxStage.Publish end }
        ensures step { Changes (rx_publishes end)
            self.old vq.old.queue mem.old self.new vq.new.queue mem.new result }
        ensures steady { IsSteady self.new vq.new }
        ensures chains { self.new.turn.chains ≡ self.old.turn.chains }
        ensures layout { vq.new.queue.layout ≡ vq.old.queue.layout }
        ensures regions { mem.new.regions ≡ mem.old.regions }
        ensures held { self.new.turn.held ≡ self.old.turn.held }
    {
        let count = vq.unpublished();
        let call = vq.publish(mem);
        self.stage = match end {
            None => RxStage::Hand,
            Some(end) => RxStage::Ended(end),
        };
        Act::Publish { count, call }
    }

    // The event that comes next, or why the turn ended without one.
    fn event<Q: FrameQueue>(&mut self, vq: &mut Vq, q: &mut Q, mem: &mut Memory) -> Result<Act, End>
        requires fits { Fits self.old vq.old }
        requires good { IsGood vq.old.queue mem.old }
        requires lies { LieIn (covers mem.old.regions) self.old.turn.chains }
        requires in_hand { (Q.queue q.old).in_hand ≡ name_in_hand self.old }
        ensures event { IfOk result (Stepped (state_of self.old vq.old.queue mem.old)
            (state_of self.new vq.new.queue mem.new) (Q.queue q.old) (Q.queue q.new)) }
        ensures steady { OnOk result (IsSteady self.new vq.new) }
        ensures in_hand { OnOk result ((Q.queue q.new).in_hand ≡ name_in_hand self.new) }
        ensures ended { IfErr result (Ended self.old (Q.queue q.old) (Q.queue q.new)) }
        ensures worker { IfErr result (λ end. self.new ≡ ended_by end self.old) }
        ensures queue { OnErr result (vq.new ≡ vq.old) }
        ensures memory { OnErr result (mem.new ≡ mem.old) }
        ensures lies { LieIn (covers mem.new.regions) self.new.turn.chains }
        ensures layout { vq.new.queue.layout ≡ vq.old.queue.layout }
        ensures regions { mem.new.regions ≡ mem.old.regions }
    {
        match self.stage {
            RxStage::Begin => Ok(self.notices_first(vq, mem)),
            RxStage::Hand => self.hand(vq, q),
            RxStage::Fetch => Ok(self.fetch(vq, mem, false)),
            RxStage::NoticesOn => Ok(self.notices_on(vq, mem)),
            RxStage::FetchAgain => Ok(self.fetch(vq, mem, true)),
            RxStage::NoticesOff { after } => Ok(self.notices_off(vq, mem, after)),
            RxStage::Copy => Ok(self.copy(vq, mem)),
            RxStage::Out => {
                let bytes = self.need();
                Ok(self.out(vq, q, Fate::Guest, bytes))
            }
            RxStage::Discard { had } => {
                let fate = self.overrun(had);
                Ok(self.out(vq, q, fate, 0))
            }
            RxStage::PutBack { end } => Ok(self.put_back(vq, q, end)),
            RxStage::Publish { end } => Ok(self.publish(vq, mem, end)),
            RxStage::Ended(_) => unreachable!(),
        }
    }

    // The fate of a frame whose chains had so many bytes only.
    fn overrun(&self, had: u64) -> Fate
        ensures fate { result ≡ overrun self.now.turn.mergeable (need_in self.now.turn) had }
        ensures may_be { IsFinal result }
    {
        Fate::Discarded(Cause::Overrun {
            need: self.need(),
            quota: self.quota() as u16,
            had,
        })
    }

    // What a step answers that made an event.
    fn told(&self, act: Act) -> RxStep
        ensures told { result ≡ rx_told self.now.turn self.now.turn.stage act }
        ensures event { event_of result ≡ Some act }
        ensures more { IfMore result (rx_is_over self.now.turn.stage ≡ false) }
    {
        match self.stage {
            RxStage::Ended(end) => RxStep::Ended {
                act: Some(act),
                turn: self.report(end),
            },
            _ => RxStep::More(act),
        }
    }

    /// Makes the one event that comes next, and tells it.
    ///
    /// The turn is over where it tells a report. Then the last event is told with it; where the queue of
    /// frames was off or found no memory, none was made, and nothing but the turn and that queue changed.
    pub fn step<Q: FrameQueue>(&mut self, vq: &mut Vq, q: &mut Q, mem: &mut Memory) -> RxStep
        requires fits { Fits self.old vq.old }
        requires good { IsGood vq.old.queue mem.old }
        requires lies { LieIn (covers mem.old.regions) self.old.turn.chains }
        requires in_hand { (Q.queue q.old).in_hand ≡ name_in_hand self.old }

        ensures event { IfSome (event_of result) (Stepped (state_of self.old vq.old.queue mem.old)
            (state_of self.new vq.new.queue mem.new) (Q.queue q.old) (Q.queue q.new)) }
        ensures told { IfSome (event_of result) (λ act. result ≡ rx_told self.new.turn self.new.turn.stage act) }

        ensures ended { IfNone (event_of result) (EndsUntold self.old self.new result (Q.queue q.old) (Q.queue q.new)) }
        ensures queue { IfNone (event_of result) (vq.new ≡ vq.old) }
        ensures memory { IfNone (event_of result) (mem.new ≡ mem.old) }

        ensures fits { IfMore result (Fits self.new vq.new) }
        ensures in_hand { IfMore result ((Q.queue q.new).in_hand ≡ name_in_hand self.new) }
        ensures good { IsGood vq.new.queue mem.new }
        ensures lies { LieIn (covers mem.new.regions) self.new.turn.chains }
        ensures regions { mem.new.regions ≡ mem.old.regions }
    {
        match self.event(vq, q, mem) {
            Ok(act) => self.told(act),
            Err(end) => RxStep::Ended {
                act: None,
                turn: self.report(end),
            },
        }
    }
}

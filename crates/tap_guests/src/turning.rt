//! Turns on the receive ring of a vhost: they begin, and make one step after another.

ghost use Rattle.std.specs.Prelude.{◌≡◌, false, true, Some, None, IfNone, IfOk, IfSome, IsSomeAnd, OnErr, OnOk, is_some, option_map, if◌then◌else◌};
ghost use Rattle.tap_guests.specs.Turning.{RxGivesUp, RxGoes, RxSteps};
ghost use Rattle.tap_guests.specs.Within.{IsIn};
ghost use Rattle.tap_ledger.specs.declared.act.Act.TheVariants as act;
ghost use Rattle.tap_ledger.specs.declared.hand.Hand.TheVariants as handed;
ghost use Rattle.tap_world.specs.Guests.{is_free};
ghost use Rattle.tap_world.specs.StepTurns.{is_off as is_off_by};
ghost use Rattle.vhost_dev.specs.Settings.{hdr_of, ring_at};
ghost use Rattle.vhost_step.specs.Receive.{rx_went};
ghost use Rattle.vring_turns.specs.RxTurn.{rx_begun};
ghost use Rattle.vring_turns.specs.Stage.{is_asking};

use crate::side::VhostSide;
use guest_mem::Memory;
use std::alloc::{AllocError, Global};
use tap_frame::Frame;
use tap_ledger::Act;
use tap_trace::{Kind, TurnText};
use vhost_rx::RxWorker;
use vhost_step::{RxBegun, RxDid, begin_rx, find_none, hand_over, leave_idle, step_rx};
use vring_turns::{RxStage, TurnEnd};

// The worker goes on, or is ended with its turn, which is free then.
fn keep(
    worker: RxWorker,
    over: Option<TurnEnd>,
    place: &mut Option<RxWorker>,
    turn: &mut Option<u32>,
)
    ensures worker { place.new ≡ (if is_some over then place.old else Some worker) }
    ensures turn { turn.new ≡ (if is_some over then None else turn.old) }
{
    if over.is_some() {
        worker.abandon();
        *turn = None;
    } else if let Some(other) = place.replace(worker) {
        other.abandon();
    }
}

impl VhostSide {
    /// How a turn of this vhost on a ring ends at once, if it does: the ring has no backend, or is stopped. Its answer
    /// and its step tell that.
    pub fn off(&self, vhost: u16, ring: u16) -> Option<(TurnText, Kind)>
        ensures off { result ≡ is_off_by vhost ring self.now.vhost }
        ensures backed { IfNone result (is_some (ring_at ring self.now.vhost.settings).file ≡ true) }
        ensures running { IfNone result ((ring_at ring self.now.vhost.settings).queue.stopped ≡ None) }
    {
        let rx = ring == 0;
        if self.dev.backend(rx).is_none() {
            return Some((TurnText::Off, Kind::Off { vhost, ring }));
        }
        let fault = self.dev.queue(rx).stopped()?.number();
        Some((TurnText::Stopped(fault), Kind::Stopped { vhost, ring }))
    }

    /// Where the receive turn that is under way stands: which step comes next.
    pub fn rx_stage(&self) -> Option<RxStage>
        ensures { result ≡ option_map (λ w. w.turn.stage) self.now.rx }
    {
        match &self.rx {
            Some(worker) => Some(worker.stage()),
            None => None,
        }
    }

    /// Begins a receive turn for a holder, and makes its first step, which turns notices off.
    ///
    /// Where memory runs out nothing changed.
    pub fn begin_rx(
        &mut self,
        alloc: Global,
        holder: u32,
        mem: &mut Memory,
    ) -> Result<Act, AllocError>
        requires backed { is_some self.old.vhost.settings.rx.file ≡ true }
        requires running { self.old.vhost.settings.rx.queue.stopped ≡ None }
        requires free { is_free 0 self.old.vhost ≡ true }
        requires within { IsIn mem.old.regions self.old }
        ensures step { IfOk result (λ act. RxSteps handed.Off
            (rx_begun self.old.vhost.settings.mrg (hdr_of self.old.vhost.settings)) holder
            self.old mem.old act None self.new mem.new) }
        ensures unchanged { OnErr result (self.new ≡ self.old) }
        ensures memory_unchanged { OnErr result (mem.new ≡ mem.old) }
        ensures regions { mem.new.regions ≡ mem.old.regions }
        ensures within { IsIn mem.new.regions self.new }
    {
        let mergeable = self.dev.mrg();
        let hdr = self.dev.hdr();
        let RxBegun { worker, act } = begin_rx(alloc, self.dev.vq(true), mem, mergeable, hdr)?;
        self.rx_turn = Some(holder);
        keep(worker, None, &mut self.rx, &mut self.rx_turn);
        Ok(act)
    }

    /// Makes the next step of the receive turn that is under way, where that doesn't ask for a frame. The frame in hand
    /// comes back exactly in the step that puts it back, and is spent in the one that lets it out.
    pub fn step_rx(&mut self, mem: &mut Memory) -> RxDid
        requires stage { IsSomeAnd self.old.rx (λ w. is_asking w.turn.stage ≡ false) }
        requires within { IsIn mem.old.regions self.old }
        ensures step { RxGoes handed.Off self.old mem.old result.act result.over self.new mem.new }
        ensures went { IfSome self.old.rx (λ w. result.went ≡ rx_went w.turn.stage w.turn) }
        ensures regions { mem.new.regions ≡ mem.old.regions }
        ensures within { IsIn mem.new.regions self.new }
    {
        match self.rx.take() {
            Some(mut worker) => {
                let did = step_rx(&mut worker, self.dev.vq(true), mem);
                keep(worker, did.over, &mut self.rx, &mut self.rx_turn);
                did
            }
            None => unreachable!(),
        }
    }

    /// Hands a frame to the receive turn that is under way, which asks for one.
    ///
    /// Where memory runs out the frame is spent, and the turn is over without an answer.
    pub fn hand_over(&mut self, frame: Frame, mem: &mut Memory) -> Result<(), AllocError>
        requires stage { IsSomeAnd self.old.rx (λ w. w.turn.stage ≡ RxStage.Hand) }
        requires within { IsIn mem.old.regions self.old }
        ensures step { OnOk result (RxGoes (handed.Got frame) self.old mem.old act.Hand None self.new mem.new) }
        ensures ended { OnErr result (RxGivesUp self.old self.new) }
        ensures regions { mem.new.regions ≡ mem.old.regions }
        ensures within { IsIn mem.new.regions self.new }
    {
        match self.rx.take() {
            Some(mut worker) => match hand_over(&mut worker, self.dev.vq(true), mem, frame) {
                Ok(()) => {
                    keep(worker, None, &mut self.rx, &mut self.rx_turn);
                    Ok(())
                }
                Err(error) => {
                    worker.abandon();
                    self.rx_turn = None;
                    leave_idle(self.dev.vq(true), mem);
                    Err(error)
                }
            },
            None => unreachable!(),
        }
    }

    /// Tells the receive turn that is under way, which asks for a frame, that the one at this place isn't ready. It
    /// answers what the turn did, where it is over.
    ///
    /// Where memory runs out the turn is over without an answer.
    pub fn find_none(&mut self, place: u64, mem: &mut Memory) -> Result<Option<TurnEnd>, AllocError>
        requires stage { IsSomeAnd self.old.rx (λ w. w.turn.stage ≡ RxStage.Hand) }
        requires within { IsIn mem.old.regions self.old }
        ensures step { IfOk result (λ over.
            RxGoes (handed.NotReady place) self.old mem.old act.NotReady over self.new mem.new) }
        ensures ended { OnErr result (RxGivesUp self.old self.new) }
        ensures regions { mem.new.regions ≡ mem.old.regions }
        ensures within { IsIn mem.new.regions self.new }
    {
        match self.rx.take() {
            Some(mut worker) => match find_none(&mut worker, self.dev.vq(true), mem, place) {
                Ok(over) => {
                    keep(worker, over, &mut self.rx, &mut self.rx_turn);
                    Ok(over)
                }
                Err(error) => {
                    worker.abandon();
                    self.rx_turn = None;
                    leave_idle(self.dev.vq(true), mem);
                    Err(error)
                }
            },
            None => unreachable!(),
        }
    }
}

//! Turns on the transmit ring of a vhost: they begin, and make one step after another.

ghost use Rattle.std.specs.Prelude.{◌≡◌, true, Some, None, IfOk, IfSome, OnErr, is_some, if◌then◌else◌};
ghost use Rattle.tap_guests.specs.Turning.{TxGivesUp, TxGoes, TxSteps};
ghost use Rattle.tap_guests.specs.Within.{IsIn};
ghost use Rattle.tap_world.specs.Guests.{is_free};
ghost use Rattle.vhost_dev.specs.Settings.{hdr_of};
ghost use Rattle.vhost_step.specs.Transmit.{tx_given};
ghost use Rattle.vring_turns.specs.TxTurn.{tx_begun};

use crate::side::VhostSide;
use guest_mem::Memory;
use std::alloc::{AllocError, Global};
use tap_frame::Name;
use tap_ledger::Act;
use vhost_step::{TxBegun, TxDid, begin_tx, leave_idle, step_tx};
use vhost_tx::TxWorker;
use vring_turns::TurnEnd;

// The worker goes on, or is ended with its turn, which is free then.
fn keep(
    worker: TxWorker,
    over: Option<TurnEnd>,
    place: &mut Option<TxWorker>,
    turn: &mut Option<u32>,
)
    ensures worker { place.new ≡ (if is_some over then place.old else Some worker) }
    ensures turn { turn.new ≡ (if is_some over then None else turn.old) }
{
    if over.is_some() {
        worker.abandon();
        *turn = None;
    } else if let Some(other) = place.replace(worker) {
        other.abandon();
    }
}

impl VhostSide {
    /// Begins a transmit turn for a holder, and makes its first step, which turns notices off. The turn's first frame
    /// gets the name, with part 0.
    ///
    /// Where memory runs out nothing changed.
    pub fn begin_tx(
        &mut self,
        alloc: Global,
        holder: u32,
        name: Name,
        mem: &mut Memory,
    ) -> Result<Act, AllocError>
        requires backed { is_some self.old.vhost.settings.tx.file ≡ true }
        requires running { self.old.vhost.settings.tx.queue.stopped ≡ None }
        requires free { is_free 1 self.old.vhost ≡ true }
        requires within { IsIn mem.old.regions self.old }
        ensures step { IfOk result (λ act. TxSteps (tx_begun (hdr_of self.old.vhost.settings) name) holder
            self.old mem.old act None None self.new mem.new) }
        ensures unchanged { OnErr result (self.new ≡ self.old) }
        ensures memory_unchanged { OnErr result (mem.new ≡ mem.old) }
        ensures regions { mem.new.regions ≡ mem.old.regions }
        ensures within { IsIn mem.new.regions self.new }
    {
        let hdr = self.dev.hdr();
        let TxBegun { worker, act } = begin_tx(alloc, self.dev.vq(false), mem, hdr, name)?;
        self.tx_turn = Some(holder);
        keep(worker, None, &mut self.tx, &mut self.tx_turn);
        Ok(act)
    }

    /// Makes the next step of the transmit turn that is under way. It gives up the frame that the host was given,
    /// exactly in the step that gives one.
    ///
    /// Where memory runs out the turn is over without an answer.
    pub fn step_tx(&mut self, mem: &mut Memory) -> Result<TxDid, AllocError>
        requires served { is_some self.old.tx ≡ true }
        requires within { IsIn mem.old.regions self.old }
        ensures step { IfOk result (λ did. TxGoes self.old mem.old did.act did.given did.over self.new mem.new) }
        ensures given { IfOk result (λ did. IfSome self.old.tx (λ w. did.given ≡ tx_given w.turn.stage w.turn)) }
        ensures ended { OnErr result (TxGivesUp self.old self.new) }
        ensures regions { mem.new.regions ≡ mem.old.regions }
        ensures within { IsIn mem.new.regions self.new }
    {
        match self.tx.take() {
            Some(mut worker) => match step_tx(&mut worker, self.dev.vq(false), mem) {
                Ok(did) => {
                    keep(worker, did.over, &mut self.tx, &mut self.tx_turn);
                    Ok(did)
                }
                Err(error) => {
                    worker.abandon();
                    self.tx_turn = None;
                    leave_idle(self.dev.vq(false), mem);
                    Err(error)
                }
            },
            None => unreachable!(),
        }
    }
}

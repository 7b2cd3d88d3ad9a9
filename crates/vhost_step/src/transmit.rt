//! Steps of a transmit turn.

ghost use Rattle.std.specs.Prelude.{◌≡◌, Some, None, IfOk, IfNone, IsTrue, OnErr, OnSome};
ghost use Rattle.guest_mem.specs.Memory.{covers};
ghost use Rattle.vhost_queue.specs.Positions.{IsIdle};
ghost use Rattle.vhost_queue.specs.Queue.{IsGood};
ghost use Rattle.vring_turns.specs.Ring.{LieIn};
ghost use Rattle.vring_turns.specs.TxTurn.{at_stage, tx_begun, tx_step};
ghost use Rattle.vring_turns.specs.Standing.{TxStands};
ghost use Rattle.vring_turns.specs.TransmitBytes.{is_header_size};
ghost use Rattle.vhost_tx.specs.Worker.{Fits, state_of};
ghost use Rattle.vhost_step.specs.Queues.{one_host};
ghost use Rattle.vhost_step.specs.Transmit.{tx_did, tx_given};

use crate::one_host::OneHost;
use crate::told::{Made, outcome};
use guest_mem::Memory;
use std::alloc::{AllocError, Global};
use tap_frame::{Frame, Name};
use tap_ledger::Act;
use vhost_queue::Vq;
use vhost_tx::TxWorker;
use vring_turns::{End, TurnEnd, TxStage, transmit_standing};

/// What a step of a transmit turn did.
pub struct TxDid {
    /// The event that it made.
    pub act: Act,
    /// The frame that the host was given, if it was given one.
    pub given: Option<Frame>,
    /// What the turn did, where it is over.
    pub over: Option<TurnEnd>,
}

/// A transmit turn with its first step made.
pub struct TxBegun {
    /// Its worker.
    pub worker: TxWorker,
    /// The event of the step: notices were turned off.
    pub act: Act,
}

/// Begins a turn on a ring's queue, and makes its first step: notices are turned off. Frames have a header of `hdr`
/// bytes, 10 or 12, in front of them, and the first gets the name, with part 0.
///
/// Where memory runs out nothing changed.
pub fn begin_tx(
    alloc: Global,
    vq: &mut Vq,
    mem: &mut Memory,
    hdr: u16,
    name: Name,
) -> Result<TxBegun, AllocError>
    requires size { IsTrue (is_header_size hdr) }
    requires idle { IsIdle vq.old.queue.positions }
    requires running { vq.old.queue.stopped ≡ None }
    requires good { IsGood vq.old.queue mem.old }

    ensures step { IfOk result (λ b.
        tx_step (record {
          turn = tx_begun hdr name;
          queue = vq.old.queue;
          memory = mem.old;
          host = one_host None;
        }) ≡ Some (state_of b.worker vq.new.queue mem.new (one_host None), b.act)) }
    ensures goes_on { IfOk result (λ b. tx_did b.worker.turn.stage b.worker.turn ≡ None) }
    ensures fits { IfOk result (λ b. Fits b.worker vq.new) }
    ensures stands { IfOk result (λ b. TxStands b.worker.turn vq.new.queue) }
    ensures lies { IfOk result (λ b. LieIn (covers mem.new.regions) b.worker.turn.chains) }
    ensures good { IsGood vq.new.queue mem.new }
    ensures regions { mem.new.regions ≡ mem.old.regions }
    ensures queue_stays { OnErr result (vq.new ≡ vq.old) }
    ensures memory_stays { OnErr result (mem.new ≡ mem.old) }
{
    transmit_standing();
    let mut worker = TxWorker::begin(alloc, vq, hdr, name)?;
    match step_tx(&mut worker, vq, mem) {
        Ok(
            TxDid {
                act,
                given,
                over: _,
            },
        ) => {
            end(given);
            Ok(TxBegun { worker, act })
        }
        Err(error) => {
            worker.abandon();
            Err(error)
        }
    }
}

// Ends a frame, if there is one.
fn end(frame: Option<Frame>) {
    if let Some(frame) = frame {
        let _ = frame.end();
    }
}

/// Makes the one step that comes next. It gives up the frame that the host was given, exactly in the step that gives
/// one. The ring is idle where the turn is over.
///
/// Where memory runs out, which is in a step that reads the bytes of a chain, the turn has ended without an event, and
/// nothing else changed.
pub fn step_tx(worker: &mut TxWorker, vq: &mut Vq, mem: &mut Memory) -> Result<TxDid, AllocError>
    requires fits { Fits worker.old vq.old }
    requires stands { TxStands worker.old.turn vq.old.queue }
    requires good { IsGood vq.old.queue mem.old }
    requires lies { LieIn (covers mem.old.regions) worker.old.turn.chains }

    ensures step { IfOk result (λ did. tx_step (state_of worker.old vq.old.queue mem.old (one_host None))
        ≡ Some (state_of worker.new vq.new.queue mem.new (one_host did.given), did.act)) }
    ensures given { IfOk result (λ did. did.given ≡ tx_given worker.old.turn.stage worker.old.turn) }
    ensures over { IfOk result (λ did. did.over ≡ tx_did worker.new.turn.stage worker.new.turn) }
    ensures fits { IfOk result (λ did. IfNone did.over (Fits worker.new vq.new)) }
    ensures stands { IfOk result (λ did. TxStands worker.new.turn vq.new.queue) }
    ensures idle { IfOk result (λ did. OnSome did.over (IsIdle vq.new.queue.positions)) }
    ensures lies { LieIn (covers mem.new.regions) worker.new.turn.chains }
    ensures good { IsGood vq.new.queue mem.new }
    ensures regions { mem.new.regions ≡ mem.old.regions }
    ensures ended { OnErr result (worker.new.turn ≡ at_stage (TxStage.Ended End.NoMemory) worker.old.turn) }
    ensures reading { OnErr result (worker.old.turn.stage ≡ TxStage.Copy) }
    ensures queue_stays { OnErr result (vq.new.queue ≡ vq.old.queue) }
    ensures memory_stays { OnErr result (mem.new ≡ mem.old) }
{
    transmit_standing();
    let mut host = OneHost::new();
    let step = worker.step(vq, mem, &mut host);
    let given = host.given();
    match outcome(step) {
        Ok(Made { act, over }) => Ok(TxDid { act, given, over }),
        Err(error) => {
            end(given);
            Err(error)
        }
    }
}

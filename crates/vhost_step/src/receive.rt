//! Steps of a receive turn.

ghost use Rattle.std.specs.Prelude.{◌≡◌, false, Some, None, IfOk, IfNone, IsTrue, OnErr, OnOk, OnSome};
ghost use Rattle.guest_mem.specs.Memory.{covers};
ghost use Rattle.tap_ledger.specs.declared.act.Act.TheVariants as act;
ghost use Rattle.tap_ledger.specs.declared.hand.Hand.TheVariants as handed;
ghost use Rattle.vhost_queue.specs.Positions.{IsIdle};
ghost use Rattle.vhost_queue.specs.Queue.{IsGood};
ghost use Rattle.vring_turns.specs.Ring.{LieIn};
ghost use Rattle.vring_turns.specs.RxTurn.{rx_begun, rx_step};
ghost use Rattle.vring_turns.specs.Stage.{is_asking};
ghost use Rattle.vring_turns.specs.Standing.{RxStands};
ghost use Rattle.vring_turns.specs.TransmitBytes.{is_header_size};
ghost use Rattle.vhost_rx.specs.Worker.{Fits, ended_by, state_of};
ghost use Rattle.vhost_step.specs.Receive.{rx_did, rx_went};

use crate::Went;
use crate::one_frame::OneFrame;
use crate::told::{Made, outcome};
use guest_mem::Memory;
use std::alloc::{AllocError, Global};
use tap_frame::Frame;
use tap_ledger::Act;
use vhost_queue::Vq;
use vhost_rx::RxWorker;
use vring_turns::{End, RxStage, TurnEnd, receive_standing};

/// What a step of a receive turn did.
pub struct RxDid {
    /// The event that it made.
    pub act: Act,
    /// Where the frame in hand went.
    pub went: Went,
    /// What the turn did, where it is over.
    pub over: Option<TurnEnd>,
}

/// A receive turn with its first step made.
pub struct RxBegun {
    /// Its worker, which asks for a frame.
    pub worker: RxWorker,
    /// The event of the step: notices were turned off.
    pub act: Act,
}

/// Begins a turn on a ring's queue, and makes its first step: notices are turned off. Frames may go into several chains
/// where `mergeable` says so, and have a header of `hdr` bytes, 10 or 12, in front of them: 12 where they may.
///
/// Where memory runs out nothing changed.
pub fn begin_rx(
    alloc: Global,
    vq: &mut Vq,
    mem: &mut Memory,
    mergeable: bool,
    hdr: u16,
) -> Result<RxBegun, AllocError>
    requires size { IsTrue (is_header_size hdr) }
    requires with_mergeable { IsTrue mergeable → hdr ≡ 12 }
    requires idle { IsIdle vq.old.queue.positions }
    requires running { vq.old.queue.stopped ≡ None }
    requires good { IsGood vq.old.queue mem.old }

    ensures step { IfOk result (λ b.
        rx_step handed.Off (record { turn = rx_begun mergeable hdr; queue = vq.old.queue; memory = mem.old })
        ≡ Some (state_of b.worker vq.new.queue mem.new, b.act)) }
    ensures goes_on { IfOk result (λ b. rx_did b.worker.turn.stage b.worker.turn ≡ None) }
    ensures fits { IfOk result (λ b. Fits b.worker vq.new) }
    ensures stands { IfOk result (λ b. RxStands b.worker.turn vq.new.queue) }
    ensures lies { IfOk result (λ b. LieIn (covers mem.new.regions) b.worker.turn.chains) }
    ensures good { IsGood vq.new.queue mem.new }
    ensures regions { mem.new.regions ≡ mem.old.regions }
    ensures queue_stays { OnErr result (vq.new ≡ vq.old) }
    ensures memory_stays { OnErr result (mem.new ≡ mem.old) }
{
    receive_standing();
    let mut worker = RxWorker::begin(alloc, vq, mergeable, hdr)?;
    let RxDid { act, went, over: _ } = step_rx(&mut worker, vq, mem);
    went.abandon();
    Ok(RxBegun { worker, act })
}

/// Hands a frame to a worker that asks for one.
///
/// Where memory runs out the frame is spent, the turn has ended without an event, and nothing else changed.
pub fn hand_over(
    worker: &mut RxWorker,
    vq: &mut Vq,
    mem: &mut Memory,
    frame: Frame,
) -> Result<(), AllocError>
    requires stage { worker.old.turn.stage ≡ RxStage.Hand }
    requires fits { Fits worker.old vq.old }
    requires stands { RxStands worker.old.turn vq.old.queue }
    requires good { IsGood vq.old.queue mem.old }
    requires lies { LieIn (covers mem.old.regions) worker.old.turn.chains }

    ensures step { OnOk result (rx_step (handed.Got frame) (state_of worker.old vq.old.queue mem.old)
        ≡ Some (state_of worker.new vq.new.queue mem.new, act.Hand)) }
    ensures goes_on { OnOk result (rx_did worker.new.turn.stage worker.new.turn ≡ None) }
    ensures fits { OnOk result (Fits worker.new vq.new) }
    ensures stands { OnOk result (RxStands worker.new.turn vq.new.queue) }
    ensures lies { LieIn (covers mem.new.regions) worker.new.turn.chains }
    ensures good { IsGood vq.new.queue mem.new }
    ensures regions { mem.new.regions ≡ mem.old.regions }
    ensures ended { OnErr result (worker.new ≡ ended_by End.NoMemory worker.old) }
    ensures queue_stays { OnErr result (vq.new ≡ vq.old) }
    ensures memory_stays { OnErr result (mem.new ≡ mem.old) }
{
    receive_standing();
    let mut one = OneFrame::Waits(frame);
    let step = worker.step(vq, &mut one, mem);
    one.abandon();
    let Made { act: _, over: _ } = outcome(step)?;
    Ok(())
}

/// Tells a worker that asks for a frame that the one at this place isn't ready. It answers what the turn did, where it
/// is over: it goes on to a publication where something is done.
///
/// Where memory runs out the turn has ended without an event, and nothing else changed.
pub fn find_none(
    worker: &mut RxWorker,
    vq: &mut Vq,
    mem: &mut Memory,
    place: u64,
) -> Result<Option<TurnEnd>, AllocError>
    requires stage { worker.old.turn.stage ≡ RxStage.Hand }
    requires fits { Fits worker.old vq.old }
    requires stands { RxStands worker.old.turn vq.old.queue }
    requires good { IsGood vq.old.queue mem.old }
    requires lies { LieIn (covers mem.old.regions) worker.old.turn.chains }

    ensures step { OnOk result (rx_step (handed.NotReady place) (state_of worker.old vq.old.queue mem.old)
        ≡ Some (state_of worker.new vq.new.queue mem.new, act.NotReady)) }
    ensures over { IfOk result (λ over. over ≡ rx_did worker.new.turn.stage worker.new.turn) }
    ensures fits { IfOk result (λ over. IfNone over (Fits worker.new vq.new)) }
    ensures stands { OnOk result (RxStands worker.new.turn vq.new.queue) }
    ensures idle { IfOk result (λ over. OnSome over (IsIdle vq.new.queue.positions)) }
    ensures lies { LieIn (covers mem.new.regions) worker.new.turn.chains }
    ensures good { IsGood vq.new.queue mem.new }
    ensures regions { mem.new.regions ≡ mem.old.regions }
    ensures ended { OnErr result (worker.new ≡ ended_by End.NoMemory worker.old) }
    ensures queue_stays { OnErr result (vq.new ≡ vq.old) }
    ensures memory_stays { OnErr result (mem.new ≡ mem.old) }
{
    receive_standing();
    let mut none = OneFrame::NotReady { place };
    let step = worker.step(vq, &mut none, mem);
    none.abandon();
    let Made { act: _, over } = outcome(step)?;
    Ok(over)
}

/// Makes the one step that comes next, where that doesn't ask for a frame.
///
/// The frame in hand comes back exactly in the step that puts it back, and is spent in the one that lets it out, to the
/// guest or for want of room. The ring is idle where the turn is over.
pub fn step_rx(worker: &mut RxWorker, vq: &mut Vq, mem: &mut Memory) -> RxDid
    requires stage { is_asking worker.old.turn.stage ≡ false }
    requires fits { Fits worker.old vq.old }
    requires stands { RxStands worker.old.turn vq.old.queue }
    requires good { IsGood vq.old.queue mem.old }
    requires lies { LieIn (covers mem.old.regions) worker.old.turn.chains }

    ensures step { rx_step handed.Off (state_of worker.old vq.old.queue mem.old)
        ≡ Some (state_of worker.new vq.new.queue mem.new, result.act) }
    ensures went { result.went ≡ rx_went worker.old.turn.stage worker.old.turn }
    ensures over { result.over ≡ rx_did worker.new.turn.stage worker.new.turn }
    ensures fits { IfNone result.over (Fits worker.new vq.new) }
    ensures stands { RxStands worker.new.turn vq.new.queue }
    ensures idle { OnSome result.over (IsIdle vq.new.queue.positions) }
    ensures lies { LieIn (covers mem.new.regions) worker.new.turn.chains }
    ensures good { IsGood vq.new.queue mem.new }
    ensures regions { mem.new.regions ≡ mem.old.regions }
{
    receive_standing();
    let mut one = OneFrame::holding(worker.in_hand());
    let step = worker.step(vq, &mut one, mem);
    let went = one.went();
    match outcome(step) {
        Ok(Made { act, over }) => RxDid { act, went, over },
        Err(AllocError) => unreachable!(),
    }
}

//! Receive turns.
ghost use Rattle.std.specs.Prelude.{◌↔◌, IsTrue, IfSome, OnSome, IfNone};
ghost use Rattle.whole_turns.specs.Looking.{MayReceive};
ghost use Rattle.whole_turns.specs.Reports.{RxEnded, RxReports};

use crate::STEPS;
use guest_mem::Memory;
use tap_ledger::{FrameQueue, MemQueue};
use vhost_queue::Vq;
use vhost_rx::{RxStep, RxWorker};
use vring_turns::TurnEnd;
use vring_walk::is_good;

// Whether the next step may be made.
fn may(worker: &RxWorker, vq: &Vq, queue: &MemQueue, mem: &Memory) -> bool
    ensures { IsTrue result ↔ MayReceive worker.now vq.now mem.now queue.now.queue }
{
    is_good(mem, &vq.layout())
        && worker.fits(vq)
        && worker.lies_in(mem)
        && queue.in_hand() == worker.in_hand()
}

// One step, where one may be made.
fn step(
    worker: &mut RxWorker,
    vq: &mut Vq,
    queue: &mut MemQueue,
    mem: &mut Memory,
) -> Option<RxStep>
    ensures reports { IfSome result (RxReports worker.new.turn) }
    ensures made { OnSome result (MayReceive worker.old vq.old mem.old queue.old.queue) }
    ensures none { IfNone result (¬ MayReceive worker.old vq.old mem.old queue.old.queue) }
{
    if may(worker, vq, queue, mem) {
        Some(worker.step(vq, queue, mem))
    } else {
        None
    }
}

/// The steps that are left of a turn, and what it reports.
///
/// It answers None where the next step may not be made: the ring isn't a good one in the memory, the worker
/// doesn't fit the queue or its turn is over, what it fetched doesn't lie in the memory, or the queue of
/// frames has another frame in hand than the worker. The steps before that are made.
pub fn receive(
    worker: &mut RxWorker,
    vq: &mut Vq,
    queue: &mut MemQueue,
    mem: &mut Memory,
) -> Option<TurnEnd>
    ensures { IfSome result (RxEnded worker.new.turn) }
{
    for _ in 0..STEPS {
        if let RxStep::Ended { act: _, turn } = step(worker, vq, queue, mem)? {
            return Some(turn);
        }
    }
    None
}

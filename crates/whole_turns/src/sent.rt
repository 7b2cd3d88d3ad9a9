//! Transmit turns.
ghost use Rattle.std.specs.Prelude.{◌↔◌, IsTrue, IfSome, OnSome, IfNone};
ghost use Rattle.whole_turns.specs.Looking.{MayTransmit};
ghost use Rattle.whole_turns.specs.Reports.{TxEnded, TxReports};

use crate::STEPS;
use guest_mem::Memory;
use tap_ledger::{HostIn, MemHost};
use vhost_queue::Vq;
use vhost_tx::{TxStep, TxWorker};
use vring_turns::TurnEnd;
use vring_walk::is_good;

// Whether the next step may be made.
fn may(worker: &TxWorker, vq: &Vq, mem: &Memory, host: &MemHost) -> bool
    ensures { IsTrue result ↔ MayTransmit worker.now vq.now mem.now host.now }
{
    is_good(mem, &vq.layout()) && worker.fits(vq) && worker.lies_in(mem) && host.room() > 0
}

// One step, where one may be made.
fn step(worker: &mut TxWorker, vq: &mut Vq, mem: &mut Memory, host: &mut MemHost) -> Option<TxStep>
    ensures reports { IfSome result (TxReports worker.new.turn) }
    ensures made { OnSome result (MayTransmit worker.old vq.old mem.old host.old) }
    ensures none { IfNone result (¬ MayTransmit worker.old vq.old mem.old host.old) }
{
    if may(worker, vq, mem, host) {
        Some(worker.step(vq, mem, host))
    } else {
        None
    }
}

/// The steps that are left of a turn, and what it reports.
///
/// It answers None where the next step may not be made: the ring isn't a good one in the memory, the worker
/// doesn't fit the queue or its turn is over, what it fetched doesn't lie in the memory, or the host has no
/// room. The steps before that are made.
pub fn transmit(
    worker: &mut TxWorker,
    vq: &mut Vq,
    mem: &mut Memory,
    host: &mut MemHost,
) -> Option<TurnEnd>
    ensures { IfSome result (TxEnded worker.new.turn) }
{
    for _ in 0..STEPS {
        if let TxStep::Ended { act: _, turn } = step(worker, vq, mem, host)? {
            return Some(turn);
        }
    }
    None
}

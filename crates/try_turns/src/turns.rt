//! Turns, step by step.
use crate::lab::Lab;
use anyhow::{Context, Result, ensure};
use guest_mem::Memory;
use std::alloc::{AllocError, Global};
use tap_frame::Name;
use tap_ledger::{MemHost, MemQueue};
use vhost_queue::Vq;
use vhost_rx::RxWorker;
use vhost_tx::TxWorker;
use vring_turns::{End, TurnEnd, first_answer};

const NAME: Name = Name {
    actor: 0,
    turn: 0,
    part: 0,
};

/// An end as it is printed.
pub fn spelled(alloc: Global, end: End) -> Result<String, AllocError> {
    match end {
        End::Idle => format!(in alloc; "idle"),
        End::Short { need, had } => format!(in alloc; "short {need} {had}"),
        End::Again => format!(in alloc; "again"),
        End::Stopped(fault) => format!(in alloc; "stopped {}", fault.number()),
        End::Off => format!(in alloc; "off"),
        End::NoMemory => format!(in alloc; "no memory"),
    }
}

// A turn that does nothing.
fn none(end: End) -> TurnEnd {
    TurnEnd {
        packets: 0,
        bytes: 0,
        end,
    }
}

// A turn to a host that takes 1,000 frames.
fn send(alloc: Global, vq: &mut Vq, mem: &mut Memory, hdr: u16) -> Result<TurnEnd> {
    ensure!(hdr == 10 || hdr == 12, "the size of the header");
    ensure!(
        vq.is_idle() && vq.stopped().is_none(),
        "a turn is under way"
    );
    let mut worker = TxWorker::begin(alloc, vq, hdr, NAME)?;
    match MemHost::new(alloc, 1000) {
        Ok(mut host) => {
            let ended = whole_turns::transmit(&mut worker, vq, mem, &mut host);
            worker.abandon();
            host.abandon();
            ended.context("a step may not be made")
        }
        Err(error) => {
            worker.abandon();
            Err(error.into())
        }
    }
}

/// A transmit turn of the vhost.
pub fn transmit(alloc: Global, lab: &mut Lab) -> Result<TurnEnd> {
    let backed = lab.dev.backend(false).is_some();
    if let Some(end) = first_answer(backed, lab.dev.queue(false).stopped()) {
        return Ok(none(end));
    }
    let hdr = lab.dev.hdr();
    send(alloc, lab.dev.vq(false), &mut lab.mem, hdr)
}

fn take(
    alloc: Global,
    vq: &mut Vq,
    queue: &mut MemQueue,
    mem: &mut Memory,
    mergeable: bool,
    hdr: u16,
) -> Result<TurnEnd> {
    ensure!(
        hdr == 12 || hdr == 10 && !mergeable,
        "the size of the header"
    );
    ensure!(
        vq.is_idle() && vq.stopped().is_none(),
        "a turn is under way"
    );
    let mut worker = RxWorker::begin(alloc, vq, mergeable, hdr)?;
    let ended = whole_turns::receive(&mut worker, vq, queue, mem);
    worker.abandon();
    ended.context("a step may not be made")
}

/// A receive turn of the vhost.
pub fn receive(alloc: Global, lab: &mut Lab) -> Result<TurnEnd> {
    let backed = lab.dev.backend(true).is_some();
    if let Some(end) = first_answer(backed, lab.dev.queue(true).stopped()) {
        return Ok(none(end));
    }
    let hdr = lab.dev.hdr();
    let mergeable = lab.dev.mrg();
    let Lab {
        mem,
        dev,
        queue,
        ..
    } = lab;
    take(alloc, dev.vq(true), queue, mem, mergeable, hdr)
}

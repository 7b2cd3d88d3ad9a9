//! Turns of 256 packets, by a caller that looks before each step whether it may be made.
use crate::turns::ring::{HDR, Ring};
use anyhow::{Context, Result, bail, ensure};
use guest_mem::Memory;
use std::alloc::Global;
use std::time::Instant;
use tap_frame::{Name, Shape, read_frame};
use tap_ledger::{MemHost, MemQueue};
use vhost_queue::Vq;
use vhost_rx::RxWorker;
use vhost_tx::TxWorker;

const NAME: Name = Name {
    actor: 0,
    turn: 0,
    part: 0,
};

// A turn from its beginning.
fn send(alloc: Global, vq: &mut Vq, mem: &mut Memory, host: &mut MemHost) -> Result<u64> {
    ensure!(
        vq.is_idle() && vq.stopped().is_none(),
        "a turn is under way"
    );
    let mut worker = TxWorker::begin(alloc, vq, HDR, NAME)?;
    let ended = whole_turns::transmit(&mut worker, vq, mem, host);
    worker.abandon();
    let turn = ended.context("a step may not be made")?;
    Ok(turn.bytes)
}

/// A transmit turn: how many bytes it handled, and how many nanoseconds it took.
pub fn transmit<R: AllocGlobal + std::rt::Clock>(rt: &R, ring: &mut Ring) -> Result<(u64, u128)> {
    let start = Instant::now(rt)?;
    let mut host = MemHost::new(rt.alloc(), 257)?;
    let sent = send(rt.alloc(), &mut ring.vq, &mut ring.mem, &mut host);
    let took = start.elapsed(rt);
    host.abandon();
    Ok((sent?, took?.as_nanos()))
}

// A turn from its beginning.
fn take(alloc: Global, vq: &mut Vq, queue: &mut MemQueue, mem: &mut Memory) -> Result<u64> {
    ensure!(
        vq.is_idle() && vq.stopped().is_none(),
        "a turn is under way"
    );
    let mut worker = RxWorker::begin(alloc, vq, true, HDR)?;
    let ended = whole_turns::receive(&mut worker, vq, queue, mem);
    worker.abandon();
    let turn = ended.context("a step may not be made")?;
    Ok(turn.bytes)
}

// 256 frames of this length wait.
fn fill(alloc: Global, queue: &mut MemQueue, len: u16) -> Result<()> {
    let plain = Shape {
        pi: false,
        hdr: None,
    };
    let bytes = vec![in alloc; 2u8; usize::from(len)]?;
    for _ in 0..256 {
        match read_frame(alloc, plain, NAME, &bytes) {
            Ok(frame) => queue.push(frame)?,
            Err(_) => bail!("no frame"),
        }
    }
    Ok(())
}

/// A receive turn: how many bytes it handled, and how many nanoseconds it took.
pub fn receive<R: AllocGlobal + std::rt::Clock>(rt: &R, ring: &mut Ring) -> Result<(u64, u128)> {
    let mut queue = MemQueue::new(rt.alloc(), 0, Vec::new(rt.alloc()), 64);
    let filled = fill(rt.alloc(), &mut queue, ring.packets.len);
    let start = Instant::now(rt);
    let taken = take(rt.alloc(), &mut ring.vq, &mut queue, &mut ring.mem);
    let took = start.and_then(|start| start.elapsed(rt));
    queue.abandon();
    filled?;
    Ok((taken?, took?.as_nanos()))
}

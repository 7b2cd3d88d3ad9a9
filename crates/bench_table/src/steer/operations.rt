//! Times operations: at 255 rows of one device, and the clock at 16 devices.

use crate::nanoseconds;
use crate::steer::tables::{FLAGS, act, attach_all, table_of};
use anyhow::Result;
use std::rt::Clock;
use std::time::Instant;
use tap_steer::{Op, Steer};

/// How many attachments are timed: fewer than a file has epochs.
const CALLS: u32 = 30_000;

/// The file that comes and goes.
const FILE: u16 = 255;

/// Attaches a file as the 256th queue and closes it, and answers how often.
fn attach_and_close(steer: &mut Steer) -> u32 {
    let mut done: u32 = 0;
    for _ in 0..CALLS {
        let attach = Op::SetIff {
            file: FILE,
            device: 0,
            flags: FLAGS,
        };
        if act(steer, &attach) && act(steer, &Op::Shut { file: FILE }) {
            done = done.wrapping_add(1);
        }
    }
    done
}

/// Disables a queue and enables it again, and answers how often.
fn detach_and_attach(steer: &mut Steer) -> u32 {
    let mut done: u32 = 0;
    for call in 0..CALLS {
        let file = (call % 255) as u16;
        let detach = Op::SetQueue {
            file,
            flags: 0x0400,
        };
        let attach = Op::SetQueue {
            file,
            flags: 0x0200,
        };
        if act(steer, &detach) && act(steer, &attach) {
            done = done.wrapping_add(1);
        }
    }
    done
}

/// Sets the clock on, and answers how often.
fn tick_all(steer: &mut Steer) -> u32 {
    let mut done: u32 = 0;
    for call in 0..CALLS {
        let now = u64::from(call);
        if act(steer, &Op::Tick { now }) {
            done = done.wrapping_add(1);
        }
    }
    done
}

/// Makes the operations.
pub fn measure<R: Print + Clock + AllocGlobal>(rt: &R, timed: bool) -> Result<()> {
    let mut steer = table_of(rt.alloc(), Vec::new(rt.alloc()), 300)?;
    let attached = attach_all(&mut steer, 0, 255, 0);
    let start = Instant::now(rt)?;
    let closed = attach_and_close(&mut steer);
    let closing = start.elapsed(rt)?;
    let start = Instant::now(rt)?;
    let detached = detach_and_attach(&mut steer);
    let detaching = start.elapsed(rt)?;
    let mut devices: u16 = 0;
    for device in 1..16 {
        devices = devices.wrapping_add(attach_all(&mut steer, 256 + device, 257 + device, device));
    }
    let start = Instant::now(rt)?;
    let ticked = tick_all(&mut steer);
    let ticking = start.elapsed(rt)?;
    println!(rt; "{attached} rows: {closed} attached and closed, {detached} disabled and enabled")?;
    println!(rt; "{devices} more devices: {ticked} ticks")?;
    if timed {
        let close = nanoseconds(closing, CALLS);
        let detach = nanoseconds(detaching, CALLS);
        let tick = nanoseconds(ticking, CALLS);
        println!(rt;
            "attach and close {close:.1} ns, disable and enable {detach:.1} ns, tick {tick:.1} ns"
        )?;
    }
    Ok(())
}

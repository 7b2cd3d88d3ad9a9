//! How long a turn takes for each packet: transmit and receive turns of 256 packets of 60 and of 1,500 bytes, in chains
//! of one and of four descriptors; beside it a plain copy of the same bytes, and a fetch with the publication of one
//! chain.
mod plain;
mod ring;
mod workers;

use crate::turns::plain::{copy, fetch_and_publish};
use crate::turns::ring::{Packets, Ring};
use crate::turns::workers::{receive, transmit};
use anyhow::Result;
use std::time::Instant;

/// How often a turn is timed.
const ROUNDS: u32 = 200;

/// Nanoseconds that the turns, the copies and the fetches took.
#[derive(Clone, Copy, Debug, Default)]
struct Times {
    turns: u128,
    copies: u128,
    fetches: u128,
}

// One round: a turn of 256 packets, as many copies, and as many fetches.
fn round<R: AllocGlobal + std::rt::Clock>(
    rt: &R,
    ring: &mut Ring,
    times: &mut Times,
) -> Result<u64> {
    ring.offer()?;
    let (bytes, took) = if ring.packets.rx {
        receive(rt, ring)?
    } else {
        transmit(rt, ring)?
    };
    times.turns = times.turns.saturating_add(took);
    let start = Instant::now(rt)?;
    copy(ring)?;
    times.copies = times.copies.saturating_add(start.elapsed(rt)?.as_nanos());
    ring.offer()?;
    let start = Instant::now(rt)?;
    fetch_and_publish(rt.alloc(), ring)?;
    times.fetches = times.fetches.saturating_add(start.elapsed(rt)?.as_nanos());
    Ok(bytes)
}

// A part of a whole, in hundredths.
fn hundredths(part: u128, whole: u128) -> u128 {
    part.saturating_mul(100).checked_div(whole).unwrap_or(0)
}

fn run<R: AllocGlobal + Print + std::rt::Clock>(
    rt: &R,
    packets: Packets,
    timed: bool,
) -> Result<()> {
    let mut ring = Ring::new(rt.alloc(), packets)?;
    let mut times = Times::default();
    let mut bytes = 0;
    let rounds = if timed { ROUNDS } else { 2 };
    for _ in 0..rounds {
        bytes = round(rt, &mut ring, &mut times)?;
    }
    let Packets { rx, len, parts } = packets;
    let way = if rx { "receive" } else { "transmit" };
    if timed {
        let each = times.turns / u128::from(256 * ROUNDS);
        let copies = hundredths(times.turns, times.copies);
        let fetches = hundredths(times.turns, times.fetches);
        rt.print(format_args!(
            "{way} {len} bytes in {parts}: {bytes} bytes a turn, {each} ns a packet, "
        ))?;
        rt.println(format_args!(
            "{copies} hundredths of a copy, {fetches} of a fetch with its publication"
        ))?;
    } else {
        rt.println(format_args!("{way} {len} bytes in {parts}: {bytes} bytes a turn"))?;
    }
    Ok(())
}

/// Makes the turns, and prints what each did.
pub fn measure<R: AllocGlobal + Print + std::rt::Clock>(rt: &R, timed: bool) -> Result<()> {
    for rx in [false, true] {
        for len in [60, 1500] {
            for parts in [1, 4] {
                run(rt, Packets { rx, len, parts }, timed)?;
            }
        }
    }
    Ok(())
}

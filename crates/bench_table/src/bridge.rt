//! Times a frame on a bridge that knows 16 addresses, and one that knows 4,096.
use crate::nanoseconds;
use anyhow::Result;
use std::alloc::AllocError;
use std::rt::Clock;
use std::time::Instant;
use tap_bridge::Bridge;

/// How many frames are timed.
const FRAMES: u32 = 200_000;

/// A frame from the station of a number to that of another.
fn frame_to(from: u16, to: u16) -> [u8; 14] {
    let [to_high, to_low] = to.to_be_bytes();
    let [from_high, from_low] = from.to_be_bytes();
    [
        2, 0, 0, 0, to_high, to_low, 2, 0, 0, 0, from_high, from_low, 8, 0,
    ]
}

/// Sends a frame from one station to another; those with even numbers stand at port 0, the others at port 1.
fn send(bridge: &mut Bridge, from: u16, to: u16, now: u64) -> Result<Vec<u16>, AllocError> {
    let frame = frame_to(from, to);
    if from % 2 == 0 {
        bridge.frame(0, &frame, now, &[0, 1, 2, 3])
    } else {
        bridge.frame(1, &frame, now, &[0, 1, 2, 3])
    }
}

/// Sends frames between so many stations, each to the one before it, and answers at how many ports they were sent on
/// together.
fn send_all(bridge: &mut Bridge, stations: u16, frames: u32) -> Result<u64, AllocError> {
    let mut sent: u64 = 0;
    let mut from: u16 = 0;
    let mut before = stations.saturating_sub(1);
    for call in 0..frames {
        let now = u64::from(call / 1024);
        let out = send(bridge, from, before, now)?;
        sent = sent.saturating_add(out.len() as u64);
        before = from;
        let next = before.saturating_add(1);
        from = if next < stations { next } else { 0 };
    }
    Ok(sent)
}

/// Makes the calls on a bridge that knows this many stations.
fn measure_stations<R: Print + Clock + AllocGlobal>(
    rt: &R,
    stations: u16,
    timed: bool,
) -> Result<()> {
    let mut bridge = Bridge::new(rt.alloc());
    let _ = send_all(&mut bridge, stations, u32::from(stations))?;
    let start = Instant::now(rt)?;
    let sent = send_all(&mut bridge, stations, FRAMES)?;
    let time = start.elapsed(rt)?;
    println!(rt; "{} stations known: sent on at {sent} ports", bridge.len())?;
    if timed {
        println!(rt;
            "{stations} stations: frame {:.1} ns",
            nanoseconds(time, FRAMES)
        )?;
    }
    Ok(())
}

/// Makes the calls on both bridges, and prints what they answered.
pub fn measure<R: Print + Clock + AllocGlobal>(rt: &R, timed: bool) -> Result<()> {
    measure_stations(rt, 16, timed)?;
    measure_stations(rt, 4096, timed)
}

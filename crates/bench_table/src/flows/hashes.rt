ghost use Rattle.std.specs.Prelude.{◌<◌, length};

use crate::flows::CALLS;
use crate::nanoseconds;
use anyhow::Result;
use std::rt::Clock;
use std::time::Instant;
use tap_flow_key::flow_hash;

/// A datagram over IPv4.
const IPV4: [u8; 42] = [
    2, 0, 0, 0, 0, 1, 2, 0, 0, 0, 0, 2, 0x08, 0x00, 0x45, 0, 0, 28, 0, 0, 0, 0, 64, 17, 0, 0, 10,
    0, 0, 2, 10, 0, 0, 1, 0x12, 0x34, 0x00, 0x50, 0, 8, 0, 0,
];

/// A segment over IPv6.
const IPV6: [u8; 60] = [
    2, 0, 0, 0, 0, 1, 2, 0, 0, 0, 0, 2, 0x86, 0xdd, 0x60, 0, 0, 0, 0, 4, 6, 64, 0xfe, 0x80, 0, 0,
    0, 0, 0, 0, 0, 0, 0, 0, 0, 0, 0, 1, 0xfe, 0x80, 0, 0, 0, 0, 0, 0, 0, 0, 0, 0, 0, 0, 0, 2, 0x12,
    0x34, 0x00, 0x50, 0, 0,
];

/// A frame that carries neither.
const OTHER: [u8; 42] = [
    2, 0, 0, 0, 0, 1, 2, 0, 0, 0, 0, 2, 0x08, 0x06, 0, 1, 0x08, 0, 6, 4, 0, 1, 2, 0, 0, 0, 0, 2,
    10, 0, 0, 2, 0, 0, 0, 0, 0, 0, 10, 0, 0, 1,
];

/// Hashes a frame again and again, with another last byte each time, which no flow depends on.
fn hash_all(frame: &mut [u8]) -> u32
    requires { 0 < length frame.old }
{
    let last = frame.len() - 1;
    let mut sum: u32 = 0;
    for call in 0..CALLS {
        frame[last] = (call % 256) as u8;
        sum = sum.wrapping_add(flow_hash(frame));
    }
    sum
}

/// Makes the calls for one kind of frame.
fn measure_kind<R: Print + Clock>(rt: &R, kind: &str, frame: &mut [u8], timed: bool) -> Result<()>
    requires { 0 < length frame.old }
{
    let start = Instant::now(rt)?;
    let sum = hash_all(frame);
    let hashing = start.elapsed(rt)?;
    println!(rt; "{kind}: {sum:08x}")?;
    if timed {
        let hash = nanoseconds(hashing, CALLS);
        println!(rt; "{kind}: flow_hash {hash:.1} ns")?;
    }
    Ok(())
}

/// Makes the calls for each kind of frame.
pub fn measure<R: Print + Clock>(rt: &R, timed: bool) -> Result<()> {
    let mut ipv4 = IPV4;
    let mut ipv6 = IPV6;
    let mut other = OTHER;
    measure_kind(rt, "IPv4", &mut ipv4, timed)?;
    measure_kind(rt, "IPv6", &mut ipv6, timed)?;
    measure_kind(rt, "other", &mut other, timed)
}

ghost use Rattle.std.specs.Prelude.{◌<◌, IfOk};
ghost use Rattle.tap_flows.specs.FlowList.{AreNotAfter};

use crate::flows::CALLS;
use crate::nanoseconds;
use anyhow::Result;
use std::alloc::{AllocError, Global};
use std::rt::Clock;
use std::time::Instant;
use tap_flows::{DEFAULT_AGE, DEFAULT_LIMIT, Flows, Learnt};

/// The time of all calls, in milliseconds.
const NOW: u64 = 1_000_000;

/// A hash for each number, spread over the buckets.
fn hash_of(number: u32) -> u32 {
    number.wrapping_mul(0x9e37_79b1)
}

/// Flows of the first numbers.
fn filled(alloc: Global, count: u32) -> Result<Flows, AllocError>
    ensures { IfOk result (λ flows. AreNotAfter NOW flows.flows) }
{
    let mut flows = Flows::new(alloc, DEFAULT_LIMIT, DEFAULT_AGE)?;
    for number in 0..count {
        let _ = flows.learn(hash_of(number), 1, NOW);
    }
    Ok(flows)
}

/// Learns flows that are there, and answers how many were renewed.
fn learn_all(flows: &mut Flows, count: u32) -> u32
    requires some { 0 < count }
    requires latest { AreNotAfter NOW flows.old.flows }
    ensures { AreNotAfter NOW flows.new.flows }
{
    let mut renewed: u32 = 0;
    for call in 0..CALLS {
        if flows.learn(hash_of(call % count), 2, NOW) == Learnt::Renewed {
            renewed = renewed.wrapping_add(1);
        }
    }
    renewed
}

/// Finds flows that are there, and answers how many were found.
fn find_all(flows: &Flows, count: u32) -> u32
    requires { 0 < count }
{
    let mut found: u32 = 0;
    for call in 0..CALLS {
        if flows.find(hash_of(call % count)).is_some() {
            found = found.wrapping_add(1);
        }
    }
    found
}

/// Ticks that remove nothing, at times that differ.
fn tick_all(flows: &mut Flows) {
    for call in 0..CALLS {
        flows.tick(NOW + u64::from(call % 1024));
    }
}

/// Makes the calls on a table with this many flows.
pub fn measure<R: Print + Clock + AllocGlobal>(rt: &R, count: u32, timed: bool) -> Result<()>
    requires { 0 < count }
{
    let mut flows = filled(rt.alloc(), count)?;
    let start = Instant::now(rt)?;
    let renewed = learn_all(&mut flows, count);
    let learning = start.elapsed(rt)?;
    let start = Instant::now(rt)?;
    let found = find_all(&flows, count);
    let finding = start.elapsed(rt)?;
    let start = Instant::now(rt)?;
    tick_all(&mut flows);
    let ticking = start.elapsed(rt)?;
    let kept = flows.len();
    println!(rt; "{count} flows: {renewed} renewed, {found} found, {kept} kept")?;
    if timed {
        let learn = nanoseconds(learning, CALLS);
        let find = nanoseconds(finding, CALLS);
        let tick = nanoseconds(ticking, CALLS);
        println!(rt; "{count} flows: learn {learn:.1} ns, find {find:.1} ns, tick {tick:.1} ns")?;
    }
    Ok(())
}

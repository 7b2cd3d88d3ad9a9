//! Times the gated ring: frames of 60 bytes through a ring, beside a `VecDeque` under a `Mutex`: with one sender and
//! with four, at capacity 256 and 1,024, each with one consumer.
//!
//! Without a word it prints how many frames came through, which is the same at each run. With the word
//! `ring` it prints the nanoseconds that a frame took.
#![tactic(auto)]

ghost use Rattle.std.specs.Prelude.{◌≤◌};

mod frames;
mod gated;
mod locked;

use anyhow::Result;
use std::alloc::Global;
use std::env;
use std::rt::{Clock, Env};
use std::sync::atomic::{AtomicU64, Ordering};
use std::sync::{Barrier, Wait};
use std::thread::Threads;
use std::time::Duration;
use tap_ring::MAX_SLOTS;

/// How many frames come through in each run.
pub(crate) const FRAMES: u32 = 200_000;

/// Where the threads of a run wait for each other, with their frames made.
#[derive(Drop)]
pub(crate) struct Start {
    barrier: Barrier,
    made: AtomicU64,
}

impl Start {
    fn new(threads: usize) -> Start {
        Start {
            barrier: Barrier::new(threads),
            made: AtomicU64::new(0),
        }
    }

    /// Tells how many frames this thread made, and waits for the others.
    pub(crate) fn made(&self, rt: &impl Wait, count: u64) {
        self.made.fetch_add(count, Ordering::SeqCst);
        self.barrier.wait(rt);
    }

    /// Waits for all threads. Gives how many frames they made.
    pub(crate) fn total(&self, rt: &impl Wait) -> u64 {
        self.barrier.wait(rt);
        self.made.load(Ordering::SeqCst)
    }
}

/// How many frames the consumer took, and in which time.
#[derive(Drop)]
pub(crate) struct Taken {
    count: u64,
    time: Option<Duration>,
}

fn report<R: Print>(rt: &R, name: &str, taken: &Taken, timed: bool) -> Result<()> {
    if !timed {
        println!(rt; "{name}: {}", taken.count)?;
        return Ok(());
    }
    if let Some(time) = taken.time {
        let each = time.as_secs_f64() * 1e9 / f64::from(FRAMES);
        println!(rt; "{name}: {each:.1} ns a frame")?;
    }
    Ok(())
}

/// Whether the times are asked for.
fn is_timed(rt: &(impl Env + Alloc)) -> Result<bool> {
    Ok(env::args(rt)?.count() > 1)
}

fn run<R: Threads + Wait + Clock + Sync + Print>(
    rt: &R,
    alloc: Global,
    capacity: u16,
    timed: bool,
) -> Result<()>
    requires { (1 ≤ capacity) × (capacity ≤ MAX_SLOTS) }
{
    println!(rt; "capacity {capacity}")?;
    report(
        rt,
        "ring, one sender",
        &gated::one(rt, alloc, capacity)?,
        timed,
    )?;
    report(
        rt,
        "locked queue, one sender",
        &locked::one(rt, alloc, capacity),
        timed,
    )?;
    report(
        rt,
        "ring, four senders",
        &gated::four(rt, alloc, capacity)?,
        timed,
    )?;
    report(
        rt,
        "locked queue, four senders",
        &locked::four(rt, alloc, capacity),
        timed,
    )?;
    Ok(())
}

fn main(rt: HostRuntime) -> Result<()> {
    let timed = is_timed(&rt)?;
    run(&rt, rt.alloc(), 256, timed)?;
    run(&rt, rt.alloc(), MAX_SLOTS, timed)?;
    Ok(())
}

//! Times programs: each instruction that is executed, and each slot that is accepted.
use anyhow::{Context, Result};
use ebpf_code::{Program, accept};
use ebpf_run::evaluate;
use std::alloc::Global;
use std::rt::Clock;
use std::time::Instant;

const MOVE: [u8; 8] = [0xb7, 0, 0, 0, 0, 0, 0, 0];

const ADD: [u8; 8] = [0x07, 0, 0, 0, 1, 0, 0, 0];

const LOAD: [u8; 8] = [0x30, 0, 0, 0, 9, 0, 0, 0];

const EXIT: [u8; 8] = [0x95, 0, 0, 0, 0, 0, 0, 0];

/// Runs and accepts programs, and prints what they give.
pub fn measure<R: Print + Clock + AllocGlobal>(rt: &R, timed: bool) -> Result<()> {
    let rounds = if timed { 2000 } else { 1 };
    executed(rt, "additions", &ADD, rounds, timed)?;
    executed(rt, "loads", &LOAD, rounds, timed)?;
    accepted(rt, 100, rounds * 20, timed)?;
    accepted(rt, 4096, rounds / 2 + 1, timed)
}

/// A program that moves, has `slots` - 2 times an instruction, and ends.
fn repeated(alloc: Global, slots: usize, instruction: &[u8; 8]) -> Result<Vec<u8>> {
    let mut bytes = Vec::new(alloc);
    bytes.extend_from_slice(&MOVE)?;
    for _ in 2..slots {
        bytes.extend_from_slice(instruction)?;
    }
    bytes.extend_from_slice(&EXIT)?;
    Ok(bytes)
}

fn program_of(alloc: Global, bytes: &[u8]) -> Result<Program> {
    accept(alloc, bytes).context("a program")
}

/// 4,000 instructions of a kind, on a frame of 60 bytes.
fn executed<R: Print + Clock + AllocGlobal>(
    rt: &R,
    name: &str,
    instruction: &[u8; 8],
    rounds: u64,
    timed: bool,
) -> Result<()> {
    let bytes = repeated(rt.alloc(), 4002, instruction)?;
    let program = program_of(rt.alloc(), &bytes)?;
    let frame = [7u8; 60];
    let start = Instant::now(rt)?;
    let mut last = 0;
    for _ in 0..rounds {
        last = evaluate(&program, &frame);
    }
    let elapsed = start.elapsed(rt)?.as_nanos();
    println!(rt; "{name} {last}")?;
    if timed {
        report(rt, elapsed, rounds.saturating_mul(4002), "an instruction")?;
    }
    Ok(())
}

/// A program of so many slots, accepted again and again.
fn accepted<R: Print + Clock + AllocGlobal>(
    rt: &R,
    slots: usize,
    rounds: u64,
    timed: bool,
) -> Result<()> {
    let bytes = repeated(rt.alloc(), slots, &ADD)?;
    let start = Instant::now(rt)?;
    let mut last = 0;
    for _ in 0..rounds {
        last = program_of(rt.alloc(), &bytes)?.len();
    }
    let elapsed = start.elapsed(rt)?.as_nanos();
    println!(rt; "slots {last}")?;
    if timed {
        report(rt, elapsed, rounds.saturating_mul(slots as u64), "a slot")?;
    }
    Ok(())
}

/// The time of one of `count`, in tenths of a nanosecond.
fn report(rt: &impl Print, nanos: u128, count: u64, what: &str) -> Result<()> {
    let nanos = u64::try_from(nanos).ok().context("a time")?;
    let tenths = nanos.saturating_mul(10) / count.max(1);
    let whole = tenths / 10;
    let tenth = tenths % 10;
    println!(rt; "  {whole}.{tenth} ns {what}")?;
    Ok(())
}

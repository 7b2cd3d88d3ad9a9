//! Reads the trace of an input that comes from standard input, and prints how many parts it has, or its first bad line.
//! `bench/run trace` times it on large traces.
#![tactic(auto)]

use anyhow::Result;
use scen_words::OrMemory;
use std::alloc::{AllocError, Global};
use std::io::Read;
use tap_trace::Trace;
use trace_text::{MAX_BYTES, read_trace, split_input};

// What is told of a trace.
fn told(alloc: Global, trace: &Trace) -> Result<String, AllocError> {
    let phases = trace.phases.len();
    let files = trace.files.len();
    let guests = trace.guests.len();
    let rings = trace.rings.len();
    format!(in alloc; "{phases} phases, {files} files, {guests} guests, {rings} rings")
}

fn main(rt: HostRuntime) -> Result<()> {
    let alloc = rt.alloc();
    let mut bytes = Vec::new(alloc);
    rt.stdin().read_to_end(&mut bytes)?;
    let text = split_input(&bytes).trace;
    if text.len() > MAX_BYTES {
        println!(rt; "too long")?;
        return Ok(());
    }
    match read_trace(alloc, text) {
        Ok(trace) => println!(rt; "{}", told(alloc, &trace)?)?,
        Err(OrMemory::Fault(line)) => println!(rt; "bad line {line}")?,
        Err(OrMemory::NoMemory) => return Err(AllocError.into()),
    }
    Ok(())
}

//! Reads a scenario with its trace and the report behind it, and prints the report that its own reading gives.
//!
//! `both_ways.txt` has a vhost with a receive and a transmit turn, one frame of which is refused, a frame that is written and
//! a read that finds a worker. The report is printed as text and as JSON.
#![tactic(auto)]

use anyhow::{Context, Result, ensure};
use scen_text::{MAX_BYTES, OrMemory, Scenario, read_scenario};
use std::alloc::{AllocError, Global};
use std::fs;
use tap_report::{Summary, may_follow, report, report_json, report_text};
use tap_trace::Trace;
use trace_text::{read_trace, split_input};

// The scenario of a text, where there is one.
fn scenario_of(alloc: Global, text: &[u8]) -> Result<Option<Scenario>, AllocError> {
    if text.len() > MAX_BYTES {
        return Ok(None);
    }
    match read_scenario(alloc, text) {
        Ok(scenario) => Ok(Some(scenario)),
        Err(OrMemory::Fault(_)) => Ok(None),
        Err(OrMemory::NoMemory) => Err(AllocError),
    }
}

// The trace of a text, where there is one.
fn trace_of(alloc: Global, text: &[u8]) -> Result<Option<Trace>, AllocError> {
    if text.len() > MAX_BYTES {
        return Ok(None);
    }
    match read_trace(alloc, text) {
        Ok(trace) => Ok(Some(trace)),
        Err(OrMemory::Fault(_)) => Ok(None),
        Err(OrMemory::NoMemory) => Err(AllocError),
    }
}

// The report of an input's trace; what stands behind the trace must be that report.
fn summary_of(alloc: Global, input: &[u8]) -> Result<Summary> {
    let parts = split_input(input);
    let scenario = scenario_of(alloc, parts.scenario)?.context("no scenario")?;
    let trace = trace_of(alloc, parts.trace)?.context("no trace")?;
    let summary = report(alloc, &scenario, &trace)?;
    let follows = may_follow(alloc, &summary, parts.behind)?;
    ensure!(follows, "another report stands behind the trace");
    Ok(summary)
}

fn main(rt: HostRuntime) -> Result<()> {
    let alloc = rt.alloc();
    let input = fs::read(&rt, "both_ways.txt")?;
    let summary = summary_of(alloc, &input)?;
    print!(rt; "{}", report_text(alloc, &summary)?)?;
    println!(rt; "{}", report_json(alloc, &summary)?)?;
    Ok(())
}

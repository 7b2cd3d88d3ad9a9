//! Times the calls of the crates of the table of devices, queues and flows, of programs and of the bridge.
//!
//! Without a word it makes the calls of all benches and prints what they answered, which is the same at each run. With
//! the word of one it makes those alone, more often, and prints the nanoseconds that they took.
#![tactic(auto)]

mod bridge;
mod ebpf;
mod flows;
mod steer;

use anyhow::{Result, bail};
use std::env;
use std::time::Duration;

/// The nanoseconds of one of so many timed calls.
pub(crate) fn nanoseconds(whole: Duration, calls: u32) -> f64 {
    whole.as_secs_f64() * 1e9 / f64::from(calls)
}

fn main(rt: HostRuntime) -> Result<()> {
    let Some(word) = env::args(&rt)?.nth(1) else {
        flows::measure(&rt, false)?;
        steer::measure(&rt, false)?;
        ebpf::measure(&rt, false)?;
        return bridge::measure(&rt, false);
    };
    match word.as_str() {
        "flows" => flows::measure(&rt, true),
        "steer" => steer::measure(&rt, true),
        "ebpf" => ebpf::measure(&rt, true),
        "bridge" => bridge::measure(&rt, true),
        other => bail!("there is no bench {other}"),
    }
}

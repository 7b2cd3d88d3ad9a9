//! Times the calls of the crates of memory, rings and workers.
//!
//! Without a word it makes the calls of all benches and prints what they answered, which is the same at each run. With
//! the word of one it makes those alone, more often, and prints the nanoseconds that they took.
#![tactic(auto)]

mod packed;
mod queue;
mod turns;
mod walk;

use anyhow::{Result, bail};
use std::env;

fn main(rt: HostRuntime) -> Result<()> {
    let Some(word) = env::args(&rt)?.nth(1) else {
        walk::measure(&rt, false)?;
        queue::measure(&rt, false)?;
        packed::measure(&rt, false)?;
        return turns::measure(&rt, false);
    };
    match word.as_str() {
        "walk" => walk::measure(&rt, true),
        "queue" => queue::measure(&rt, true),
        "packed" => packed::measure(&rt, true),
        "turns" => turns::measure(&rt, true),
        other => bail!("there is no bench {other}"),
    }
}

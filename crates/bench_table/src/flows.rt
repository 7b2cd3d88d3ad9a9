//! Times the calls of the flow table and of the flow hash.

mod hashes;
mod table;

use anyhow::Result;
use std::rt::Clock;

/// How many calls of a kind are timed.
pub(crate) const CALLS: u32 = 200_000;

/// Makes the calls, and prints what they answered.
pub fn measure<R: Print + Clock + AllocGlobal>(rt: &R, timed: bool) -> Result<()> {
    table::measure(rt, 16, timed)?;
    table::measure(rt, 4096, timed)?;
    hashes::measure(rt, timed)
}

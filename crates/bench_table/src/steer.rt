//! Times the calls of the table of files, devices and queues.
mod operations;
mod selections;
mod tables;

use anyhow::Result;
use std::rt::Clock;

/// Makes the calls, and prints what they answered.
pub fn measure<R: Print + Clock + AllocGlobal>(rt: &R, timed: bool) -> Result<()> {
    selections::measure(rt, timed)?;
    operations::measure(rt, timed)
}

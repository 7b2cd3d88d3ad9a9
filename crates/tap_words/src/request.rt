//! What can be asked for.

/// What the words of the command line ask for.
#[derive(Clone, Copy, Debug, PartialEq, Eq)]
pub enum Request {
    /// `check`: whether a scenario is good, and how many commands it has.
    Check,
    /// `plain [--seed N] [--json]`: a run on one thread.
    Plain { seed: u64, json: bool },
    /// `live [--json]`: a run on many threads.
    Live { json: bool },
    /// `audit`: whether a trace is legal.
    Audit,
    /// `gen N`: a large scenario.
    Gen { count: u32 },
    /// `upgrade`: a scenario in version 2.
    Upgrade,
}

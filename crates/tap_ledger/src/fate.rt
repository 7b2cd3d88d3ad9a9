//! What becomes of a frame.

ghost use Rattle.std.specs.Prelude.{◌≡◌};
ghost use Rattle.tap_ledger.specs.Fate.{number};

/// What becomes of a frame that was accepted.
#[derive(Clone, Copy, Debug, PartialEq, Eq)]
pub enum Fate {
    /// It waits at its place.
    Waiting,
    /// A reader took it.
    Read,
    /// A guest received it.
    Guest,
    /// It was given to the host.
    Host,
    /// It was discarded.
    Discarded(Cause),
}

/// Why a frame was discarded.
#[derive(Clone, Copy, Debug, PartialEq, Eq)]
pub enum Cause {
    /// Its device has no queue.
    NoQueue,
    /// The filter took it whole.
    Filtered,
    /// Its queue is another one now, or is shut.
    Gone {
        /// The epoch that was wanted.
        want: u16,
        /// The epoch that was found.
        found: u16,
        /// Whether the queue was shut.
        shut: bool,
    },
    /// No place was free.
    Full {
        /// How many places were given out.
        claimed: u64,
        /// How many of them were free again.
        freed: u64,
    },
    /// Its queue was emptied.
    Purged,
    /// It didn't fit the buffers that a guest offered.
    Overrun {
        /// How many bytes it needed.
        need: u32,
        /// How many chains it could have.
        quota: u16,
        /// How many bytes they held.
        had: u64,
    },
    /// Its queue was made smaller.
    Cut,
    /// Its queue has no places left to give out.
    Spent {
        /// How many places were given out.
        claimed: u64,
    },
}

impl Cause {
    /// The number of the cause, 1 to 8.
    pub fn number(self) -> u8
        ensures { result ≡ number self }
    {
        match self {
            Cause::NoQueue => 1,
            Cause::Filtered => 2,
            Cause::Gone { .. } => 3,
            Cause::Full { .. } => 4,
            Cause::Purged => 5,
            Cause::Overrun { .. } => 6,
            Cause::Cut => 7,
            Cause::Spent { .. } => 8,
        }
    }
}

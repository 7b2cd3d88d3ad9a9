//! Counts of fates.

ghost use Rattle.std.specs.Prelude.{◌≡◌, ◌+◌, sum, slice_index};

use crate::Fate;

/// How many frames have each fate.
#[derive(Clone, Copy, Debug, PartialEq, Eq)]
pub struct Counters {
    /// All of them.
    pub accepted: u64,
    /// Those that wait.
    pub waiting: u64,
    /// Those that a reader took.
    pub read: u64,
    /// Those that a guest received.
    pub guest: u64,
    /// Those that were given to the host.
    pub host: u64,
    /// Those that were discarded, by the number of the cause. No cause has the number 0.
    pub by_cause: [u64; 9],
    /// The sum of their lengths.
    pub bytes: u64,
    ghost no_cause: { slice_index by_cause 0 ≡ 0 },
    ghost each_once: { accepted ≡ waiting + read + guest + host + sum by_cause },
}

impl Counters {
    ghost use Rattle.std.specs.Prelude.{◌≡◌, ℕ, ◌+◌, ◌^◌, ◌<◌, ◌++◌, ◌∷◌, [], List};
    ghost use Rattle.tap_ledger.specs.declared.fate.Fate.{Fate};
    ghost use Rattle.tap_ledger.specs.Counters.{Counts, IsCounted};

    /// The counts of no frames.
    pub fn new() -> Counters
        ensures { Counts result [] }
    {
        Counters {
            accepted: 0,
            waiting: 0,
            read: 0,
            guest: 0,
            host: 0,
            by_cause: [0; 9],
            bytes: 0,
        }
    }

    /// Counts a frame with this fate and so many bytes.
    pub fn count(&mut self, fate: &Fate, len: u32)
        requires accepted { self.old.accepted + 1 < 2 ^ 64 }
        requires bytes { self.old.bytes + len < 2 ^ 64 }
        ensures counted { IsCounted fate.now len self.old self.new }
        ensures counts { (fates : List (Fate × ℕ)) → Counts self.old fates
            → Counts self.new (fates ++ (fate.now, len) ∷ []) }
    {
        self.add(fate, len);
    }

    // One frame more.
    fn add(&mut self, fate: &Fate, len: u32)
        requires accepted { self.old.accepted + 1 < 2 ^ 64 }
        requires bytes { self.old.bytes + len < 2 ^ 64 }
        ensures { IsCounted fate.now len self.old self.new }
    {
        self.accepted += 1;
        self.bytes += u64::from(len);
        match fate {
            Fate::Waiting => self.waiting += 1,
            Fate::Read => self.read += 1,
            Fate::Guest => self.guest += 1,
            Fate::Host => self.host += 1,
            Fate::Discarded(cause) => self.by_cause[usize::from(cause.number())] += 1,
        }
    }
}

//! How a turn ends.
ghost use Rattle.std.specs.Prelude.{◌≡◌};
ghost use Rattle.vring_turns.specs.Turn.{fault_of};

use vring_split::RingFault;

/// Why a turn is over.
#[derive(Clone, Copy, Debug, PartialEq, Eq)]
pub enum End {
    /// Nothing was there: no chain on a transmit ring, no frame for a receive ring.
    Idle,
    /// The chains that were there hold less than the frame needs, and more may come.
    Short {
        /// How many bytes the frame needs, its header with it.
        need: u32,
        /// How many bytes the chains have.
        had: u64,
    },
    /// It did as much as one turn does: 256 packets, 524,288 bytes or 1,024 chains.
    Again,
    /// The ring broke this rule, in this turn or since its backend was set.
    Stopped(RingFault),
    /// The ring has no backend, or the queue of frames is off.
    Off,
    /// Memory ran out.
    NoMemory,
}

impl End {
    /// The fault that stopped the ring, if one did.
    pub fn fault(self) -> Option<RingFault>
        ensures { result ≡ fault_of self }
    {
        match self {
            End::Stopped(fault) => Some(fault),
            _ => None,
        }
    }
}

/// What a turn did, and how it ended.
#[derive(Clone, Copy, Debug, PartialEq, Eq)]
pub struct TurnEnd {
    /// How many packets it handled.
    pub packets: u32,
    /// How many bytes.
    pub bytes: u64,
    /// Why it is over.
    pub end: End,
}

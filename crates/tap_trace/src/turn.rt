//! What a turn of a worker answers.

use tap_frame::{BadFrame, Name};

/// How a turn ended.
#[derive(Clone, Copy, Debug, PartialEq, Eq)]
pub enum TurnText {
    /// `idle`: nothing was left to do.
    Idle,
    /// `short NEED HAD`: the next frame needs so many bytes, and the chains that were there had so many.
    Short { need: u32, had: u64 },
    /// `again`: the turn had its share of packets, and there may be more.
    Again,
    /// `stopped N`: the ring is stopped, since it broke this rule.
    Stopped(u8),
    /// `off`: the ring has no backend.
    Off,
}

/// What became of one chain of a transmit turn.
#[derive(Clone, Copy, Debug, PartialEq, Eq)]
pub enum ChainText {
    /// `got NAME LEN FNV`: the frame of this name was accepted, with so many Ethernet bytes of this hash.
    Got { name: Name, len: u32, fnv: u32 },
    /// `refused POSITION N`: the chain at this position holds no frame.
    Refused { position: u16, bad: BadFrame },
}

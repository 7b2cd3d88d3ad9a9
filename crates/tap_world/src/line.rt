//! The frames of a file's line.

use tap_frame::Name;
use tap_ledger::Fate;

/// Where a frame of a line stands.
#[derive(Clone, Copy, Debug, PartialEq, Eq)]
pub enum Standing {
    /// In the ring, at a place that this actor has claimed and not put yet.
    Claimed(u16),
    /// In the ring, at a place that was put.
    Ready,
    /// In the batch, which the reader of the file takes from.
    Batched,
    /// Out of the line, with its fate.
    Out(Fate),
    /// Cut by a resize.
    Cut,
}

/// One frame of a file's line. The line has each frame that ever got a place of the file's ring, in the order placed.
#[derive(Clone, Copy, Debug, PartialEq, Eq)]
pub struct Entry {
    pub name: Name,
    /// The epoch of the ring's gate under which the place was claimed, from 1.
    pub epoch: u16,
    /// How many Ethernet bytes of the frame are kept.
    pub len: u32,
    pub stands: Standing,
}

//! What a step of a worker did.

use tap_frame::{BadFrame, Name};

/// The one event that a step of a worker made.
#[derive(Clone, Copy, Debug, PartialEq, Eq)]
pub enum Act {
    /// It took the front frame in hand.
    Hand,
    /// It put the frame in hand back.
    PutBack,
    /// No frame was ready.
    NotReady,
    /// The frame in hand left the line with its fate.
    Out { name: Name },
    /// It took the chain with this head at this position.
    Fetch { position: u16, head: u16 },
    /// No chain was available.
    Nothing,
    /// A chain didn't fit the room that is left for segments.
    Crowded,
    /// The ring broke the rule of this number.
    Halt { fault: u8 },
    /// It copied a frame: into the chains from this position on, or out of the chain at it.
    Copy { position: u16, name: Name },
    /// The bytes of the chain at this position spell no frame.
    Refused { position: u16, bad: BadFrame },
    /// It gave a frame to the host.
    Given { name: Name },
    /// It published so many used chains, and called the guest or didn't.
    Publish { count: u16, call: bool },
    /// It turned the guest's notices on or off, and wrote that to the ring or didn't need to.
    Notices { on: bool, wrote: bool },
}

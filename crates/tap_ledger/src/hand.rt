//! What a queue of frames hands out, and what it keeps of a frame that is out.

use crate::Fate;
use tap_frame::{Frame, Name};

/// What a queue answers where a frame is to be taken in hand.
pub enum Hand {
    /// The first frame that waits. It is in hand now.
    Got(Frame),
    /// None is ready.
    NotReady {
        /// The place of the frame that is waited for.
        place: u64,
    },
    /// The queue is off.
    Off,
    /// Memory ran out.
    NoMemory,
}

/// A frame that is out of its queue.
#[derive(Clone, Copy, Debug, PartialEq, Eq)]
pub struct OutFrame {
    /// Its name.
    pub name: Name,
    /// Its length.
    pub len: u32,
    /// What became of it.
    pub fate: Fate,
}

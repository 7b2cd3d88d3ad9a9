//! Events, and what they answer.

use tap_frame::Name;
use tap_trace::{Answer, Kind};

/// What kind of step an event is. All else of it, as its file, place or fate, follows from the command, from the
/// command's events so far, and from the world.
#[derive(Clone, Copy, Debug, PartialEq, Eq)]
pub enum EventKind {
    /// A look at the queue table.
    Look,
    /// One operation is published.
    Publish,
    /// A place of a ring is claimed.
    Claim,
    /// A claimed place gets its frame.
    Ready,
    /// A frame finds its ring full.
    Full,
    /// A frame finds its ring's gate shut, or under another epoch.
    Gone,
    /// A frame finds all places of its ring spent.
    Spent,
    /// The gate of a ring is shut.
    Shut,
    /// The gate of a ring is opened under the next epoch.
    Reopen,
    /// The capacity of a ring is changed.
    Resize,
    /// The newest frame of a ring is cut.
    Cut,
    /// The front of a ring moves to the batch.
    Move,
    /// A worker takes the batch's front in hand.
    Hand,
    /// A worker puts the frame in hand back.
    PutBack,
    /// The batch's front goes out of the line.
    Out,
    /// No frame is ready.
    NotReady,
    /// A file gets an owner or is given back, a read finds an owner, or a turn finds no backend or a stopped ring.
    Owner,
    /// A chain is fetched from a ring.
    Fetch,
    /// A packet is copied to or from its chains.
    Copy,
    /// The chains that are done are published.
    PublishUsed,
    /// The driver's notices are turned on or off.
    Notices,
    /// Bytes are written to a guest's memory.
    Poke,
    /// Bytes are read from a guest's memory.
    Peek,
    /// A call of a vhost's control, or of a driver.
    Drive,
    /// A frame is given to the host.
    HostIn,
}

/// One step of one command of one actor.
#[derive(Clone, Copy, Debug, PartialEq, Eq)]
pub struct Event {
    pub actor: u16,
    /// The number of the command.
    pub command: u32,
    pub kind: EventKind,
}

/// What an event found that isn't the last of its command.
#[derive(Clone, Copy, Debug, PartialEq, Eq)]
pub enum Found {
    /// The version that a look saw, or that a publication made.
    Version(u64),
    /// The place that was claimed.
    Place { file: u16, place: u64, epoch: u16 },
    /// How many places were given out when the gate was shut or the ring resized.
    Claimed(u64),
    /// The epoch under which the gate was opened.
    Epoch(u16),
    /// The frame that moved, went out, was put back or was given to the host.
    Moved(Name),
    /// The place at which no frame is ready.
    NotReady { place: u64 },
    /// The owner that a file has now.
    Owner(Option<u16>),
    /// The step on a guest.
    Step(Kind),
}

/// What an event answers: the command's answer where it is the command's last one.
#[derive(Debug, Drop)]
pub enum Heard {
    Found(Found),
    Answer(Answer),
}

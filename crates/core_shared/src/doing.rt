//! How far a command has come.

use tap_frame::{Frame, Name, Shape};
use tap_ledger::TapErr;
use tap_steer::Op;
use tap_trace::ChainText;

/// What is kept of a frame that a transmit turn gave to the host.
#[derive(Clone, Copy, Debug, PartialEq, Eq)]
pub struct GivenFrame {
    pub name: Name,
    /// The hash of its flow.
    pub flow: u32,
}

/// How far a command has come, with what it carries: its file, its operation, its vhost and ring, its frame.
pub enum Doing {
    /// No event yet.
    Begun,
    /// It changes the table alone, and is to publish its operation.
    Changes {
        op: Op,
    },
    /// An attach, to open the file's gate.
    Opens {
        file: u16,
        op: Op,
    },
    /// An attach whose gate is open, to publish.
    Opened {
        file: u16,
        op: Op,
    },
    /// A detach, to publish.
    Withdraws {
        file: u16,
        op: Op,
    },
    /// A detach that published this version, to shut the gate.
    Withdrawn {
        file: u16,
        version: u64,
    },
    /// A detach that published this version, to empty batch and ring.
    Purges {
        file: u16,
        version: u64,
    },
    /// A resize, to change the capacity to this one.
    Resizes {
        file: u16,
        capacity: u16,
    },
    /// A resize, to cut what is over the capacity, and to publish.
    Shrinks {
        file: u16,
        capacity: u16,
        /// How many places were given out when the ring was resized.
        claimed: u64,
        /// How many frames it has cut.
        cuts: u64,
    },
    /// A send with a row: its file, the epoch of that file's gate, and the frame as it is kept.
    Routed {
        file: u16,
        epoch: u16,
        frame: Frame,
    },
    /// A send with a place.
    Placed {
        file: u16,
        place: u64,
        epoch: u16,
        frame: Frame,
    },
    /// A read: its room in bytes, and what stands in front of frames.
    Reads {
        file: u16,
        room: u32,
        shape: Shape,
    },
    /// A write of this frame, and whether its flow is learnt.
    Hosts {
        file: u16,
        frame: Frame,
        learns: bool,
    },
    /// The frame is with the host, and its flow is to be learnt.
    Learns {
        file: u16,
        frame: Frame,
    },
    /// A backend, to be set or unset in the ring; and the table's refusal.
    Backs {
        vhost: u16,
        ring: u16,
        file: Option<u16>,
        refusal: Option<TapErr>,
    },
    /// A backend that is set in the ring, to publish.
    Backed {
        vhost: u16,
        ring: u16,
        file: u16,
    },
    /// A receive ring's backend that was published as this version, to make the worker the file's owner.
    Owns {
        vhost: u16,
        file: u16,
        version: u64,
    },
    /// A backend that was taken off a receive ring, to give its file back.
    Unbacked {
        vhost: u16,
        file: u16,
    },
    /// It is given back, to publish.
    Disowned {
        vhost: u16,
        file: u16,
    },
    /// A backend that was taken off a transmit ring, to publish.
    Released {
        vhost: u16,
        file: u16,
    },
    /// A receive turn of a vhost on a file; its worker is the vhost's.
    Receives {
        vhost: u16,
        file: u16,
    },
    /// A transmit turn of a vhost on a file, and what became of its chains.
    Transmits {
        vhost: u16,
        file: u16,
        chains: Vec<ChainText>,
    },
    /// A transmit turn whose frame is with the host, to look.
    Given {
        vhost: u16,
        file: u16,
        chains: Vec<ChainText>,
        frame: GivenFrame,
    },
    /// A transmit turn, to learn that frame's flow.
    Teaches {
        vhost: u16,
        file: u16,
        chains: Vec<ChainText>,
        frame: GivenFrame,
    },
}

impl Doing {
    // The frame that it carries, if it carries one.
    fn into_frame(self) -> Option<Frame> {
        match self {
            Doing::Routed {
                file: _,
                epoch: _,
                frame,
            }
            | Doing::Placed {
                file: _,
                place: _,
                epoch: _,
                frame,
            }
            | Doing::Hosts {
                file: _,
                frame,
                learns: _,
            }
            | Doing::Learns { file: _, frame } => Some(frame),
            Doing::Begun
            | Doing::Changes { op: _ }
            | Doing::Opens { file: _, op: _ }
            | Doing::Opened { file: _, op: _ }
            | Doing::Withdraws { file: _, op: _ }
            | Doing::Withdrawn {
                file: _,
                version: _,
            }
            | Doing::Purges {
                file: _,
                version: _,
            }
            | Doing::Resizes {
                file: _,
                capacity: _,
            }
            | Doing::Shrinks {
                file: _,
                capacity: _,
                claimed: _,
                cuts: _,
            }
            | Doing::Reads {
                file: _,
                room: _,
                shape: _,
            }
            | Doing::Backs {
                vhost: _,
                ring: _,
                file: _,
                refusal: _,
            }
            | Doing::Backed {
                vhost: _,
                ring: _,
                file: _,
            }
            | Doing::Owns {
                vhost: _,
                file: _,
                version: _,
            }
            | Doing::Unbacked { vhost: _, file: _ }
            | Doing::Disowned { vhost: _, file: _ }
            | Doing::Released { vhost: _, file: _ }
            | Doing::Receives { vhost: _, file: _ }
            | Doing::Transmits {
                vhost: _,
                file: _,
                chains: _,
            }
            | Doing::Given {
                vhost: _,
                file: _,
                chains: _,
                frame: _,
            }
            | Doing::Teaches {
                vhost: _,
                file: _,
                chains: _,
                frame: _,
            } => None,
        }
    }

    /// Ends the frame that it carries, if it carries one.
    pub fn abandon(self) {
        if let Some(frame) = self.into_frame() {
            frame.end();
        }
    }
}

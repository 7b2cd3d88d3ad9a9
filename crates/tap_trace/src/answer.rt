//! What commands answer.

use crate::causes::{DriveText, VhostText};
use crate::turn::{ChainText, TurnText};
use sqlite_items::Items;
use tap_frame::{BadFrame, Name};
use tap_ledger::{Cause, TapErr};

/// What a command answered.
#[derive(Debug, Drop)]
pub enum Answer {
    /// `ok`: the command is done.
    Done,
    /// `ok VERSION`: the operation was published as this version.
    Version(u64),
    /// `ok VERSION`, and in the next line `resize CLAIMED FREED CUT`: the ring of a file was resized.
    Resized {
        version: u64,
        claimed: u64,
        freed: u64,
        /// How many frames were cut.
        cut: u64,
    },
    /// `host LEN FNV`: the host got a frame of so many Ethernet bytes of this hash.
    Host {
        len: u32,
        fnv: u32,
    },
    /// `base N`: the ring is at this position.
    Base(u16),
    /// `bytes HEX`: these bytes stand in the guest's memory.
    Peeked(Items<u8>),
    /// `posted HEAD`: the chain begins at this descriptor.
    Posted(u16),
    /// `harvest ID:LEN ..`: these chains came back, with so many bytes written.
    Harvested(Items<(u32, u32)>),
    /// `nodriver`: the ring has no driver.
    NoDriver,
    /// `fault ADDR`: the first byte that isn't in the guest's memory.
    Fault {
        addr: u64,
    },
    /// `turn PACKETS BYTES END`, and for each chain of a transmit turn a line.
    Turn {
        packets: u32,
        bytes: u64,
        end: TurnText,
        chains: Items<ChainText>,
    },
    /// `bad N`: the bytes are no frame.
    Bad(BadFrame),
    /// `placed F PLACE EPOCH LEN`: the frame has a place in the line of the file.
    Placed {
        file: u16,
        place: u64,
        epoch: u16,
        len: u32,
    },
    /// `drop CAUSE F ..`: the frame was discarded; the file is there where it had been chosen.
    Dropped {
        file: Option<u16>,
        cause: Cause,
    },
    /// `read NAME PLACE HEX`: the frame of this name was read, and these are its bytes in the room.
    Read {
        name: Name,
        place: u64,
        bytes: Items<u8>,
    },
    /// `err EINVAL LEAST`: the room of a read has to be at least this.
    Room {
        least: u64,
    },
    /// `err EBUSY`: a worker reads the file.
    Busy,
    /// `err EAGAIN PLACE`: no frame waits, and the next one will have this place.
    Again {
        place: u64,
    },
    /// `err ..`: the queue table refuses the operation, or the file has no device.
    Tap(TapErr),
    /// `verr ..`: the vhost refuses the command.
    Vhost(VhostText),
    /// `derr ..`: the driver refuses the command.
    Drive(DriveText),
}

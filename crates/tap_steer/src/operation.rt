//! The operations on the table.

ghost use Rattle.std.specs.Prelude.{◌≡◌};
ghost use Rattle.tap_steer.specs.Table.{is_set};

use tap_ledger::Side;

/// A tap device, the one kind that there is.
pub const IFF_TAP: u16 = 0x0002;
/// A device with several queues.
pub const IFF_MULTI_QUEUE: u16 = 0x0100;
/// No packet information in front of frames.
pub const IFF_NO_PI: u16 = 0x1000;
/// A header in front of frames.
pub const IFF_VNET_HDR: u16 = 0x4000;
/// Only where the device doesn't exist yet.
pub const IFF_TUN_EXCL: u16 = 0x8000;
/// A tun device, and the two kinds of polling: what isn't there.
pub const IFF_UNSUPPORTED: u16 = 0x0031;
/// Enables a queue again.
pub const IFF_ATTACH_QUEUE: u16 = 0x0200;
/// Disables a queue.
pub const IFF_DETACH_QUEUE: u16 = 0x0400;

/// An operation on the table.
#[derive(Clone, Copy, Debug, PartialEq, Eq)]
pub enum Op {
    /// Attaches a file to the device of a name, which is made where there is none.
    SetIff {
        file: u16,
        device: u16,
        flags: u16,
    },
    /// Attaches or detaches the queue of a file.
    SetQueue {
        file: u16,
        flags: u16,
    },
    /// Closes a file.
    Shut {
        file: u16,
    },
    /// Sets the header size of a file's device.
    HdrSize {
        file: u16,
        size: u32,
    },
    /// Says whether a file's device stays without files.
    Persist {
        file: u16,
        on: bool,
    },
    /// Learns that a flow was seen at the queue of a file.
    Learn {
        file: u16,
        hash: u32,
    },
    /// Sets the clock, in milliseconds.
    Tick {
        now: u64,
    },
    /// Sets the program that chooses the queue.
    Steering {
        file: u16,
        program: Option<u16>,
    },
    /// Sets the program that cuts and drops frames.
    Filter {
        file: u16,
        program: Option<u16>,
    },
    /// Makes a file the backend of a vhost's ring, or of none.
    Back {
        file: u16,
        side: Side,
        vhost: Option<u16>,
    },
    /// Sets how many frames the ring of a file holds.
    Resize {
        file: u16,
        capacity: u16,
    },
}

/// Whether flags have this one, or one of these.
pub(crate) fn is_set(flags: u16, flag: u16) -> bool
    ensures { result ≡ is_set flags flag }
{
    flags & flag != 0
}

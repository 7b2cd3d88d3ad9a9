//! Why a command is refused.

/// Why a command on a vhost is refused.
#[derive(Clone, Copy, Debug, PartialEq, Eq)]
pub enum VhostText {
    /// A value that can't be set.
    EINVAL,
    /// The ring has a backend.
    EBUSY,
    /// A part of the ring isn't in memory.
    EFAULT,
    /// The vhost has no such ring.
    ENOBUFS,
    /// The header size of the features isn't that of the device.
    EHDR {
        /// The header size of the features.
        want: u16,
        /// The header size of the device, 0 without one.
        have: u16,
    },
    /// A feature that isn't offered.
    ENOTSUP,
}

/// Why a command of a ring's driver is refused.
#[derive(Clone, Copy, Debug, PartialEq, Eq)]
pub enum DriveText {
    /// The address isn't aligned.
    Unaligned,
    /// The area has this first byte outside memory.
    Outside { first_bad: u64 },
    /// No buffer may be so long.
    TooLong { len: u32 },
    /// The chain needs more descriptors than are free.
    Full { need: u16, free: u16 },
    /// The device published a descriptor that isn't the head of a chain in flight.
    Stray { id: u32 },
}

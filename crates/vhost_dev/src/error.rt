//! Why a control call is refused.
ghost use Rattle.std.specs.Prelude.{◌≡◌};
ghost use Rattle.vhost_dev.specs.Settings.{number_of_error};

use thiserror::Error;

/// Why a control call is refused, by the name that Linux has for it.
#[derive(Clone, Copy, Debug, PartialEq, Eq, Error)]
pub enum VhostErr {
    /// A number or an address can't be used.
    #[error("the value can't be used")]
    EINVAL,
    /// A ring concerned has a backend.
    #[error("a ring has a backend")]
    EBUSY,
    /// A part of the ring isn't in the guest's memory.
    #[error("the ring isn't in memory")]
    EFAULT,
    /// The device has no such ring.
    #[error("there is no such ring")]
    ENOBUFS,
    /// What stands in front of the file's frames isn't the device's header.
    #[error("the header has {have} bytes where {want} are wanted")]
    EHDR {
        /// The size of the device's header.
        want: u16,
        /// That of the file's header, 0 where it has none.
        have: u16,
    },
    /// A feature is asked for that the device hasn't.
    #[error("a feature isn't offered")]
    ENOTSUP,
    /// No memory was left.
    #[error("out of memory")]
    NoMemory,
}

impl VhostErr {
    /// The refusal's number, 1 to 6, and 0 for want of memory, which is no refusal of the call.
    pub fn number(&self) -> u8
        ensures { result ≡ number_of_error self.now }
    {
        match self {
            VhostErr::EINVAL => 1,
            VhostErr::EBUSY => 2,
            VhostErr::EFAULT => 3,
            VhostErr::ENOBUFS => 4,
            VhostErr::EHDR { .. } => 5,
            VhostErr::ENOTSUP => 6,
            VhostErr::NoMemory => 0,
        }
    }
}

//! What a device was made with and set to.

ghost use Rattle.std.specs.Prelude.{◌≡◌};

use crate::operation::{IFF_MULTI_QUEUE, IFF_NO_PI, IFF_VNET_HDR, is_set};

/// The size of the header of a new device.
const FIRST_HEADER_SIZE: u16 = 10;

/// What a device was made with and set to.
#[derive(Clone, Copy, Debug, PartialEq, Eq)]
pub struct Settings {
    /// Whether it may have several queues.
    pub multi_queue: bool,
    /// Whether packet information stands in front of each frame.
    pub pi: bool,
    /// Whether a header stands in front of each frame.
    pub header: bool,
    /// Whether it stays when its last file leaves.
    pub persistent: bool,
    /// The size of the header in bytes.
    pub header_size: u16,
    /// The place of the program that chooses the queue of a frame.
    pub steering: Option<u16>,
    /// The place of the program that cuts and drops frames.
    pub filter: Option<u16>,
}

impl Settings {
    ghost use Rattle.tap_steer.specs.After.{new_settings, with_front};

    /// Those of a device that is made with these flags.
    pub(crate) fn new(flags: u16) -> Settings
        ensures { result ≡ new_settings flags }
    {
        Settings {
            multi_queue: is_set(flags, IFF_MULTI_QUEUE),
            pi: !is_set(flags, IFF_NO_PI),
            header: is_set(flags, IFF_VNET_HDR),
            persistent: false,
            header_size: FIRST_HEADER_SIZE,
            steering: None,
            filter: None,
        }
    }

    /// The same with what stands in front of frames from these flags.
    pub(crate) fn with_front(self, flags: u16) -> Settings
        ensures { result ≡ with_front flags self }
    {
        Settings {
            pi: !is_set(flags, IFF_NO_PI),
            header: is_set(flags, IFF_VNET_HDR),
            ..self
        }
    }
}

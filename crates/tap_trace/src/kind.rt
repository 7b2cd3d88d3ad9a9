//! The kinds of steps on a guest.

use tap_frame::Name;

/// What a step on a guest did, of this vhost and ring.
#[derive(Clone, Copy, Debug, PartialEq, Eq)]
pub enum Kind {
    /// `fetch V R POSITION HEAD`: a worker took the chain at this position, which begins at this descriptor.
    Fetch {
        vhost: u16,
        ring: u16,
        position: u16,
        head: u16,
    },
    /// `none V R`: no chain was there.
    None {
        vhost: u16,
        ring: u16,
    },
    /// `crowded V R`: the next chain would have been more than one packet may have.
    Crowded {
        vhost: u16,
        ring: u16,
    },
    /// `halt V R N`: the ring broke this rule, and was stopped.
    Halt {
        vhost: u16,
        ring: u16,
        fault: u8,
    },
    /// `copy V R POSITION NAME`: the bytes of a packet were copied; without a name where the frame is refused.
    Copy {
        vhost: u16,
        ring: u16,
        /// The position of the first of the packet's chains.
        position: u16,
        name: Option<Name>,
    },
    /// `publish V R COUNT CALL`: so many chains were published, and whether a notice was needed.
    Publish {
        vhost: u16,
        ring: u16,
        count: u16,
        call: bool,
    },
    /// `notices V R B`: the driver's notices were turned on or off.
    Notices {
        vhost: u16,
        ring: u16,
        on: bool,
    },
    /// `off V R`: a turn found no backend.
    Off {
        vhost: u16,
        ring: u16,
    },
    /// `stopped V R`: a turn found the ring stopped.
    Stopped {
        vhost: u16,
        ring: u16,
    },
    /// `features V`.
    Features {
        vhost: u16,
    },
    /// `num V R`.
    Num {
        vhost: u16,
        ring: u16,
    },
    /// `base V R`.
    Base {
        vhost: u16,
        ring: u16,
    },
    /// `addr V R`.
    Addr {
        vhost: u16,
        ring: u16,
    },
    /// `getbase V R`.
    GetBase {
        vhost: u16,
        ring: u16,
    },
    /// `backend V R B`: whether the ring's backend was set or unset.
    Backend {
        vhost: u16,
        ring: u16,
        set: bool,
    },
    /// `poke`.
    Poke,
    /// `peek`.
    Peek,
    /// `drive V R`.
    Drive {
        vhost: u16,
        ring: u16,
    },
    /// `post V R`.
    Post {
        vhost: u16,
        ring: u16,
    },
    /// `harvest V R`.
    Harvest {
        vhost: u16,
        ring: u16,
    },
}

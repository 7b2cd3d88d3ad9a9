//! Which queue gets a frame.

ghost use Rattle.std.specs.Prelude.{◌≡◌, ◌<◌};
ghost use Rattle.tap_steer.specs.Select as word;

use tap_queues::Row;

/// What becomes of a frame that is sent to a device.
#[derive(Clone, Copy, Debug, PartialEq, Eq)]
pub enum Select {
    /// It goes to a queue.
    Row {
        /// The file whose queue it is, and since which epoch.
        row: Row,
        /// How many of its bytes are kept.
        keep: u32,
        /// How often the capacity of that file was changed.
        resizes: u8,
        /// How many frames the ring of that file holds.
        capacity: u16,
    },
    /// There is no such device, or no queue.
    NoQueue,
    /// The filter drops it.
    Filtered,
}

/// The queue of a hash among this many: its share of all hashes.
pub fn scaled(hash: u32, queues: u16) -> u16
    ensures value { result ≡ word.scaled hash queues }
    ensures within { 0 < queues → result < queues }
{
    ((u64::from(hash) * u64::from(queues)) >> 32) as u16
}

//! The report as plain data.

use sqlite_items::Items;
use tap_ledger::Counters;
use text_fields::DeviceName;

/// The report of a run.
#[derive(Debug, Drop)]
pub struct Summary {
    /// A device for each name of the scenario, by number.
    pub devices: Items<DeviceRow>,
    /// The declared files, by number.
    pub files: Items<FileRow>,
    /// Rings 0 and 1 of each declared vhost.
    pub rings: Items<RingRow>,
    /// The fates of all frames, and the sum of their lengths.
    pub total: Counters,
}

/// The frames of one device.
#[derive(Debug, Drop)]
pub struct DeviceRow {
    pub name: DeviceName,
    /// Frames that came from user space.
    pub rx: u64,
    /// Frames that went to a reader or to a guest.
    pub tx: u64,
    /// Frames that were dropped and never had a place.
    pub dropped: u64,
}

/// The frames that had a place in the line of a file, by what became of them.
#[derive(Clone, Copy, Debug, PartialEq, Eq)]
pub struct FileRow {
    pub file: u16,
    pub waiting: u64,
    pub read: u64,
    pub guest: u64,
    pub purged: u64,
    pub overrun: u64,
    pub cut: u64,
}

/// What was done on one ring.
#[derive(Clone, Copy, Debug, PartialEq, Eq)]
pub struct RingRow {
    pub vhost: u16,
    pub ring: u16,
    /// Published chains.
    pub chains: u64,
    /// Accepted frames of a transmit ring, delivered ones of a receive ring.
    pub frames: u64,
    /// The bytes of its turns.
    pub bytes: u64,
    /// Needed notices.
    pub calls: u64,
    /// Refused frames.
    pub bad: u64,
    /// The number of the fault by which it is stopped, or 0.
    pub stopped: u8,
}

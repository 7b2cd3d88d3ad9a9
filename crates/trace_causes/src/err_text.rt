//! What stands behind `err` in an answer.

use tap_trace::TapText;

/// What stands behind `err` in an answer.
#[derive(Clone, Copy, Debug, PartialEq, Eq)]
pub enum ErrText {
    /// `EINVAL LEAST`: a read has less room than the least.
    Room { least: u64 },
    /// `EBUSY` alone: another reads.
    Busy,
    /// `EAGAIN PLACE`: the place isn't ready.
    Again { place: u64 },
    /// The table refuses an operation.
    Tap(TapText),
}

//! The two sides of a vhost.

/// One of the two sides.
#[derive(Clone, Copy, Debug, PartialEq, Eq)]
pub enum Side {
    /// Receive: frames go from a file to a guest.
    Rx,
    /// Transmit: frames come from a guest.
    Tx,
}

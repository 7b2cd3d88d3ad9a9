//! Chains that are done.

/// A chain that the device is done with, as it is published.
#[derive(Clone, Copy, Debug, PartialEq, Eq)]
pub struct PackedDone {
    /// The chain's id.
    pub id: u16,
    /// How many descriptors it has in the ring.
    pub count: u16,
    /// How many bytes were written into its writable pieces.
    pub len: u32,
}

//! Chains that are done.

/// A chain that the device is done with, and that isn't published yet.
#[derive(Clone, Copy, Debug, PartialEq, Eq)]
pub struct Done {
    /// The chain's head.
    pub head: u16,
    /// How many bytes were written into its writable pieces.
    pub len: u32,
}

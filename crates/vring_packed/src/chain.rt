//! Chains that were fetched.

use crate::place::Place;

/// A chain that was fetched.
#[derive(Clone, Copy, Debug, PartialEq, Eq)]
pub struct PackedChain {
    /// The place of its first descriptor.
    pub place: Place,
    /// Its id.
    pub id: u16,
    /// How many descriptors it has in the ring.
    pub count: u16,
}

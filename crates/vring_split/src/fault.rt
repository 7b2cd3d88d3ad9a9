//! What can be wrong with a ring.
ghost use Rattle.std.specs.Prelude.{◌≡◌};
ghost use Rattle.vring_split.specs.Split.{number_of_fault};

use thiserror::Error;

/// What is wrong with a ring that a driver wrote: the first rule that it breaks.
#[derive(Clone, Copy, Debug, PartialEq, Eq, Error)]
pub enum RingFault {
    /// The available index is more than the queue size ahead of the last position.
    #[error("the available index is too far ahead")]
    AvailJump,
    /// The head is not in the descriptor table.
    #[error("the head isn't in the descriptor table")]
    HeadRange,
    /// NEXT leads out of the table that the descriptor stands in.
    #[error("NEXT leads out of its table")]
    NextRange,
    /// The chain has more descriptors in a table than the table has entries.
    #[error("more descriptors than the table has entries")]
    TooLong,
    /// INDIRECT stands in an indirect table.
    #[error("INDIRECT in an indirect table")]
    Nested,
    /// INDIRECT stands beside NEXT.
    #[error("INDIRECT beside NEXT")]
    IndirectNext,
    /// An indirect table's length is 0, no multiple of 16, or above 16,384.
    #[error("an indirect table of a bad length")]
    IndirectLength,
    /// A table or a segment does not lie wholly in memory.
    #[error("{len} bytes at {addr:#x} aren't in memory")]
    Unmapped {
        /// Where it starts, as an address of the guest.
        addr: u64,
        /// How many bytes it has.
        len: u32,
    },
    /// A readable segment comes after a writable one.
    #[error("a readable segment after a writable one")]
    Order,
    /// A segment is readable on a receive ring, or writable on a transmit ring.
    #[error("a segment of the wrong direction")]
    Direction,
    /// The chain has more than 1,024 segments.
    #[error("more than 1,024 segments")]
    TooManySegments,
    /// INDIRECT is set, and the feature was not agreed on.
    #[error("INDIRECT wasn't agreed on")]
    IndirectOff,
}

impl RingFault {
    /// The fault's number, 1 to 12.
    pub fn number(&self) -> u8
        ensures { result ≡ number_of_fault self.now }
    {
        match self {
            RingFault::AvailJump => 1,
            RingFault::HeadRange => 2,
            RingFault::NextRange => 3,
            RingFault::TooLong => 4,
            RingFault::Nested => 5,
            RingFault::IndirectNext => 6,
            RingFault::IndirectLength => 7,
            RingFault::Unmapped { .. } => 8,
            RingFault::Order => 9,
            RingFault::Direction => 10,
            RingFault::TooManySegments => 11,
            RingFault::IndirectOff => 12,
        }
    }
}

//! Why a call of a driver is refused.

use thiserror::Error;

/// Why an area can't be driven.
#[derive(Clone, Copy, Debug, PartialEq, Eq, Error)]
pub enum DriveErr {
    /// It doesn't start at a multiple of 16.
    #[error("the area doesn't start at a multiple of 16")]
    Unaligned,
    /// A byte of it is in no region.
    #[error("address {first_bad} is in no region")]
    Outside {
        /// The first such address.
        first_bad: u64,
    },
    /// No memory was left.
    #[error("out of memory")]
    NoMemory,
}

/// Why a chain isn't posted.
#[derive(Clone, Copy, Debug, PartialEq, Eq, Error)]
pub enum PostErr {
    /// A length is above 2,048.
    #[error("a length of {len} is above 2,048")]
    TooLong {
        /// The first such length.
        len: u32,
    },
    /// Too few descriptors are free.
    #[error("{need} descriptors are needed and {free} are free")]
    Full {
        /// How many are needed, 65,535 where it is more.
        need: u16,
        /// How many are free.
        free: u16,
    },
    /// No memory was left.
    #[error("out of memory")]
    NoMemory,
}

/// A used entry whose head isn't out.
#[derive(Clone, Copy, Debug, PartialEq, Eq, Error)]
#[error("used entry {id} isn't the head of a chain that is out")]
pub struct StrayUsed {
    /// The entry's id.
    pub id: u32,
}

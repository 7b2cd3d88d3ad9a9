//! Segments of chains.
/// A piece of a chain: memory that the device reads, or writes.
#[derive(Clone, Copy, Debug, PartialEq, Eq)]
pub struct Segment {
    /// Where it starts, as an address of the guest.
    pub addr: u64,
    /// How many bytes it has, and it may have none.
    pub len: u32,
    /// Whether the device writes it, and does not read it.
    pub write: bool,
}

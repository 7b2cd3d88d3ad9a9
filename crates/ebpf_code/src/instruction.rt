//! Instructions and slots.

use crate::operation::Operation;
use crate::register::Register;

/// An instruction: its operation and its fields.
#[derive(Clone, Copy, Debug, PartialEq, Eq)]
pub struct Instruction {
    pub operation: Operation,
    pub destination: Register,
    pub source: Register,
    /// The bits of the signed number of slots from the next slot to the target.
    pub offset: u16,
    /// The bits of a signed number.
    pub immediate: u32,
}

/// A slot of a program.
#[derive(Clone, Copy, Debug, PartialEq, Eq)]
pub enum Slot {
    /// An instruction begins here.
    Begins(Instruction),
    /// The second slot of a wide instruction: the high half of its number.
    HighHalf(u32),
}

//! The faults of a program.

ghost use Rattle.std.specs.Prelude.{◌≡◌};
ghost use Rattle.ebpf_code.specs.Faults.{number};

use thiserror::Error;

/// What is wrong at a place of a program.
#[derive(Clone, Copy, Debug, PartialEq, Eq, Error)]
pub enum CodeWhy {
    /// There are no bytes, or their number is no multiple of 8.
    #[error("there are no bytes, or no multiple of 8")]
    Length,
    /// The opcode isn't in the table.
    #[error("unknown opcode")]
    Opcode,
    /// A used register is above 10, R10 is read or written, or a wide instruction has a source.
    #[error("a register that can't be used here")]
    Register,
    /// A jump goes backward.
    #[error("a jump goes backward")]
    Backward,
    /// A jump goes to the end or past it, or a wide instruction stands in the last slot.
    #[error("a jump leads to the end or past it")]
    Beyond,
    /// A register is read that isn't set on some path from the start.
    #[error("a register is read before it is set")]
    Unset,
    /// The last instruction isn't the end of the program.
    #[error("the last instruction isn't the end")]
    NoExit,
    /// A jump goes to the second slot of a wide instruction.
    #[error("a jump leads into a wide instruction")]
    HalfWide,
    /// There are more than 4,096 slots.
    #[error("more than 4,096 slots")]
    TooMany,
    /// An unused field isn't 0, or the width of a byte swap isn't 16, 32 or 64.
    #[error("an unused field isn't 0, or no such width")]
    Field,
}

impl CodeWhy {
    /// The number of the fault, 1 to 10.
    pub fn number(self) -> u8
        ensures { result ≡ number self }
    {
        match self {
            CodeWhy::Length => 1,
            CodeWhy::Opcode => 2,
            CodeWhy::Register => 3,
            CodeWhy::Backward => 4,
            CodeWhy::Beyond => 5,
            CodeWhy::Unset => 6,
            CodeWhy::NoExit => 7,
            CodeWhy::HalfWide => 8,
            CodeWhy::TooMany => 9,
            CodeWhy::Field => 10,
        }
    }
}

/// A fault, and the slot at which it is: 0 to 4,096.
#[derive(Clone, Copy, Debug, PartialEq, Eq, Error)]
#[error("{why} (slot {place})")]
pub struct CodeFault {
    /// What is wrong.
    pub why: CodeWhy,
    /// The slot.
    pub place: u16,
}

//! Programs after RFC 9669 for the forward-only profile: read, checked and written again.
//!
//! A `Program` is made by `accept` alone, which answers it or the first fault of the bytes. To a
//! contract a program is the list of its bytes, and it has no fault. Its slots, one for each 8 bytes,
//! say which instruction begins there, with its operation and its registers; its steps are the same
//! instructions with their operands decoded, as the crate `ebpf_run` runs them.
//!
//! `specs/Instruction.antt` has the encoding and the table of the instruction set, from which the
//! faults of `specs/Faults.antt` and the steps of the crate `ebpf_run` are read.
#![tactic(auto)]

mod check;
mod decoded;
mod encoding;
mod fault;
mod instruction;
mod laws;
mod operation;
mod pass;
mod program;
mod register;
mod set;
mod step;

pub use encoding::Encoding;
pub use fault::{CodeFault, CodeWhy};
pub use instruction::{Instruction, Slot};
pub use laws::{first_fault_laws, program_laws};
pub use operation::{
    Arithmetic, ByteOrder, Condition, LoadMode, LoadSize, Operation, Source, Uses, Width,
};
pub use program::{Program, accept, encode};
pub use register::Register;
pub use step::{Code, Step};
pub use tap_ground::OrMemory;

#[cfg(test)]
mod tests;

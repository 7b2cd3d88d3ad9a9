//! Tables to time.

use ebpf_code::Program;
use std::alloc::{AllocError, Global};
use tap_steer::{NAMES, Op, Steer};

/// A tap with several queues and no packet information.
pub const FLAGS: u16 = 0x1102;

/// A table of so many files, with these programs.
pub fn table_of(alloc: Global, programs: Vec<Program>, files: usize) -> Result<Steer, AllocError> {
    let flows = Vec::from_slice(alloc, &[(4096, 3000); NAMES])?;
    Steer::new(alloc, programs, vec![in alloc; 4; files]?, flows)
}

/// Whether an operation is lawful; it is done then.
pub fn act(steer: &mut Steer, op: &Op) -> bool {
    if !steer.is_named(op) || steer.refuse(op).is_some() {
        return false;
    }
    steer.apply(op);
    true
}

/// Attaches the files of these numbers to a device, and answers how many were.
pub fn attach_all(steer: &mut Steer, from: u16, to: u16, device: u16) -> u16 {
    let mut attached: u16 = 0;
    for file in from..to {
        if act(
            steer,
            &Op::SetIff {
                file,
                device,
                flags: FLAGS,
            },
        ) {
            attached = attached.wrapping_add(1);
        }
    }
    attached
}

//! What follows of the faults of a program, as contracts of functions that do nothing.

ghost use Rattle.ebpf_code.specs.FirstFault.{FirstFaultIsFirst, NoneIsNoFault};
ghost use Rattle.ebpf_code.specs.Sound.{FaultlessIsSound};

/// The first fault that is computed is the first one by place and then by number, and there is none exactly where
/// the bytes are a program.
pub fn first_fault_laws()
    ensures first { FirstFaultIsFirst }
    ensures none { NoneIsNoFault }
{}

/// A program without faults can be run, instruction by instruction.
pub fn program_laws()
    ensures { FaultlessIsSound }
{}

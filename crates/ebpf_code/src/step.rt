//! Steps: instructions as they are run, decoded once.

ghost use Rattle.std.specs.Prelude.{◌≡◌, ◌<◌, ◌+◌, IfOk, length, slice_get};
ghost use Rattle.ebpf_code.specs.Step.{calculation_code, branch_code, load_code, code_of, sign_extended, number_of, step_of, high_of, step_in, AreDecoded};

use crate::instruction::{Instruction, Slot};
use crate::operation::{
    Arithmetic, ByteOrder, Condition, LoadMode, LoadSize, Operation, Source, Width,
};
use crate::register::Register;
use std::alloc::{AllocError, Global};

/// What a step does, with the width of its operands.
#[derive(Clone, Copy, Debug, PartialEq, Eq)]
pub enum Code {
    AddImmediate64,
    SubtractImmediate64,
    MultiplyImmediate64,
    DivideImmediate64,
    OrImmediate64,
    AndImmediate64,
    ShiftLeftImmediate64,
    ShiftRightImmediate64,
    ModuloImmediate64,
    XorImmediate64,
    MoveImmediate64,
    ShiftRightSignedImmediate64,
    AddRegister64,
    SubtractRegister64,
    MultiplyRegister64,
    DivideRegister64,
    OrRegister64,
    AndRegister64,
    ShiftLeftRegister64,
    ShiftRightRegister64,
    ModuloRegister64,
    XorRegister64,
    MoveRegister64,
    ShiftRightSignedRegister64,
    AddImmediate32,
    SubtractImmediate32,
    MultiplyImmediate32,
    DivideImmediate32,
    OrImmediate32,
    AndImmediate32,
    ShiftLeftImmediate32,
    ShiftRightImmediate32,
    ModuloImmediate32,
    XorImmediate32,
    MoveImmediate32,
    ShiftRightSignedImmediate32,
    AddRegister32,
    SubtractRegister32,
    MultiplyRegister32,
    DivideRegister32,
    OrRegister32,
    AndRegister32,
    ShiftLeftRegister32,
    ShiftRightRegister32,
    ModuloRegister32,
    XorRegister32,
    MoveRegister32,
    ShiftRightSignedRegister32,
    Negate64,
    Negate32,
    /// Keeps the low 16 bits.
    Truncate16,
    Truncate32,
    Truncate64,
    /// Keeps the low 16 bits, with their bytes the other way round.
    Reverse16,
    Reverse32,
    Reverse64,
    /// The wide instruction.
    LoadWide,
    /// From the frame, at the number.
    LoadWord,
    LoadHalf,
    LoadByte,
    /// From the frame, at the number plus the first register.
    LoadWordIndirect,
    LoadHalfIndirect,
    LoadByteIndirect,
    JumpAlways,
    JumpEqualImmediate64,
    JumpAboveImmediate64,
    JumpAboveOrEqualImmediate64,
    JumpCommonBitsImmediate64,
    JumpNotEqualImmediate64,
    JumpSignedAboveImmediate64,
    JumpSignedAboveOrEqualImmediate64,
    JumpBelowImmediate64,
    JumpBelowOrEqualImmediate64,
    JumpSignedBelowImmediate64,
    JumpSignedBelowOrEqualImmediate64,
    JumpEqualRegister64,
    JumpAboveRegister64,
    JumpAboveOrEqualRegister64,
    JumpCommonBitsRegister64,
    JumpNotEqualRegister64,
    JumpSignedAboveRegister64,
    JumpSignedAboveOrEqualRegister64,
    JumpBelowRegister64,
    JumpBelowOrEqualRegister64,
    JumpSignedBelowRegister64,
    JumpSignedBelowOrEqualRegister64,
    JumpEqualImmediate32,
    JumpAboveImmediate32,
    JumpAboveOrEqualImmediate32,
    JumpCommonBitsImmediate32,
    JumpNotEqualImmediate32,
    JumpSignedAboveImmediate32,
    JumpSignedAboveOrEqualImmediate32,
    JumpBelowImmediate32,
    JumpBelowOrEqualImmediate32,
    JumpSignedBelowImmediate32,
    JumpSignedBelowOrEqualImmediate32,
    JumpEqualRegister32,
    JumpAboveRegister32,
    JumpAboveOrEqualRegister32,
    JumpCommonBitsRegister32,
    JumpNotEqualRegister32,
    JumpSignedAboveRegister32,
    JumpSignedAboveOrEqualRegister32,
    JumpBelowRegister32,
    JumpBelowOrEqualRegister32,
    JumpSignedBelowRegister32,
    JumpSignedBelowOrEqualRegister32,
    /// The end of the program.
    End,
}

/// An instruction with its operands decoded.
#[derive(Clone, Copy, Debug, PartialEq, Eq)]
pub struct Step {
    pub code: Code,
    /// The register of the first operand, which gets the result.
    pub first: Register,
    /// The register of the second operand, for a code that takes one.
    pub second: Register,
    /// How many slots a jump goes on from its own.
    pub distance: u32,
    /// The second operand of any other code.
    pub number: u64,
}

impl Step {
    /// The step of an instruction, with the high half in the slot behind it.
    fn of(instruction: &Instruction, high: u32) -> Step
        ensures { result ≡ step_of instruction.now high }
    {
        let operation = instruction.operation;
        Step {
            code: Code::of(operation, instruction.immediate),
            first: instruction.destination,
            second: instruction.source,
            distance: 1 + u32::from(instruction.offset),
            number: number_of(operation, instruction.immediate, high),
        }
    }

    /// The step of the slot at a place.
    fn at(slots: &[Slot], place: usize) -> Step
        requires { place < length slots.now }
        ensures { result ≡ step_in (slice_get slots.now place) (slice_get slots.now (place + 1)) }
    {
        match &slots[place] {
            Slot::Begins(instruction) => Step::of(instruction, high_half(slots, place + 1)),
            Slot::HighHalf(_) => Step {
                code: Code::End,
                first: Register::new(0),
                second: Register::new(0),
                distance: 1,
                number: 0,
            },
        }
    }
}

impl Code {
    fn of(operation: Operation, immediate: u32) -> Code
        ensures { result ≡ code_of operation immediate }
    {
        match operation {
            Operation::Calculate(width, arithmetic, source) => {
                Code::calculation(width, arithmetic, source)
            }
            Operation::Negate(Width::Bits64) => Code::Negate64,
            Operation::Negate(Width::Bits32) => Code::Negate32,
            Operation::SwapBytes(order) => Code::swap(order, immediate),
            Operation::LoadImmediate => Code::LoadWide,
            Operation::LoadFrame(mode, size) => Code::load(mode, size),
            Operation::Jump => Code::JumpAlways,
            Operation::Branch(width, condition, source) => Code::branch(width, condition, source),
            Operation::Exit => Code::End,
        }
    }

    fn calculation(width: Width, arithmetic: Arithmetic, source: Source) -> Code
        ensures { result ≡ calculation_code width arithmetic source }
    {
        match (width, source) {
            (Width::Bits64, Source::Immediate) => Code::calculation_immediate_64(arithmetic),
            (Width::Bits64, Source::Register) => Code::calculation_register_64(arithmetic),
            (Width::Bits32, Source::Immediate) => Code::calculation_immediate_32(arithmetic),
            (Width::Bits32, Source::Register) => Code::calculation_register_32(arithmetic),
        }
    }

    fn calculation_immediate_64(arithmetic: Arithmetic) -> Code
        ensures { result ≡ calculation_code Width.Bits64 arithmetic Source.Immediate }
    {
        match arithmetic {
            Arithmetic::Add => Code::AddImmediate64,
            Arithmetic::Subtract => Code::SubtractImmediate64,
            Arithmetic::Multiply => Code::MultiplyImmediate64,
            Arithmetic::Divide => Code::DivideImmediate64,
            Arithmetic::Or => Code::OrImmediate64,
            Arithmetic::And => Code::AndImmediate64,
            Arithmetic::ShiftLeft => Code::ShiftLeftImmediate64,
            Arithmetic::ShiftRight => Code::ShiftRightImmediate64,
            Arithmetic::Modulo => Code::ModuloImmediate64,
            Arithmetic::Xor => Code::XorImmediate64,
            Arithmetic::Move => Code::MoveImmediate64,
            Arithmetic::ShiftRightSigned => Code::ShiftRightSignedImmediate64,
        }
    }

    fn calculation_register_64(arithmetic: Arithmetic) -> Code
        ensures { result ≡ calculation_code Width.Bits64 arithmetic Source.Register }
    {
        match arithmetic {
            Arithmetic::Add => Code::AddRegister64,
            Arithmetic::Subtract => Code::SubtractRegister64,
            Arithmetic::Multiply => Code::MultiplyRegister64,
            Arithmetic::Divide => Code::DivideRegister64,
            Arithmetic::Or => Code::OrRegister64,
            Arithmetic::And => Code::AndRegister64,
            Arithmetic::ShiftLeft => Code::ShiftLeftRegister64,
            Arithmetic::ShiftRight => Code::ShiftRightRegister64,
            Arithmetic::Modulo => Code::ModuloRegister64,
            Arithmetic::Xor => Code::XorRegister64,
            Arithmetic::Move => Code::MoveRegister64,
            Arithmetic::ShiftRightSigned => Code::ShiftRightSignedRegister64,
        }
    }

    fn calculation_immediate_32(arithmetic: Arithmetic) -> Code
        ensures { result ≡ calculation_code Width.Bits32 arithmetic Source.Immediate }
    {
        match arithmetic {
            Arithmetic::Add => Code::AddImmediate32,
            Arithmetic::Subtract => Code::SubtractImmediate32,
            Arithmetic::Multiply => Code::MultiplyImmediate32,
            Arithmetic::Divide => Code::DivideImmediate32,
            Arithmetic::Or => Code::OrImmediate32,
            Arithmetic::And => Code::AndImmediate32,
            Arithmetic::ShiftLeft => Code::ShiftLeftImmediate32,
            Arithmetic::ShiftRight => Code::ShiftRightImmediate32,
            Arithmetic::Modulo => Code::ModuloImmediate32,
            Arithmetic::Xor => Code::XorImmediate32,
            Arithmetic::Move => Code::MoveImmediate32,
            Arithmetic::ShiftRightSigned => Code::ShiftRightSignedImmediate32,
        }
    }

    fn calculation_register_32(arithmetic: Arithmetic) -> Code
        ensures { result ≡ calculation_code Width.Bits32 arithmetic Source.Register }
    {
        match arithmetic {
            Arithmetic::Add => Code::AddRegister32,
            Arithmetic::Subtract => Code::SubtractRegister32,
            Arithmetic::Multiply => Code::MultiplyRegister32,
            Arithmetic::Divide => Code::DivideRegister32,
            Arithmetic::Or => Code::OrRegister32,
            Arithmetic::And => Code::AndRegister32,
            Arithmetic::ShiftLeft => Code::ShiftLeftRegister32,
            Arithmetic::ShiftRight => Code::ShiftRightRegister32,
            Arithmetic::Modulo => Code::ModuloRegister32,
            Arithmetic::Xor => Code::XorRegister32,
            Arithmetic::Move => Code::MoveRegister32,
            Arithmetic::ShiftRightSigned => Code::ShiftRightSignedRegister32,
        }
    }

    fn branch(width: Width, condition: Condition, source: Source) -> Code
        ensures { result ≡ branch_code width condition source }
    {
        match (width, source) {
            (Width::Bits64, Source::Immediate) => Code::branch_immediate_64(condition),
            (Width::Bits64, Source::Register) => Code::branch_register_64(condition),
            (Width::Bits32, Source::Immediate) => Code::branch_immediate_32(condition),
            (Width::Bits32, Source::Register) => Code::branch_register_32(condition),
        }
    }

    fn branch_immediate_64(condition: Condition) -> Code
        ensures { result ≡ branch_code Width.Bits64 condition Source.Immediate }
    {
        match condition {
            Condition::Equal => Code::JumpEqualImmediate64,
            Condition::Above => Code::JumpAboveImmediate64,
            Condition::AboveOrEqual => Code::JumpAboveOrEqualImmediate64,
            Condition::CommonBits => Code::JumpCommonBitsImmediate64,
            Condition::NotEqual => Code::JumpNotEqualImmediate64,
            Condition::SignedAbove => Code::JumpSignedAboveImmediate64,
            Condition::SignedAboveOrEqual => Code::JumpSignedAboveOrEqualImmediate64,
            Condition::Below => Code::JumpBelowImmediate64,
            Condition::BelowOrEqual => Code::JumpBelowOrEqualImmediate64,
            Condition::SignedBelow => Code::JumpSignedBelowImmediate64,
            Condition::SignedBelowOrEqual => Code::JumpSignedBelowOrEqualImmediate64,
        }
    }

    fn branch_register_64(condition: Condition) -> Code
        ensures { result ≡ branch_code Width.Bits64 condition Source.Register }
    {
        match condition {
            Condition::Equal => Code::JumpEqualRegister64,
            Condition::Above => Code::JumpAboveRegister64,
            Condition::AboveOrEqual => Code::JumpAboveOrEqualRegister64,
            Condition::CommonBits => Code::JumpCommonBitsRegister64,
            Condition::NotEqual => Code::JumpNotEqualRegister64,
            Condition::SignedAbove => Code::JumpSignedAboveRegister64,
            Condition::SignedAboveOrEqual => Code::JumpSignedAboveOrEqualRegister64,
            Condition::Below => Code::JumpBelowRegister64,
            Condition::BelowOrEqual => Code::JumpBelowOrEqualRegister64,
            Condition::SignedBelow => Code::JumpSignedBelowRegister64,
            Condition::SignedBelowOrEqual => Code::JumpSignedBelowOrEqualRegister64,
        }
    }

    fn branch_immediate_32(condition: Condition) -> Code
        ensures { result ≡ branch_code Width.Bits32 condition Source.Immediate }
    {
        match condition {
            Condition::Equal => Code::JumpEqualImmediate32,
            Condition::Above => Code::JumpAboveImmediate32,
            Condition::AboveOrEqual => Code::JumpAboveOrEqualImmediate32,
            Condition::CommonBits => Code::JumpCommonBitsImmediate32,
            Condition::NotEqual => Code::JumpNotEqualImmediate32,
            Condition::SignedAbove => Code::JumpSignedAboveImmediate32,
            Condition::SignedAboveOrEqual => Code::JumpSignedAboveOrEqualImmediate32,
            Condition::Below => Code::JumpBelowImmediate32,
            Condition::BelowOrEqual => Code::JumpBelowOrEqualImmediate32,
            Condition::SignedBelow => Code::JumpSignedBelowImmediate32,
            Condition::SignedBelowOrEqual => Code::JumpSignedBelowOrEqualImmediate32,
        }
    }

    fn branch_register_32(condition: Condition) -> Code
        ensures { result ≡ branch_code Width.Bits32 condition Source.Register }
    {
        match condition {
            Condition::Equal => Code::JumpEqualRegister32,
            Condition::Above => Code::JumpAboveRegister32,
            Condition::AboveOrEqual => Code::JumpAboveOrEqualRegister32,
            Condition::CommonBits => Code::JumpCommonBitsRegister32,
            Condition::NotEqual => Code::JumpNotEqualRegister32,
            Condition::SignedAbove => Code::JumpSignedAboveRegister32,
            Condition::SignedAboveOrEqual => Code::JumpSignedAboveOrEqualRegister32,
            Condition::Below => Code::JumpBelowRegister32,
            Condition::BelowOrEqual => Code::JumpBelowOrEqualRegister32,
            Condition::SignedBelow => Code::JumpSignedBelowRegister32,
            Condition::SignedBelowOrEqual => Code::JumpSignedBelowOrEqualRegister32,
        }
    }

    fn load(mode: LoadMode, size: LoadSize) -> Code
        ensures { result ≡ load_code mode size }
    {
        match (mode, size) {
            (LoadMode::Absolute, LoadSize::Word) => Code::LoadWord,
            (LoadMode::Absolute, LoadSize::Half) => Code::LoadHalf,
            (LoadMode::Absolute, LoadSize::Byte) => Code::LoadByte,
            (LoadMode::Indirect, LoadSize::Word) => Code::LoadWordIndirect,
            (LoadMode::Indirect, LoadSize::Half) => Code::LoadHalfIndirect,
            (LoadMode::Indirect, LoadSize::Byte) => Code::LoadByteIndirect,
        }
    }

    fn swap(order: ByteOrder, bits: u32) -> Code
        ensures { result ≡ code_of (Operation.SwapBytes order) bits }
    {
        match (order, bits) {
            (ByteOrder::Little, 16) => Code::Truncate16,
            (ByteOrder::Little, 32) => Code::Truncate32,
            (ByteOrder::Little, _) => Code::Truncate64,
            (ByteOrder::Big, 16) => Code::Reverse16,
            (ByteOrder::Big, 32) => Code::Reverse32,
            (ByteOrder::Big, _) => Code::Reverse64,
        }
    }
}

/// A number of 32 bits as one of 64 bits with the same sign.
fn sign_extended(n: u32) -> u64
    ensures { result ≡ sign_extended n }
{
    if n < 0x8000_0000 {
        u64::from(n)
    } else {
        u64::from(n) + 0xffff_ffff_0000_0000
    }
}

fn number_of(operation: Operation, immediate: u32, high: u32) -> u64
    ensures { result ≡ number_of operation immediate high }
{
    match operation {
        Operation::LoadImmediate => u64::from(immediate) + 0x1_0000_0000 * u64::from(high),
        Operation::LoadFrame(_, _) => u64::from(immediate),
        _ => sign_extended(immediate),
    }
}

/// The high half in the slot at a place, or 0.
fn high_half(slots: &[Slot], place: usize) -> u32
    ensures { result ≡ high_of (slice_get slots.now place) }
{
    match slots.get(place) {
        Some(Slot::HighHalf(high)) => *high,
        _ => 0,
    }
}

/// The steps of slots.
pub fn steps_of(alloc: Global, slots: &[Slot]) -> Result<Vec<Step>, AllocError>
    ensures { IfOk result (λ steps. AreDecoded slots.now steps.items) }
{
    let mut steps = Vec::with_capacity(alloc, slots.len())?;
    for place in 0..slots.len() {
        steps.push(Step::at(slots, place))?;
    }
    Ok(steps)
}

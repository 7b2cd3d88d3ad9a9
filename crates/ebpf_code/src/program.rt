//! Programs: bytes in, bytes out.

ghost use Rattle.std.specs.Prelude.{◌≡◌, ◌*◌, ◌++◌, length, IfOk, OnOk, IfErr};
ghost use Rattle.tap_ground.specs.Errors.{IfFault};
ghost use Rattle.ebpf_code.specs.Faults.{NoFault, IsFirstFault};
ghost use Rattle.ebpf_code.specs.Program.{AreSlots};
ghost use Rattle.ebpf_code.specs.Sound.{IsSound};
ghost use Rattle.ebpf_code.specs.Step.{AreSteps};
ghost use Rattle.ebpf_code.specs.Spelling.{slot_bytes, spelling};

use crate::check::second_slots;
use crate::fault::{CodeFault, CodeWhy};
use crate::instruction::{Instruction, Slot};
use crate::pass::slots_of;
use crate::step::{Step, steps_of};
use std::alloc::{AllocError, Global};
use std::marker::Model;
use tap_ground::OrMemory;

/// A program without faults, of 1 to 4,096 slots. To a contract it is its bytes.
#[derive(Drop)]
pub struct Program {
    slots: Vec<Slot>,
    steps: Vec<Step>,
}

impl Model for Program {
    ghost use Rattle.std.specs.Prelude.{ℕ, List};
    ghost use Rattle.ebpf_code.specs.Spelling.{spelling};
    ghost use Rattle.ebpf_code.specs.Program.{IsProgram};
    ghost use Rattle.ebpf_code.specs.Step.{AreDecoded};

    ghost Value = { List ℕ };

    ghost view = { λ p. spelling p.slots.items };

    ghost invariant = { λ p. IsProgram p.slots.items × AreDecoded p.slots.items p.steps.items };
}

impl Program {
    /// How many slots it has, 1 to 4,096.
    pub fn len(&self) -> u16
        ensures { 8 * result ≡ length self.now }
    {
        self.slots.len() as u16
    }

    /// The slots, and that the program has no fault and so can be run.
    pub fn slots(&self) -> &[Slot]
        ensures slots { AreSlots self.now result.now }
        ensures sound { NoFault self.now }
        ensures runs { IsSound self.now }
    {
        &self.slots
    }

    /// The steps, one for each slot, decoded when the program was accepted.
    pub fn steps(&self) -> &[Step]
        ensures steps { AreSteps self.now result.now }
        ensures runs { IsSound self.now }
    {
        &self.steps
    }
}

/// The program of these bytes, or their first fault, by place and then by number.
pub fn accept(alloc: Global, bytes: &[u8]) -> Result<Program, OrMemory<CodeFault>>
    ensures accepted { IfOk result (λ program. program ≡ bytes.now) }
    ensures sound { OnOk result (NoFault bytes.now) }
    ensures refused { IfErr result (IfFault (IsFirstFault bytes.now)) }
{
    if bytes.is_empty() || bytes.len() % 8 != 0 {
        return Err(OrMemory::Fault(CodeFault {
            why: CodeWhy::Length,
            place: 0,
        }));
    }
    if bytes.len() / 8 > 4096 {
        return Err(OrMemory::Fault(CodeFault {
            why: CodeWhy::TooMany,
            place: 4096,
        }));
    }
    let seconds = second_slots(alloc, bytes)?;
    let slots = slots_of(alloc, bytes, &seconds)?;
    let steps = steps_of(alloc, &slots)?;
    Ok(Program { slots, steps })
}

/// The bytes of a program.
pub fn encode(alloc: Global, program: &Program) -> Result<Vec<u8>, AllocError>
    ensures { IfOk result (λ bytes. bytes.items ≡ program.now) }
{
    spell(alloc, &program.slots)
}

#[tactic(auto, unfolding(crate::specs::Spelling::spelling))]
fn spell(alloc: Global, slots: &[Slot]) -> Result<Vec<u8>, AllocError>
    ensures { IfOk result (λ bytes. bytes.items ≡ spelling slots.now) }
{
    let mut bytes = Vec::new(alloc);
    for slot in slots {
        push_slot(&mut bytes, slot)?;
    }
    Ok(bytes)
}

fn push_slot(bytes: &mut Vec<u8>, slot: &Slot) -> Result<(), AllocError>
    ensures { OnOk result (bytes.new.items ≡ bytes.old.items ++ slot_bytes slot.now) }
{
    match slot {
        Slot::Begins(instruction) => push_instruction(bytes, instruction),
        Slot::HighHalf(high) => {
            bytes.extend_from_slice(&[0, 0, 0, 0])?;
            bytes.extend_from_slice(&high.to_le_bytes())
        }
    }
}

fn push_instruction(bytes: &mut Vec<u8>, instruction: &Instruction) -> Result<(), AllocError>
    ensures { OnOk result (bytes.new.items ≡ bytes.old.items ++ slot_bytes (Slot.Begins instruction.now)) }
{
    let registers = instruction.destination.number() + 16 * instruction.source.number();
    bytes.push(instruction.operation.opcode())?;
    bytes.push(registers)?;
    bytes.extend_from_slice(&instruction.offset.to_le_bytes())?;
    bytes.extend_from_slice(&instruction.immediate.to_le_bytes())
}

//! An instruction as it was read, before it is known to have no fault.

ghost use Rattle.std.specs.Prelude.{◌≡◌, ◌+◌, ◌*◌, ◌^◌, ◌<◌, ◌≤◌, length};
ghost use Rattle.std.specs.Option.{option_map};
ghost use Rattle.ebpf_code.specs.Encoding.{encoding_at};
ghost use Rattle.ebpf_code.specs.Instruction.{writes, spoils, goes_backward, goes_forward, target};
ghost use Rattle.ebpf_code.specs.Faults.{instruction_of, misuses_register, goes_beyond, lacks_exit, has_stray_field, is_swap_width, is_plain};
ghost use Rattle.ebpf_code.specs.Sets.{read, enters_flagged};

use crate::encoding::Encoding;
use crate::instruction::Instruction;
use crate::operation::Operation;
use crate::register::Register;

/// An instruction as it was read, with fields that may be wrong.
#[derive(Clone, Copy)]
pub struct Decoded {
    pub operation: Operation,
    pub encoding: Encoding,
}

impl Decoded {
    /// The instruction whose first slot is at a place, or none where its opcode isn't in the table.
    pub fn at(bytes: &[u8], place: usize) -> Option<Decoded>
        requires { 8 * place + 8 ≤ length bytes.now }
        ensures { option_map read result ≡ instruction_of (encoding_at bytes.now place) }
    {
        let encoding = Encoding::at(bytes, place);
        match Operation::of(encoding.opcode) {
            Some(operation) => Some(Decoded {
                operation,
                encoding,
            }),
            None => None,
        }
    }

    /// The instruction, with its registers.
    pub fn instruction(&self) -> Instruction
        requires destination { self.now.encoding.destination < 11 }
        requires source { self.now.encoding.source < 11 }
        ensures { result ≡ read self.now }
    {
        Instruction {
            operation: self.operation,
            destination: Register::new(self.encoding.destination),
            source: Register::new(self.encoding.source),
            offset: self.encoding.offset,
            immediate: self.encoding.immediate,
        }
    }

    /// Whether it writes a register.
    pub fn writes(&self, register: u8) -> bool
        ensures { result ≡ writes (read self.now) register }
    {
        let writes_destination = self.operation.uses().writes_destination;
        let is_load = self.operation.is_load();
        (writes_destination && register == self.encoding.destination) || (is_load && register == 0)
    }

    /// Whether it leaves a register unset.
    pub fn spoils(&self, register: u8) -> bool
        ensures { result ≡ spoils (read self.now) register }
    {
        self.operation.is_load() && 1 <= register && register <= 5
    }

    /// Whether it uses a register that it can't use.
    pub fn misuses_register(&self) -> bool
        ensures { result ≡ misuses_register (read self.now) }
    {
        let uses = self.operation.uses();
        let is_wide = self.operation.is_wide();
        ((uses.reads_destination || uses.writes_destination) && self.encoding.destination >= 10)
            || (uses.source && self.encoding.source >= 10)
            || (is_wide && self.encoding.source != 0)
    }

    /// Whether it jumps to an earlier place.
    pub fn goes_backward(&self) -> bool
        ensures { result ≡ goes_backward (read self.now) }
    {
        self.operation.uses().offset && self.encoding.offset >= 0x8000
    }

    /// Whether it jumps to a later place.
    pub fn goes_forward(&self) -> bool
        ensures { result ≡ goes_forward (read self.now) }
    {
        self.operation.uses().offset && self.encoding.offset < 0x8000
    }

    /// Where it jumps to from a place.
    pub fn target(&self, place: usize) -> usize
        requires { place < 2 ^ 32 }
        ensures value { result ≡ target place (read self.now) }
        ensures later { place < result }
    {
        place + 1 + self.encoding.offset as usize
    }

    /// Whether it jumps past the last of `count` slots, or is cut off by the end.
    pub fn goes_beyond(&self, count: usize, place: usize) -> bool
        requires { place < 2 ^ 32 }
        ensures { result ≡ goes_beyond count place (read self.now) }
    {
        let is_wide = self.operation.is_wide();
        let target = self.target(place);
        let goes_forward = self.goes_forward();
        (goes_forward && count <= target) || (is_wide && count <= place + 1)
    }

    /// Whether it is the last of `count` slots, and not the end of the program.
    pub fn lacks_exit(&self, count: usize, place: usize) -> bool
        requires { place < 2 ^ 32 }
        ensures { result ≡ lacks_exit count place (read self.now) }
    {
        let slots = self.operation.slots();
        !self.operation.is_exit() && count <= place + slots
    }

    /// Whether it jumps to a place that is flagged.
    pub fn enters(&self, seconds: &[bool], place: usize) -> bool
        requires { place < 2 ^ 32 }
        ensures { result ≡ enters_flagged seconds.now place (read self.now) }
    {
        let target = self.target(place);
        self.goes_forward() && target < seconds.len() && seconds[target]
    }

    /// Whether a field that isn't used isn't 0, or it is a swap of another width.
    pub fn has_stray_field(&self) -> bool
        ensures { result ≡ has_stray_field (read self.now) }
    {
        let uses = self.operation.uses();
        let is_swap = self.operation.is_swap();
        let uses_destination = uses.reads_destination || uses.writes_destination;
        (!uses_destination && self.encoding.destination != 0)
            || (!uses.source && self.encoding.source != 0)
            || (!uses.offset && self.encoding.offset != 0)
            || (!uses.immediate && self.encoding.immediate != 0)
            || (is_swap && !is_swap_width(self.encoding.immediate))
    }
}

fn is_swap_width(bits: u32) -> bool
    ensures { result ≡ is_swap_width bits }
{
    bits == 16 || bits == 32 || bits == 64
}

/// Whether a slot has nothing but a number in its field imm.
pub fn is_plain(encoding: &Encoding) -> bool
    ensures { result ≡ is_plain encoding.now }
{
    encoding.opcode == 0
        && encoding.destination == 0
        && encoding.source == 0
        && encoding.offset == 0
}

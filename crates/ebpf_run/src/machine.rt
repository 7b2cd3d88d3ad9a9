//! One step of the machine.

ghost use Rattle.std.specs.Prelude.{◌≡◌, ◌^◌, ◌<◌, slice_index};
ghost use Rattle.ebpf_run.specs.Meaning.{start, number_at};
ghost use Rattle.ebpf_run.specs.Machine.{Holds};
ghost use Rattle.ebpf_run.specs.Step.{IsWritten, IsLoaded, DoesStep};

use crate::calculation::{Effect, effect_of, low_half};
use ebpf_code::{LoadSize, Register, Step};

/// Where a step leads: to a place, or to the end with a result.
#[derive(Clone, Copy)]
pub enum Next {
    At(usize),
    End(u32),
}

/// The numbers in the registers R0 to R10.
#[derive(Drop)]
pub struct Machine {
    registers: [u64; 11],
}

impl Machine {
    /// R1 has the frame's length.
    pub fn start(frame: &[u8]) -> Machine
        ensures { Holds result.registers (start frame.now) }
    {
        let length = frame.len() as u64;
        Machine {
            registers: [0, length, 0, 0, 0, 0, 0, 0, 0, 0, 0],
        }
    }

    fn read(&self, register: Register) -> u64
        ensures { result ≡ slice_index self.now.registers register }
    {
        self.registers[register.number() as usize]
    }

    fn write(&mut self, register: Register, value: u64)
        ensures { IsWritten self.old.registers register value self.new.registers }
    {
        self.registers[register.number() as usize] = value;
    }

    /// One step, at its place.
    #[inline(always)]
    pub fn step(&mut self, step: &Step, frame: &[u8], place: usize) -> Next
        requires { place < 2 ^ 32 }
        ensures { DoesStep step.now frame.now place self.old.registers result self.new.registers }
    {
        let x = self.read(step.first);
        let y = self.read(step.second);
        match effect_of(step.code, x, y, step.number) {
            Effect::Write(value) => {
                self.write(step.first, value);
                Next::At(place + 1)
            }
            Effect::WriteWide(value) => {
                self.write(step.first, value);
                Next::At(place + 2)
            }
            Effect::Jump(true) => Next::At(place + step.distance as usize),
            Effect::Jump(false) => Next::At(place + 1),
            Effect::Load(size, index) => self.load(number_at(frame, index, size), place),
            Effect::End => Next::End(low_half(self.registers[0])),
        }
    }

    #[inline(always)]
    fn load(&mut self, number: Option<u32>, place: usize) -> Next
        requires { place < 2 ^ 32 }
        ensures { IsLoaded number place self.old.registers result self.new.registers }
    {
        match number {
            Some(number) => {
                self.registers[0] = u64::from(number);
                Next::At(place + 1)
            }
            None => Next::End(0),
        }
    }
}

/// The bytes of the frame from an index on as a number, the first byte the highest.
#[inline(always)]
fn number_at(frame: &[u8], index: usize, size: LoadSize) -> Option<u32>
    ensures { result ≡ number_at frame.now index size }
{
    match size {
        LoadSize::Word => word_at(frame, index),
        LoadSize::Half => half_at(frame, index),
        LoadSize::Byte => byte_at(frame, index),
    }
}

#[inline(always)]
fn word_at(frame: &[u8], index: usize) -> Option<u32>
    ensures { result ≡ number_at frame.now index LoadSize.Word }
{
    if 4 <= frame.len() && index <= frame.len() - 4 {
        Some(u32::from_be_bytes([
            frame[index],
            frame[index + 1],
            frame[index + 2],
            frame[index + 3],
        ]))
    } else {
        None
    }
}

#[inline(always)]
fn half_at(frame: &[u8], index: usize) -> Option<u32>
    ensures { result ≡ number_at frame.now index LoadSize.Half }
{
    if 2 <= frame.len() && index <= frame.len() - 2 {
        Some(u32::from(u16::from_be_bytes([frame[index], frame[index + 1]])))
    } else {
        None
    }
}

#[inline(always)]
fn byte_at(frame: &[u8], index: usize) -> Option<u32>
    ensures { result ≡ number_at frame.now index LoadSize.Byte }
{
    if index < frame.len() {
        Some(u32::from(frame[index]))
    } else {
        None
    }
}

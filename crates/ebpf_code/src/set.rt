//! Sets of registers.

ghost use Rattle.std.specs.Prelude.{◌≡◌, ℕ, ◌<◌, ◌&&◌, ◌==◌, Some, not, false};
ghost use Rattle.ebpf_code.specs.Instruction.{writes, spoils};
ghost use Rattle.ebpf_code.specs.Faults.{set_after, misuses_register};
ghost use Rattle.ebpf_code.specs.Sets.{holds, read, lacks_read};

use crate::decoded::Decoded;

/// Which of the registers R0 to R10 are set.
#[derive(Clone, Copy)]
pub struct RegisterSet {
    set: [bool; 11],
}

impl RegisterSet {
    /// At the start R1 alone is set.
    pub fn start() -> RegisterSet
        ensures { (r : ℕ) → holds result r ≡ (r == 1) }
    {
        RegisterSet {
            set: [
                false, true, false, false, false, false, false, false, false, false, false,
            ],
        }
    }

    /// Whether a register is in the set.
    pub fn holds(&self, register: u8) -> bool
        requires { register < 11 }
        ensures { result ≡ holds self.now register }
    {
        self.set[register as usize]
    }

    /// Keeps what is in the other set too.
    pub fn meet(&mut self, other: &RegisterSet)
        ensures { (r : ℕ) → r < 11 → holds self.new r ≡ (holds self.old r && holds other.now r) }
    {
        for register in 0..11 {
            self.set[register] = self.set[register] && other.set[register];
        }
    }

    /// What is set after an instruction.
    pub fn after(&self, decoded: &Decoded) -> RegisterSet
        ensures { (r : ℕ) → r < 11 → holds result r ≡ set_after (Some (read decoded.now)) (holds self.now r) r }
    {
        let mut after = *self;
        for register in 0..11u8 {
            let index = register as usize;
            if decoded.writes(register) {
                after.set[index] = true;
            } else if decoded.spoils(register) {
                after.set[index] = false;
            }
        }
        after
    }

    /// Whether a register that an instruction reads isn't in the set.
    pub fn lacks_read(&self, decoded: &Decoded) -> bool
        requires { misuses_register (read decoded.now) ≡ false }
        ensures { result ≡ lacks_read self.now (read decoded.now) }
    {
        let uses = decoded.operation.uses();
        if uses.reads_destination && !self.holds(decoded.encoding.destination) {
            return true;
        }
        if uses.source && !self.holds(decoded.encoding.source) {
            return true;
        }
        decoded.operation.is_exit() && !self.holds(0)
    }
}

//! A guest: its memory, and the steps on it so far.

ghost use Rattle.std.specs.Prelude.{◌≡◌, ◌++◌, IfOk, IsOkUnless, IsErrOf, MatchOption, OnOk, OnErr, length, option_map, option_to_list};
ghost use Rattle.guest_mem.specs.Memory.{first_bad};
ghost use Rattle.guest_mem.specs.Regions.{refusal};
ghost use Rattle.tap_world.specs.Guests.{new_guest};
ghost use Rattle.tap_world.specs.StepControl.{peeked, poke_leaves, poke_told};
ghost use Rattle.tap_guests.specs.Steps.{step_by};

use guest_mem::{Memory, Region, RegionFault};
use sqlite_items::Items;
use std::alloc::{AllocError, Global};
use std::marker::Model;
use tap_trace::{Answer, Kind, StepLine};

/// A guest: its memory, and the steps on it so far.
#[derive(Debug, Drop)]
pub struct GuestMem {
    memory: Memory,
    steps: Vec<StepLine>,
}

impl Model for GuestMem {
    ghost use Rattle.tap_world.specs.Guests.{Guest};

    ghost Value = { Guest };

    ghost use Rattle.tap_guests.specs.Kept.{guest_of};

    ghost view = { guest_of };
}

impl GuestMem {
    /// A guest whose memory has these regions, all zeros, or the reason why they make no memory.
    pub fn new(alloc: Global, regions: &[Region]) -> Result<GuestMem, RegionFault>
        ensures refused { MatchOption (refusal regions.now) (IsOkUnless result RegionFault.NoMemory) (IsErrOf result) }
        ensures zeroed { IfOk result (λ g. g ≡ new_guest regions.now) }
    {
        Ok(GuestMem {
            memory: Memory::new(alloc, regions)?,
            steps: Vec::new(alloc),
        })
    }

    /// Its memory.
    pub fn memory(&self) -> &Memory
        ensures { result.now ≡ self.now.memory }
    {
        &self.memory
    }

    /// The steps on it, the first one first.
    pub fn steps(&self) -> &[StepLine]
        ensures { result.now ≡ self.now.steps }
    {
        self.steps.as_slice()
    }

    /// The steps on it, the first one first.
    pub fn into_steps(self) -> Vec<StepLine>
        ensures { result.items ≡ self.steps }
    {
        self.steps
    }

    /// A command of an actor made this step on it, or none.
    pub fn tell(&mut self, actor: u16, command: u32, step: Option<Kind>) -> Result<(), AllocError>
        ensures told { OnOk result (self.new
            ≡ record self.old { steps = self.old.steps ++ option_to_list (option_map (step_by actor command) step) }) }
        ensures unchanged { OnErr result (self.new ≡ self.old) }
    {
        if let Some(kind) = step {
            self.steps.push(StepLine {
                actor,
                command,
                kind,
            })?;
        }
        Ok(())
    }

    /// Writes these bytes from an address on. Where one of them isn't in the memory, nothing is written, and the
    /// first such address is told.
    pub fn poke(&mut self, addr: u64, bytes: &[u8]) -> Answer
        ensures told { result ≡ poke_told (first_bad self.old.memory.regions addr (length bytes.now)) }
        ensures leaves { self.new ≡ record self.old {
          memory = poke_leaves self.old.memory addr bytes.now
              (first_bad self.old.memory.regions addr (length bytes.now));
        } }
        ensures regions { self.new.memory.regions ≡ self.old.memory.regions }
    {
        match self.memory.write(addr, bytes) {
            Ok(()) => Answer::Done,
            Err(fault) => Answer::Fault {
                addr: fault.first_bad,
            },
        }
    }

    /// The `len` bytes from an address on, or the first of their addresses that isn't in the memory.
    pub fn peek(&self, alloc: Global, addr: u64, len: u32) -> Result<Answer, AllocError>
        ensures { IfOk result (λ answer. answer
            ≡ peeked addr len self.now.memory (first_bad self.now.memory.regions addr len)) }
    {
        match self.memory.bytes(addr, u64::from(len)) {
            Ok(bytes) => Ok(Answer::Peeked(Items::from_slice(alloc, bytes)?)),
            Err(fault) => Ok(Answer::Fault {
                addr: fault.first_bad,
            }),
        }
    }
}

impl GuestMem {
    ghost use Rattle.std.specs.Borrow.{sem};
    ghost use Rattle.tap_guests.specs.Lending.{LendsMemory};

    /// Its memory, to be worked on. What is done to it shows in the guest, whose steps stay.
    pub fn memory_mut(&mut self) -> &mut Memory
        ensures* lends { sem 𝓛 (LendsMemory self.entry result) }
        ensures memory { result.now ≡ self.old.memory }
    {
        &mut self.memory
    }
}

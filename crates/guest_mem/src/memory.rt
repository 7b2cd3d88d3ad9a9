//! The memory of a guest.
ghost use Rattle.std.specs.Prelude.{◌≡◌, ◌+◌, ◌^◌, ◌<◌, Some, IsTrue, false, is_ok, IfSome, IfNone, IfOk, IfErr, OnOk, OnErr, IsOkUnless, IsErrOf, MatchOption, length};
ghost use Rattle.guest_mem.specs.Memory.{is_there, byte_at, bytes_at, bytes_from, first_bad, covers, written, IsStretchAround};
ghost use Rattle.guest_mem.specs.Regions.{refusal, zeroed, IsSound};

use crate::block::Block;
use crate::region::{Region, RegionFault, region_fault};
use crate::{build, span};
use std::alloc::Global;
use std::marker::Model;

/// The memory of a guest.
#[derive(Debug, Drop)]
pub struct Memory {
    regions: Vec<Region>,
    blocks: Vec<Block>,
}

impl Model for Memory {
    ghost use Rattle.guest_mem.specs.Memory.{Contents};
    ghost use Rattle.guest_mem.specs.Blocks.{bytes_of, IsKept};

    ghost Value = { Contents };

    ghost view = { λ m. record { regions = m.regions.items; bytes = bytes_of m.blocks.items } };

    ghost invariant = { λ m. IsKept m.regions.items m.blocks.items };
}

/// A read or a write that leaves the memory.
#[derive(Clone, Copy, Debug, PartialEq, Eq)]
pub struct OutOfRange {
    /// The first address of the range that is in no region.
    pub first_bad: u64,
}

impl Memory {
    /// The memory of these regions, each byte 0, or the reason why they make none, as `region_fault`
    /// gives it.
    pub fn new(alloc: Global, regions: &[Region]) -> Result<Memory, RegionFault>
        ensures refused { MatchOption (refusal regions.now) (IsOkUnless result RegionFault.NoMemory) (IsErrOf result) }
        ensures zeroed { IfOk result (λ memory. memory ≡ zeroed regions.now) }
    {
        if let Some(fault) = region_fault(regions) {
            return Err(fault);
        }
        let blocks = build::lay_out(alloc, regions).map_err(|_| RegionFault::NoMemory)?;
        let regions = Vec::from_slice(alloc, regions).map_err(|_| RegionFault::NoMemory)?;
        Ok(Memory { regions, blocks })
    }

    /// Its regions, as they were given.
    pub fn regions(&self) -> &[Region]
        ensures regions { result.now ≡ self.now.regions }
        ensures sound { IsSound self.now }
    {
        self.regions.as_slice()
    }

    /// Whether each of the `len` addresses from `addr` on is in a region.
    #[inline]
    pub fn covers(&self, addr: u64, len: u64) -> bool
        ensures covered { result ≡ covers self.now.regions addr len }
        ensures fits { IsTrue result → 0 < len → addr + len < 2 ^ 64 }
    {
        self.bytes(addr, len).is_ok()
    }

    /// The first of the `len` addresses from `addr` on that is in no region.
    #[inline]
    pub fn first_bad(&self, addr: u64, len: u64) -> Option<u64>
        ensures { result ≡ first_bad self.now.regions addr len }
    {
        span::bytes_at(&self.blocks, addr, len).err()
    }

    /// The addresses around `addr` that are in a region, up to the next ones on either side that are in
    /// none; none if `addr` is in no region. Regions that touch are one stretch.
    #[inline]
    pub fn stretch_around(&self, addr: u64) -> Option<Region>
        ensures around { IfSome result (IsStretchAround self.now.regions addr) }
        ensures none { IfNone result (is_there self.now.regions addr ≡ false) }
    {
        match span::spot_of(&self.blocks, addr) {
            Some(spot) => Some(self.blocks[spot.block].region()),
            None => None,
        }
    }

    /// The `len` bytes from `addr` on, as they are kept: they may lie in several regions that touch.
    #[inline]
    pub fn bytes(&self, addr: u64, len: u64) -> Result<&[u8], OutOfRange>
        ensures covered { is_ok result ≡ covers self.now.regions addr len }
        ensures bytes { IfOk result (λ bytes. bytes.now ≡ bytes_from self.now.bytes addr len) }
        ensures looked_up { IfOk result (λ bytes. bytes.now ≡ bytes_at (byte_at self.now) addr len) }
        ensures bad { IfErr result (λ e. first_bad self.now.regions addr len ≡ Some e.first_bad) }
    {
        match span::bytes_at(&self.blocks, addr, len) {
            Ok(bytes) => Ok(bytes),
            Err(first_bad) => Err(OutOfRange { first_bad }),
        }
    }

    /// Fills the room with the bytes from `addr` on, which may lie in several regions that touch.
    #[inline]
    #[tactic(auto, using(crate::proofs::Ranges::length_bytes_at))]
    pub fn read(&self, addr: u64, room: &mut [u8]) -> Result<(), OutOfRange>
        ensures covered { is_ok result ≡ covers self.now.regions addr (length room.old) }
        ensures bytes { OnOk result (room.new ≡ bytes_from self.now.bytes addr (length room.old)) }
        ensures looked_up { OnOk result (room.new ≡ bytes_at (byte_at self.now) addr (length room.old)) }
        ensures bad { IfErr result (λ e. first_bad self.now.regions addr (length room.old) ≡ Some e.first_bad) }
        ensures room_unchanged { OnErr result (room.new ≡ room.old) }
    {
        let bytes = self.bytes(addr, room.len() as u64)?;
        room.copy_from_slice(bytes);
        Ok(())
    }

    /// Writes the bytes from `addr` on, which may lie in several regions that touch.
    #[inline]
    pub fn write(&mut self, addr: u64, bytes: &[u8]) -> Result<(), OutOfRange>
        ensures covered { is_ok result ≡ covers self.old.regions addr (length bytes.now) }
        ensures written { OnOk result (self.new ≡ written self.old addr bytes.now) }
        ensures bad { IfErr result (λ e. first_bad self.old.regions addr (length bytes.now) ≡ Some e.first_bad) }
        ensures unchanged { OnErr result (self.new ≡ self.old) }
    {
        match span::write_at(&mut self.blocks, addr, bytes) {
            Ok(()) => Ok(()),
            Err(first_bad) => Err(OutOfRange { first_bad }),
        }
    }
}

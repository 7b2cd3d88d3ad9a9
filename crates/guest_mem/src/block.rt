//! A run of bytes of a memory, without a gap.
ghost use Rattle.std.specs.Prelude.{◌≡◌, ◌+◌, replicate, IfOk};
ghost use Rattle.guest_mem.specs.Blocks.{end_of};

use crate::region::Region;
use std::alloc::{AllocError, Global};

/// Bytes at addresses that follow each other.
#[derive(Debug, Drop)]
pub struct Block {
    /// The first address.
    pub addr: u64,
    /// The bytes from there on.
    pub bytes: Vec<u8>,
}

impl Block {
    /// The block of a region, each byte 0.
    pub fn zeroed(alloc: Global, region: &Region) -> Result<Block, AllocError>
        ensures addr { IfOk result (λ b. b.addr ≡ region.now.addr) }
        ensures bytes { IfOk result (λ b. b.bytes.items ≡ replicate region.now.len 0) }
    {
        Ok(Block {
            addr: region.addr,
            bytes: vec![in alloc; 0u8; region.len as usize]?,
        })
    }

    /// The stretch of addresses that it has.
    #[inline]
    pub fn region(&self) -> Region
        ensures addr { result.addr ≡ self.now.addr }
        ensures end { result.addr + result.len ≡ end_of self.now }
    {
        Region {
            addr: self.addr,
            len: self.bytes.len() as u64,
        }
    }
}

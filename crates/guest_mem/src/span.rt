//! Ranges of addresses over blocks in rising order.
//!
//! Between two blocks there is an address that neither has, so that a range without a gap lies in one of
//! them: a range needs one search, for its first address.
ghost use Rattle.std.specs.Prelude.{◌≡◌, ℕ, ◌+◌, ◌<◌, ◌≤◌, None, length, slice_index, slice_index_or, IfSome, IfNone, IfOk, IfErr, OnOk, OnErr};
ghost use Rattle.guest_mem.specs.Memory.{CoversBy, HoldsBy, IsFirstBadBy};
ghost use Rattle.guest_mem.specs.Blocks.{byte_in, spliced_byte, AreApart, IsSpot, AreWritten};
ghost use Rattle.guest_mem.specs.declared.block.Block.{Block as OneBlock};

use crate::block::Block;

/// Where an address lies: in which block, and behind how many of its bytes.
#[derive(Clone, Copy)]
pub struct Spot {
    pub block: usize,
    pub before: usize,
}

/// How many blocks start at an address or before it: they are the first ones.
#[inline]
fn first_up_to(blocks: &[Block], addr: u64) -> usize
    requires { AreApart 0 blocks.now }
    ensures bound { result ≤ length blocks.now }
    ensures before { (k : ℕ) (d : OneBlock) → k < result → (slice_index_or blocks.now k d).addr ≤ addr }
    ensures after { (k : ℕ) (d : OneBlock) → result ≤ k → k < length blocks.now
        → addr < (slice_index_or blocks.now k d).addr }
{
    blocks.partition_point(|block| block.addr <= addr)
}

/// Where an address lies, if a block has it.
#[inline]
pub fn spot_of(blocks: &[Block], addr: u64) -> Option<Spot>
    requires { AreApart 0 blocks.now }
    ensures found { IfSome result (IsSpot blocks.now addr) }
    ensures none { IfNone result (byte_in blocks.now addr ≡ None) }
{
    let count = first_up_to(blocks, addr);
    if count == 0 {
        return None;
    }
    let block = count - 1;
    let before = addr - blocks[block].addr;
    if before >= blocks[block].bytes.len() as u64 {
        return None;
    }
    Some(Spot {
        block,
        before: before as usize,
    })
}

/// The bytes from an address on, or the first address of the range that no block has.
#[inline]
pub fn bytes_at(blocks: &[Block], addr: u64, len: u64) -> Result<&[u8], u64>
    requires { AreApart 0 blocks.now }
    ensures len { IfOk result (λ bytes. length bytes.now ≡ len) }
    ensures bytes { IfOk result (λ bytes. HoldsBy (byte_in blocks.now) addr bytes.now) }
    ensures bad { IfErr result (IsFirstBadBy (byte_in blocks.now) addr len) }
{
    match spot_of(blocks, addr) {
        Some(spot) => {
            let bytes = &blocks[spot.block].bytes[spot.before..];
            if len <= bytes.len() as u64 {
                Ok(&bytes[..len as usize])
            } else {
                Err(addr + bytes.len() as u64)
            }
        }
        None if len == 0 => Ok(&[]),
        None => Err(addr),
    }
}

/// Writes the source into the target from a place on.
#[inline]
fn splice(target: &mut [u8], at: usize, source: &[u8])
    requires { at + length source.now ≤ length target.old }
    ensures { (k : ℕ) → k < length target.old
        → slice_index target.new k ≡ spliced_byte target.old at source.now k }
{
    target[at..at + source.len()].copy_from_slice(source);
}

/// Writes the bytes from an address on, or tells the first address of the range that no block has.
#[inline]
pub fn write_at(blocks: &mut [Block], addr: u64, bytes: &[u8]) -> Result<(), u64>
    requires { AreApart 0 blocks.old }
    ensures covered { OnOk result (CoversBy (byte_in blocks.old) addr (length bytes.now)) }
    ensures written { OnOk result (AreWritten blocks.old blocks.new addr bytes.now) }
    ensures bad { IfErr result (IsFirstBadBy (byte_in blocks.old) addr (length bytes.now)) }
    ensures unchanged { OnErr result (blocks.new ≡ blocks.old) }
{
    match spot_of(blocks, addr) {
        Some(spot) => {
            let left = blocks[spot.block].bytes.len() - spot.before;
            if bytes.len() > left {
                return Err(addr + left as u64);
            }
            splice(&mut blocks[spot.block].bytes, spot.before, bytes);
            Ok(())
        }
        None if bytes.is_empty() => Ok(()),
        None => Err(addr),
    }
}

//! The lengths of the pieces of a chain.
ghost use Rattle.std.specs.Prelude.{◌≡◌, ◌+◌, ◌≤◌, nat_lt, All, find, length, IfOk};
ghost use Rattle.vring_drive.specs.Area.{slot_len};
ghost use Rattle.vring_drive.specs.Posts.{full_pieces, piece_lens};

use crate::area::SLOT_LEN;
use std::alloc::{AllocError, Global};

/// The first length that is more than a data slot has.
pub fn first_too_long(lens: &[u32]) -> Option<u32>
    ensures { result ≡ find (λ n. nat_lt slot_len n) lens.now }
{
    lens.iter().copied().find(|len| *len > SLOT_LEN)
}

/// How many pieces of some bytes fill a data slot, the last piece apart.
fn full_pieces(len: usize) -> usize
    ensures { result ≡ full_pieces len }
{
    len.saturating_sub(1) / SLOT_LEN as usize
}

/// How many pieces some bytes have.
pub fn piece_count(len: usize) -> usize
    ensures { result ≡ full_pieces len + 1 }
{
    full_pieces(len) + 1
}

/// The lengths of the pieces of some bytes.
pub fn piece_lens(alloc: Global, len: usize) -> Result<Vec<u32>, AllocError>
    ensures lens { IfOk result (λ lens. lens.items ≡ piece_lens len) }
    ensures count { IfOk result (λ lens. length lens.items ≡ full_pieces len + 1) }
    ensures small { IfOk result (λ lens. All (λ n. n ≤ 2048) lens.items) }
{
    let full = full_pieces(len);
    let mut lens = vec![in alloc; SLOT_LEN; full]?;
    lens.push((len - SLOT_LEN as usize * full) as u32)?;
    Ok(lens)
}

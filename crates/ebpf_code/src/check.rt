//! The tests of one instruction, in the order of the faults' numbers.

ghost use Rattle.std.specs.Prelude.{◌≡◌, ℕ, ◌+◌, ◌*◌, ◌%◌, ◌^◌, ◌<◌, ◌≤◌, length, Some, None, true, false, IfOk, IfErr, OnOk, slice_index_or, slice_set};
ghost use Rattle.ebpf_code.specs.Faults.{is_second, instruction_at, slot_at, misuses_register, misuses_field, goes_beyond, lacks_exit, HasNone, IsLeast};
ghost use Rattle.ebpf_code.specs.Instruction.{is_wide, leads};
ghost use Rattle.ebpf_code.specs.Encoding.{encoding_at};
ghost use Rattle.ebpf_code.specs.Sets.{read, holds, kept_holds, kept_lacks, Meets, IsKept, AreKept, AreSeconds};

use crate::decoded::{Decoded, is_plain};
use crate::encoding::Encoding;
use crate::fault::CodeWhy;
use crate::instruction::Slot;
use crate::set::RegisterSet;
use std::alloc::{AllocError, Global};

/// Which slots are the second of a wide instruction.
#[tactic(auto, using(crate::proofs::Places::is_second_next))]
pub fn second_slots(alloc: Global, bytes: &[u8]) -> Result<Vec<bool>, AllocError>
    requires { length bytes.now % 8 ≡ 0 }
    ensures { IfOk result (λ flags. AreSeconds bytes.now flags.items) }
{
    let count = bytes.len() / 8;
    let mut flags = Vec::with_capacity(alloc, count)?;
    let mut second = false;
    for place in 0..count {
        flags.push(second)?;
        second = bytes[8 * place] == 0x18 && !second;
    }
    Ok(flags)
}

/// The instruction at a place, or what is wrong with it, where `kept` is what is set on every path to it.
pub fn check(
    bytes: &[u8],
    seconds: &[bool],
    place: usize,
    kept: &Option<RegisterSet>,
) -> Result<Decoded, CodeWhy>
    requires seconds { AreSeconds bytes.now seconds.now }
    requires within { place < length seconds.now }
    requires few { length seconds.now ≤ 4096 }
    requires begins { is_second bytes.now place ≡ false }
    requires kept { IsKept bytes.now place place kept.now }
    ensures found { IfOk result (λ d. instruction_at bytes.now place ≡ Some (read d)) }
    ensures none { OnOk result (HasNone bytes.now place) }
    ensures fault { IfErr result (IsLeast bytes.now place) }
{
    let Some(decoded) = Decoded::at(bytes, place) else {
        return Err(CodeWhy::Opcode);
    };
    if decoded.misuses_register() {
        return Err(CodeWhy::Register);
    }
    if decoded.goes_backward() {
        return Err(CodeWhy::Backward);
    }
    if decoded.goes_beyond(seconds.len(), place) {
        return Err(CodeWhy::Beyond);
    }
    if lacks_read(kept, &decoded) {
        return Err(CodeWhy::Unset);
    }
    if decoded.lacks_exit(seconds.len(), place) {
        return Err(CodeWhy::NoExit);
    }
    if decoded.enters(seconds, place) {
        return Err(CodeWhy::HalfWide);
    }
    if misuses_field(bytes, place, &decoded) {
        return Err(CodeWhy::Field);
    }
    Ok(decoded)
}

fn lacks_read(kept: &Option<RegisterSet>, decoded: &Decoded) -> bool
    requires { misuses_register (read decoded.now) ≡ false }
    ensures { result ≡ kept_lacks kept.now (read decoded.now) }
{
    match kept {
        Some(set) => set.lacks_read(decoded),
        None => false,
    }
}

fn misuses_field(bytes: &[u8], place: usize, decoded: &Decoded) -> bool
    requires few { place < 2 ^ 32 }
    requires whole { is_wide decoded.now.operation ≡ true → 8 * place + 16 ≤ length bytes.now }
    ensures { result ≡ misuses_field (read decoded.now) (encoding_at bytes.now (place + 1)) }
{
    if decoded.has_stray_field() {
        return true;
    }
    if decoded.operation.is_wide() {
        !is_plain(&Encoding::at(bytes, place + 1))
    } else {
        false
    }
}

//! The one pass over the slots of a program.

ghost use Rattle.std.specs.Prelude.{◌≡◌, ℕ, ◌+◌, ◌*◌, ◌<◌, ◌≤◌, ◌&&◌, length, Some, None, true, false, IfOk, IfErr, OnOk, OnErr, slice_get, slice_index_or, slice_set};
ghost use Rattle.tap_ground.specs.Errors.{IfFault};
ghost use Rattle.ebpf_code.specs.Faults.{is_second, slot_at, goes_beyond, lacks_exit, HasNone, IsLeast, NoFault, IsFirstFault};
ghost use Rattle.ebpf_code.specs.Instruction.{leads};
ghost use Rattle.ebpf_code.specs.Sets.{read, holds, kept_holds, Meets, AreKept, AreSeconds, kept_at};
ghost use Rattle.ebpf_code.specs.Program.{AreSlots};

use crate::check::check;
use crate::decoded::Decoded;
use crate::encoding::Encoding;
use crate::fault::{CodeFault, CodeWhy};
use crate::instruction::Slot;
use crate::set::RegisterSet;
use std::alloc::{AllocError, Global};
use tap_ground::OrMemory;

/// A path comes to a place with this set.
fn meet_at(sets: &mut [Option<RegisterSet>], place: usize, set: &RegisterSet)
    requires { place < length sets.old }
    ensures here { Meets (kept_at sets.old place) set.now (kept_at sets.new place) }
    ensures others { (p : ℕ) → (p ≡ place → ⊥) → kept_at sets.new p ≡ kept_at sets.old p }
{
    let met = match sets[place] {
        Some(kept) => met(&kept, set),
        None => *set,
    };
    sets[place] = Some(met);
}

fn met(kept: &RegisterSet, set: &RegisterSet) -> RegisterSet
    ensures { (r : ℕ) → r < 11 → holds result r ≡ (holds kept.now r && holds set.now r) }
{
    let mut both = *kept;
    both.meet(set);
    both
}

/// A path goes on from a place with this set, to each place to which the instruction leads.
fn spread(sets: &mut [Option<RegisterSet>], place: usize, decoded: &Decoded, set: &RegisterSet)
    requires few { length sets.old ≤ 4096 }
    requires here { place < length sets.old }
    requires within { goes_beyond (length sets.old) place (read decoded.now) ≡ false }
    requires exit { lacks_exit (length sets.old) place (read decoded.now) ≡ false }
    ensures next { (p : ℕ) → leads place (read decoded.now) p ≡ true
        → Meets (kept_at sets.old p) set.now (kept_at sets.new p) }
    ensures others { (p : ℕ) → leads place (read decoded.now) p ≡ false → kept_at sets.new p ≡ kept_at sets.old p }
{
    if decoded.operation.falls_through() {
        meet_at(sets, place + decoded.operation.slots(), set);
    }
    if decoded.goes_forward() {
        meet_at(sets, decoded.target(place), set);
    }
}

/// The slot at a place, after whose instruction the sets are those of all paths so far.
fn next_slot(
    bytes: &[u8],
    seconds: &[bool],
    place: usize,
    sets: &mut [Option<RegisterSet>],
) -> Result<Slot, CodeWhy>
    requires seconds { AreSeconds bytes.now seconds.now }
    requires within { place < length seconds.now }
    requires few { length seconds.now ≤ 4096 }
    requires sets { length sets.old ≡ length seconds.now }
    requires kept { AreKept bytes.now place sets.old }
    ensures slot { IfOk result (λ slot. slot_at bytes.now place ≡ Some slot) }
    ensures none { OnOk result (HasNone bytes.now place) }
    ensures kept { OnOk result (AreKept bytes.now (place + 1) sets.new) }
    ensures fault { IfErr result (IsLeast bytes.now place) }
{
    if seconds[place] {
        return Ok(Slot::HighHalf(Encoding::at(bytes, place).immediate));
    }
    let kept = sets[place];
    let decoded = match check(bytes, seconds, place, &kept) {
        Ok(decoded) => decoded,
        Err(why) => return Err(why),
    };
    if let Some(set) = kept {
        let after = set.after(&decoded);
        spread(sets, place, &decoded, &after);
    }
    Ok(Slot::Begins(decoded.instruction()))
}

/// The slots of the bytes, or their first fault.
pub fn slots_of(
    alloc: Global,
    bytes: &[u8],
    seconds: &[bool],
) -> Result<Vec<Slot>, OrMemory<CodeFault>>
    requires seconds { AreSeconds bytes.now seconds.now }
    requires some { 0 < length seconds.now }
    requires few { length seconds.now ≤ 4096 }
    ensures slots { IfOk result (λ slots. AreSlots bytes.now slots.items) }
    ensures none { OnOk result (NoFault bytes.now) }
    ensures fault { IfErr result (IfFault (IsFirstFault bytes.now)) }
{
    let mut sets = vec![in alloc; None; seconds.len()]?;
    sets[0] = Some(RegisterSet::start());
    let mut slots = Vec::with_capacity(alloc, seconds.len())?;
    for place in 0..seconds.len() {
        match next_slot(bytes, seconds, place, &mut sets) {
            Ok(slot) => slots.push(slot)?,
            Err(why) => {
                let place = place as u16;
                return Err(OrMemory::Fault(CodeFault { why, place }));
            }
        }
    }
    Ok(slots)
}

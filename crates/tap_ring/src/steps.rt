//! The single steps on a ring's words, each with what `specs/Steps.antt` says of it.

ghost use Rattle.std.specs.Prelude.{◌≡◌, ◌≢◌, ℕ, ◌+◌, ◌%◌, ◌^◌, ◌<◌, ◌≤◌, true, false, [], ◌∷◌, None};
ghost use mathlib.Core.Option.{none, some};
ghost use Rattle.atomic_table.specs.Table.{step, rest};
ghost use Rattle.tap_frame.specs.Frame.{FrameValue};
ghost use Rattle.tap_ring.specs.declared.rule.Claim.{Claim};
ghost use Rattle.tap_ring.specs.Moments.{gate_of};
ghost use Rattle.tap_ring.specs.Steps as steps;

use crate::gate::{CLAIMS_END, EPOCHS_END, RESIZE, RESIZES_END, TURN};
use crate::plays::{
    Exchanges, Frees, Lifts, LoadsCapacity, LoadsFreed, LoadsFront, LoadsGate, Puts, Reopens,
    Resizes, Shuts, Stores,
};
use crate::rule::{Places, RingSeat};
use tap_frame::Frame;

/// The word of the gate.
pub(crate) const GATE: usize = 0;

/// The word of the freed count.
pub(crate) const FREED: usize = 1;

/// The word of the first capacity; that of the k-th number of resizes is k words on.
pub(crate) const CAPACITIES: usize = 2;

/// The word of the first slot's place: one more than that of the last capacity.
pub(crate) const PLACES: usize = CAPACITIES + RESIZES_END as usize;

pub(crate) fn load_gate(places: &Places, seat: &mut RingSeat) -> u64
    requires ring { (seat.old.table_id ≡ places.now.table_id) × (PLACES < places.now.table_id.words) }
    requires live { seat.old.me.0.spent ≡ false }
    ensures ring { seat.new.table_id ≡ seat.old.table_id }
    ensures told { steps.LoadsGate (step places.now.table_id.slots 0 0 0 none) seat.old.me result seat.new.me }
{
    places.load::<LoadsGate>(seat, GATE)
}

/// Of the number of resizes that the gate had when it was loaded last.
pub(crate) fn load_capacity(places: &Places, seat: &mut RingSeat, resizes: u8) -> u64
    requires ring { (seat.old.table_id ≡ places.now.table_id) × (PLACES < places.now.table_id.words) }
    requires live { seat.old.me.0.spent ≡ false }
    requires resizes { (resizes ≡ seat.old.me.0.gate.resizes) × (resizes < RESIZES_END) }
    ensures ring { seat.new.table_id ≡ seat.old.table_id }
    ensures told { steps.LoadsCapacity (step places.now.table_id.slots 0 0 0 none) seat.old.me result seat.new.me }
{
    places.load::<LoadsCapacity>(seat, CAPACITIES + usize::from(resizes))
}

pub(crate) fn load_freed(places: &Places, seat: &mut RingSeat) -> u64
    requires ring { (seat.old.table_id ≡ places.now.table_id) × (PLACES < places.now.table_id.words) }
    requires live { seat.old.me.0.spent ≡ false }
    ensures ring { seat.new.table_id ≡ seat.old.table_id }
    ensures told { steps.LoadsFreed (step places.now.table_id.slots 0 0 0 none) seat.old.me result seat.new.me }
{
    places.load::<LoadsFreed>(seat, FREED)
}

/// Claims the next place where the gate is the given word still. Gives the word that it found.
pub(crate) fn exchange_gate(
    places: &Places,
    seat: &mut RingSeat,
    gate: u64,
    item: &Option<Frame>,
) -> u64
    requires ring { (seat.old.table_id ≡ places.now.table_id) × (PLACES < places.now.table_id.words) }
    requires live { (seat.old.me.0.spent ≡ false) × (seat.old.me.0.putting ≡ None) × (seat.old.me.0.parts ≢ 0) }
    requires item { (frame : FrameValue) × (item.now ≡ Some frame) }
    requires gate { (gate ≡ gate_of seat.old.me.0.gate) × (gate + 1 < 2 ^ 64) }
    requires unshut { seat.old.me.0.gate.shut ≡ false }
    requires few { seat.old.me.0.gate.claimed + 1 < CLAIMS_END }
    requires room { seat.old.me.0.gate.claimed < seat.old.me.0.room.freed + seat.old.me.0.gate.capacity }
    ensures ring { seat.new.table_id ≡ seat.old.table_id }
    ensures told { steps.Exchanges
        (step places.now.table_id.slots 0 gate (gate + 1) (some item.now)) seat.old.me result seat.new.me }
{
    places.compare_exchange_with::<Exchanges>(seat, GATE, gate, gate + 1, item)
}

/// Stores the place's number: its frame lies in its slot.
pub(crate) fn store_number(places: &Places, seat: &mut RingSeat, slot: usize, number: u64)
    requires ring { (seat.old.table_id ≡ places.now.table_id) × (PLACES + slot < places.now.table_id.words)
        × (PLACES + slot < 2 ^ 64) }
    requires claim { (c : Claim) × (seat.old.me.0.putting ≡ Some c)
        × (seat.old.me.1 ≡ (slot, Some c.frame) ∷ rest seat.old.me.1)
        × (slot ≡ c.place % places.now.table_id.slots) × (number ≡ c.place + 1) }
    ensures ring { seat.new.table_id ≡ seat.old.table_id }
    ensures told { seat.new.me ≡ (record (seat.old.me.0) { putting = None }, rest seat.old.me.1) }
{
    places.store::<Puts>(seat, PLACES + slot, number);
}

/// The word of the front place. Where it is the place's number, the slot is the seat's.
pub(crate) fn load_front(places: &Places, seat: &mut RingSeat, slot: usize) -> u64
    requires ring { (seat.old.table_id ≡ places.now.table_id) × (PLACES + slot < places.now.table_id.words)
        × (PLACES + slot < 2 ^ 64) }
    requires consumer { (seat.old.me.0.takes ≡ true) × (seat.old.me.0.in_hand ≡ None) }
    requires slot { slot ≡ seat.old.me.0.next % places.now.table_id.slots }
    ensures ring { seat.new.table_id ≡ seat.old.table_id }
    ensures told { steps.LoadsFront
        (step places.now.table_id.slots (PLACES + slot) 0 0 none) seat.old.me result seat.new.me }
{
    places.load::<LoadsFront>(seat, PLACES + slot)
}

/// The slot of the front place goes back: its frame is lifted.
pub(crate) fn give_front(places: &Places, seat: &mut RingSeat, slot: usize)
    requires ring { (seat.old.table_id ≡ places.now.table_id) × (PLACES + slot < places.now.table_id.words)
        × (PLACES + slot < 2 ^ 64) }
    requires consumer { (seat.old.me.0.takes ≡ true) × ((frame : FrameValue) × (seat.old.me.0.in_hand ≡ Some frame)) }
    requires slot { (slot ≡ seat.old.me.0.next % places.now.table_id.slots)
        × (seat.old.me.1 ≡ (slot, None) ∷ rest seat.old.me.1) }
    ensures ring { seat.new.table_id ≡ seat.old.table_id }
    ensures told { steps.Lifts (step places.now.table_id.slots 0 0 0 none) seat.old.me 0 seat.new.me }
{
    let _ = places.load::<Lifts>(seat, PLACES + slot);
}

/// One more place is free. Gives the freed count before.
pub(crate) fn add_freed(places: &Places, seat: &mut RingSeat) -> u64
    requires ring { (seat.old.table_id ≡ places.now.table_id) × (PLACES < places.now.table_id.words) }
    requires consumer { (seat.old.me.0.takes ≡ true) × (seat.old.me.0.freed < seat.old.me.0.next) }
    ensures ring { seat.new.table_id ≡ seat.old.table_id }
    ensures told { steps.Frees (step places.now.table_id.slots 0 0 0 none) seat.old.me result seat.new.me }
{
    places.fetch_add::<Frees>(seat, FREED, 1)
}

/// Gives the gate word before.
pub(crate) fn shut_gate(places: &Places, seat: &mut RingSeat) -> u64
    requires ring { (seat.old.table_id ≡ places.now.table_id) × (PLACES < places.now.table_id.words) }
    requires keeper { (seat.old.me.0.spent ≡ false) × (seat.old.me.0.keeps ≡ true) × (seat.old.me.0.gate.shut ≡ false) }
    ensures ring { seat.new.table_id ≡ seat.old.table_id }
    ensures told { steps.Shuts (step places.now.table_id.slots 0 0 0 none) seat.old.me result seat.new.me }
{
    places.fetch_add::<Shuts>(seat, GATE, TURN)
}

/// Gives the gate word before.
pub(crate) fn reopen_gate(places: &Places, seat: &mut RingSeat) -> u64
    requires ring { (seat.old.table_id ≡ places.now.table_id) × (PLACES < places.now.table_id.words) }
    requires keeper { (seat.old.me.0.spent ≡ false) × (seat.old.me.0.keeps ≡ true) × (seat.old.me.0.gate.shut ≡ true) }
    requires few { seat.old.me.0.gate.epoch + 1 < EPOCHS_END }
    ensures ring { seat.new.table_id ≡ seat.old.table_id }
    ensures told { steps.Reopens (step places.now.table_id.slots 0 0 0 none) seat.old.me result seat.new.me }
{
    places.fetch_add::<Reopens>(seat, GATE, TURN)
}

/// Of the next number of resizes.
pub(crate) fn store_capacity(places: &Places, seat: &mut RingSeat, resizes: u8, capacity: u16)
    requires ring { (seat.old.table_id ≡ places.now.table_id) × (PLACES < places.now.table_id.words) }
    requires keeper { seat.old.me.0.keeps ≡ true }
    requires resizes { (resizes ≡ seat.old.me.0.gate.resizes) × (resizes + 1 < RESIZES_END) }
    requires capacity { capacity ≤ places.now.table_id.slots }
    ensures ring { seat.new.table_id ≡ seat.old.table_id }
    ensures told { seat.new.me ≡ (record (seat.old.me.0) { stored = Some capacity }, seat.old.me.1) }
{
    places.store::<Stores>(
        seat,
        CAPACITIES + 1 + usize::from(resizes),
        u64::from(capacity),
    );
}

/// Gives the gate word before.
pub(crate) fn add_resize(places: &Places, seat: &mut RingSeat) -> u64
    requires ring { (seat.old.table_id ≡ places.now.table_id) × (PLACES < places.now.table_id.words) }
    requires keeper { (seat.old.me.0.spent ≡ false) × (seat.old.me.0.keeps ≡ true) }
    requires stored { (c : ℕ) × (seat.old.me.0.stored ≡ Some c) }
    ensures ring { seat.new.table_id ≡ seat.old.table_id }
    ensures told { steps.Resizes (step places.now.table_id.slots 0 0 0 none) seat.old.me result seat.new.me }
{
    places.fetch_add::<Resizes>(seat, GATE, RESIZE)
}

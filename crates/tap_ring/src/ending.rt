//! How a ring ends.

ghost use Rattle.std.specs.Prelude.{◌≡◌, ℕ, ◌+◌, ◌-◌, ◌%◌, ◌<◌, ◌≤◌, true, false, [], ◌∷◌, ◌++◌, take, drop, length, slice_index_or, vec_len, vec_capacity, None};
ghost use Rattle.std.specs.Mem.Slots.{slots_items, slots_filled, slots_len, IsFull};
ghost use Rattle.tap_ring.specs.Finish.{IsEnd, AllOfRing};
ghost use Rattle.tap_ring.specs.Steps.{with_producer, with_keeper};
ghost use Rattle.tap_ring.specs.Leaving.{present, slots_from, gathered};

use crate::consumer::Consumer;
use crate::gate::claimed_of;
use crate::keeper::Keeper;
use crate::plays::{TakesKeeper, TakesProducer};
use crate::producer::Producer;
use crate::ring::TapRing;
use crate::rule::{Places, RingSeat};
use crate::steps::GATE;
use atomic_table::Closed;
use std::alloc::Global;
use tap_frame::Frame;

/// A ring that is at its end.
pub struct Ended {
    /// The claim count: one more than the last place that was claimed.
    pub claimed: u64,
    /// The freed count: the first place that wasn't freed.
    pub freed: u64,
    /// The front place: the first that wasn't lifted.
    pub lifted: u64,
    /// The frames of the places from `lifted` to `claimed` - 1, in order.
    pub left: Vec<Frame>,
}

// A producer's claims come to the consumer's seat.
fn join(places: &Places, seat: &mut RingSeat, p: Producer)
    requires ring { (seat.old.table_id ≡ places.now.table_id) × (p.ring ≡ places.now.table_id)
        × (0 < places.now.table_id.words) }
    requires consumer { (seat.old.me.0.takes ≡ true) × (seat.old.me.0.in_hand ≡ None)
        × (seat.old.me.0.putting ≡ None) × (seat.old.me.1 ≡ []) }
    ensures ring { seat.new.table_id ≡ seat.old.table_id }
    ensures joined { seat.new.me ≡ (with_producer seat.old.me.0 p.view, []) }
{
    let Producer { seat: theirs } = p;
    places.join_seat::<TakesProducer>(seat, theirs);
}

// What the keeper knows comes to the consumer's seat.
fn join_keeper(places: &Places, seat: &mut RingSeat, k: Keeper)
    requires ring { (seat.old.table_id ≡ places.now.table_id) × (k.ring ≡ places.now.table_id)
        × (0 < places.now.table_id.words) }
    requires consumer { (seat.old.me.0.takes ≡ true) × (seat.old.me.0.in_hand ≡ None)
        × (seat.old.me.0.putting ≡ None) × (seat.old.me.1 ≡ []) }
    ensures ring { seat.new.table_id ≡ seat.old.table_id }
    ensures joined { seat.new.me ≡ (with_keeper seat.old.me.0 k.view, []) }
{
    let Keeper {
        seat: theirs,
        shut: _,
        epoch: _,
        resizes: _,
        claimed: _,
    } = k;
    places.join_seat::<TakesKeeper>(seat, theirs);
}

// All producers' claims come to the consumer's seat.
fn gather(places: &Places, seat: &mut RingSeat, mut all: Vec<Producer>)
    requires ring { (seat.old.table_id ≡ places.now.table_id) × (0 < places.now.table_id.words) }
    requires producers { AllOfRing places.now.table_id all.items }
    requires consumer { (seat.old.me.0.takes ≡ true) × (seat.old.me.0.in_hand ≡ None)
        × (seat.old.me.0.putting ≡ None) × (seat.old.me.1 ≡ []) }
    ensures ring { seat.new.table_id ≡ seat.old.table_id }
    ensures gathered { seat.new.me ≡ (gathered seat.old.me.0 all.items, []) }
    ensures parts { seat.new.me.0.parts ≡ seat.old.me.0.parts + length all.items }
{
    while let Some(p) = all.pop() {
        join(places, seat, p);
    }
}

// Takes what lies in these slots.
fn empty_slots(
    closed: &mut Closed<Option<Frame>, Global>,
    from: usize,
    to: usize,
    left: &mut Vec<Frame>,
)
    requires within { (from ≤ to) × (to ≤ slots_len closed.old.slots) }
    requires filled { (k : ℕ) → from ≤ k → k < to → slice_index_or (slots_filled closed.old.slots) k false ≡ true }
    requires room { vec_len left.old + (to - from) ≤ vec_capacity left.old }
    ensures items { slots_items closed.new.slots ≡ slots_items closed.old.slots }
    ensures len { slots_len closed.new.slots ≡ slots_len closed.old.slots }
    ensures emptied { (k : ℕ) → from ≤ k → k < to → slice_index_or (slots_filled closed.new.slots) k false ≡ false }
    ensures others { (k : ℕ) → k < from
        → slice_index_or (slots_filled closed.new.slots) k false
        ≡ slice_index_or (slots_filled closed.old.slots) k false }
    ensures behind { (k : ℕ) → to ≤ k
        → slice_index_or (slots_filled closed.new.slots) k false
        ≡ slice_index_or (slots_filled closed.old.slots) k false }
    ensures left { left.new.items ≡ left.old.items ++ present
        (take (to - from) (drop from (slots_items closed.old.slots))) }
    ensures room { (vec_capacity left.new ≡ vec_capacity left.old)
        × (vec_len left.new ≤ vec_len left.old + (to - from)) }
{
    for i in from..to {
        keep(left, closed.take(i));
    }
}

// Keeps the frame that lay in a slot, if there was one.
fn keep(left: &mut Vec<Frame>, item: Option<Frame>)
    requires { vec_len left.old < vec_capacity left.old }
    ensures items { left.new.items ≡ left.old.items ++ present (item ∷ []) }
    ensures capacity { vec_capacity left.new ≡ vec_capacity left.old }
    ensures len { vec_len left.new ≤ vec_len left.old + 1 }
{
    if let Some(frame) = item {
        left.push_reserved(frame);
    }
}

// The frames that lie in the slots, from this slot on and then from the first.
fn empty_from(
    mut closed: Closed<Option<Frame>, Global>,
    start: usize,
    most: u16,
    mut left: Vec<Frame>,
) -> Vec<Frame>
    requires slots { (slots_len closed.slots ≡ most) × IsFull closed.slots × (start < most) }
    requires room { (left.items ≡ []) × (most ≤ vec_capacity left) }
    ensures { result.items ≡ present (slots_from start (slots_items closed.slots)) }
{
    empty_slots(&mut closed, start, usize::from(most), &mut left);
    empty_slots(&mut closed, 0, start, &mut left);
    closed.free();
    left
}

impl TapRing {
    /// Ends the ring, with all its producers. What the consumer lifted and what is left are the
    /// frames of all places that were claimed, in order, and each place is one producer's claim. Along
    /// the places epochs never fall: each claim's is the number of the keeper's reopenings up to its
    /// place. Each capacity that a producer loaded is the one of its number of resizes: the ring's first,
    /// or what the keeper gave. Of a gate that is shut the claim count is the one that the keeper knows.
    pub fn finish(self, all: Vec<Producer>, c: Consumer, k: Keeper) -> Ended
        requires producers { AllOfRing self.ring all.items × (length all.items ≡ self.plan.producers) }
        requires consumer { c.ring ≡ self.ring }
        requires keeper { k.ring ≡ self.ring }
        ensures { IsEnd self.plan all.items c.view k.view result.claimed result.freed result.lifted
            result.left.items }
    {
        let TapRing { table, most, left } = self;
        let Consumer {
            mut seat,
            front,
            freed,
        } = c;
        join_keeper(&table.shared, &mut seat, k);
        gather(&table.shared, &mut seat, all);
        let closed = table.close_with(seat);
        let claimed = claimed_of(closed.word(GATE));
        let start = (freed % u64::from(most)) as usize;
        let left = empty_from(closed, start, most, left);
        Ended {
            claimed,
            freed,
            lifted: front,
            left,
        }
    }

    /// Ends each frame that is still in the ring. It takes no memory.
    pub fn abandon(self) {
        let TapRing { table, most, left } = self;
        let left = empty_from(table.close(), 0, most, left);
        end_all(left);
    }
}

impl Ended {
    /// Ends each frame that is left. It takes no memory.
    pub fn abandon(self) {
        let Ended {
            claimed: _,
            freed: _,
            lifted: _,
            left,
        } = self;
        end_all(left);
    }
}

// Ends each of these frames.
fn end_all(mut left: Vec<Frame>) {
    while let Some(frame) = left.pop() {
        let _ = frame.end();
    }
    left.destroy_empty();
}

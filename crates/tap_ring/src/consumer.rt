//! The consumer takes frames.

ghost use Rattle.std.specs.Prelude.{◌≡◌, ℕ, ◌+◌, ◌^◌, ◌<◌, ◌≤◌, true, [], IfSome, IfNone, IfOk, IfErr};
ghost use Rattle.tap_frame.specs.Frame.{FrameValue};
ghost use Rattle.tap_ring.specs.Steps.{LiftedThen, NotReadyThen};
ghost use Rattle.tap_ring.specs.Tokens.{token, consumed, IsConsumer};
ghost use Rattle.tap_ring.specs.Calls.{IsLifted, IsNotReady, IsTaken, freed_one};

use crate::ring::TapRing;
use crate::rule::{Places, RingSeat};
use crate::steps::{PLACES, add_freed, give_front, load_front};
use std::marker::Model;
use tap_frame::Frame;
use thiserror::Error;

/// A ring's one consumer.
///
/// To a contract it is the ring that it is of, and what it knows.
#[derive(Drop)]
pub struct Consumer {
    pub(crate) seat: RingSeat,
    pub(crate) front: u64,
    pub(crate) freed: u64,
}

impl Model for Consumer {
    ghost use Rattle.std.specs.Prelude.{◌≡◌, []};
    ghost use Rattle.tap_ring.specs.declared.rule.Consumed.{Consumed};
    ghost use Rattle.tap_ring.specs.Tokens.{Token, token, consumed, IsConsumer};

    ghost Value = { Token Consumed };

    ghost view = { λ c. token c.seat.table_id (consumed c.seat.me.0) };

    ghost invariant = { λ c. IsConsumer c.seat.me.0 × (c.seat.me.1 ≡ []) × (c.front ≡ c.seat.me.0.next)
        × (c.freed ≡ c.seat.me.0.freed) };
}

/// The front place has no frame yet: it isn't claimed, or its frame isn't put.
#[derive(Clone, Copy, Debug, PartialEq, Eq, Drop, Error)]
#[error("place {place} has no frame yet")]
pub struct NotReady {
    /// The front place.
    pub place: u64,
}

// Takes the frame of the front place, if it is there, and leaves the slot empty.
fn take_front(places: &Places, most: u16, seat: &mut RingSeat, place: u64) -> Option<Frame>
    requires ring { (seat.old.table_id ≡ places.now.table_id) × (places.now.table_id.words ≡ PLACES + most)
        × (places.now.table_id.slots ≡ most) × (0 < most) }
    requires consumer { IsConsumer seat.old.me.0 × (seat.old.me.1 ≡ []) × (place ≡ seat.old.me.0.next) }
    ensures ring { seat.new.table_id ≡ seat.old.table_id }
    ensures consumer { IsConsumer seat.new.me.0 × (seat.new.me.1 ≡ []) }
    ensures lifted { IfSome result (λ frame. LiftedThen frame seat.old.me.0 seat.new.me.0) }
    ensures not_ready { IfNone result (NotReadyThen place seat.old.me.0 seat.new.me.0) }
{
    let slot = (place % u64::from(most)) as usize;
    if load_front(places, seat, slot) != place + 1 {
        return None;
    }
    let item = places.exchange(seat, slot, None);
    give_front(places, seat, slot);
    item
}

impl Consumer {
    // The consumer of a ring that has just been made.
    pub(crate) fn new(seat: RingSeat, first: u64) -> Consumer
        requires { IsConsumer seat.me.0 × (seat.me.1 ≡ []) × (first ≡ seat.me.0.next) × (first ≡ seat.me.0.freed) }
        ensures { result ≡ token seat.table_id (consumed seat.me.0) }
    {
        Consumer {
            seat,
            front: first,
            freed: first,
        }
    }

    /// The front place: the first that it hasn't lifted.
    pub fn front(&self) -> u64
        ensures { result ≡ self.now.view.next }
    {
        self.front
    }

    /// The freed count: the first place that isn't free again. It is at most the front place.
    pub fn freed(&self) -> u64
        ensures count { result ≡ self.now.view.freed }
        ensures behind { result ≤ self.now.view.next }
    {
        self.freed
    }
}

impl TapRing {
    /// Takes the front frame, and doesn't free its place.
    ///
    /// `NotReady` where the front place's number wasn't there at a load of this call.
    pub fn lift(&self, c: &mut Consumer) -> Result<Frame, NotReady>
        requires ring { c.old.ring ≡ self.now.ring }
        ensures ring { c.new.ring ≡ c.old.ring }
        ensures lifted { IfOk result (λ frame. IsLifted frame c.old.view c.new.view) }
        ensures to_free { IfOk result (λ frame. c.new.view.freed < c.new.view.next) }
        ensures not_ready { IfErr result (λ e. IsNotReady e.place c.old.view c.new.view) }
    {
        let place = c.front;
        match take_front(&self.table.shared, self.most, &mut c.seat, place) {
            Some(frame) => {
                c.front = place + 1;
                Ok(frame)
            }
            None => Err(NotReady { place }),
        }
    }

    /// Frees the first of the places that were lifted and not freed; there must be one. Gives the freed
    /// count.
    pub fn free(&self, c: &mut Consumer) -> u64
        requires ring { c.old.ring ≡ self.now.ring }
        requires lifted { c.old.view.freed < c.old.view.next }
        ensures ring { c.new.ring ≡ c.old.ring }
        ensures count { result ≡ c.old.view.freed + 1 }
        ensures freed { c.new.view ≡ freed_one c.old.view }
    {
        add_freed(&self.table.shared, &mut c.seat);
        c.freed += 1;
        c.freed
    }

    /// Takes the front frame, and frees one place: the first that was lifted and not freed.
    ///
    /// `NotReady` as of `lift`; nothing is freed then.
    pub fn take(&self, c: &mut Consumer) -> Result<Frame, NotReady>
        requires ring { c.old.ring ≡ self.now.ring }
        ensures ring { c.new.ring ≡ c.old.ring }
        ensures taken { IfOk result (λ frame. IsTaken frame c.old.view c.new.view) }
        ensures not_ready { IfErr result (λ e. IsNotReady e.place c.old.view c.new.view) }
    {
        let frame = self.lift(c)?;
        self.free(c);
        Ok(frame)
    }
}

//! A producer puts frames.

ghost use Rattle.std.specs.Prelude.{◌≡◌, ◌≢◌, ◌⊎◌, ℕ, ◌+◌, ◌^◌, ◌<◌, ◌≤◌, false, [], MatchBool, MatchOption, IfOk, IfErr};
ghost use Rattle.tap_frame.specs.Frame.{FrameValue};
ghost use Rattle.tap_ring.specs.Moments.{Fits, gate_of};
ghost use Rattle.tap_ring.specs.Steps.{IsNew, seen_gate, ClaimedThen, MissedThen};
ghost use Rattle.tap_ring.specs.declared.rule.Moment.{Moment};
ghost use Rattle.tap_ring.specs.Tokens.{produced, IsProducer};
ghost use Rattle.tap_ring.specs.Calls.{SawMore, LoadedMore, Placed, IsCause, IsOpenWord, RefusesWord, IsSecondLook};

use crate::gate::{CLAIMS_END, claimed_of, epoch_of, is_shut, resizes_of};
use crate::ring::TapRing;
use crate::rule::{Places, RingSeat};
use crate::steps::{PLACES, exchange_gate, load_capacity, load_freed, load_gate, store_number};
use std::marker::Model;
use tap_frame::Frame;
use thiserror::Error;

/// One of a ring's producers.
///
/// To a contract it is the ring that it is of, and what it knows.
#[derive(Drop)]
pub struct Producer {
    pub(crate) seat: RingSeat,
}

impl Model for Producer {
    ghost use Rattle.std.specs.Prelude.{◌≡◌, []};
    ghost use Rattle.tap_ring.specs.declared.rule.Produced.{Produced};
    ghost use Rattle.tap_ring.specs.Tokens.{Token, token, produced, IsProducer};

    ghost Value = { Token Produced };

    ghost view = { λ p. token p.seat.table_id (produced p.seat.me.0) };

    ghost invariant = { λ p. IsProducer p.seat.me.0 × (p.seat.me.1 ≡ []) };
}

/// Why a frame wasn't placed. The first that holds is told.
#[derive(Clone, Copy, Debug, PartialEq, Eq, Drop, Error)]
pub enum Why {
    /// The gate was shut, or had another epoch than the wanted one.
    #[error("the gate was at epoch {found} (shut: {shut})")]
    Gone { found: u16, shut: bool },
    /// The claim count was the greatest one, `CLAIMS_END` - 1.
    #[error("the claim count was the last one, {claimed}")]
    Spent { claimed: u64 },
    /// The claim count was by the capacity or more above the freed count that was loaded after it.
    #[error("the ring was full: the claim count was {claimed}, and the freed count {freed}")]
    Full { claimed: u64, freed: u64 },
    /// The gate changed since it was loaded: the gate word expected, and the one found.
    #[error("the gate changed from word {expected} to {found}")]
    Contended { expected: u64, found: u64 },
}

/// A frame that wasn't placed, as it was given.
pub struct PutBack {
    pub frame: Frame,
    pub why: Why,
    /// The number of resizes, below `RESIZES_END`, in the gate word by which the call judged.
    pub resizes: u8,
}

// Why no frame is placed at this gate word, if none is.
fn refusal(gate: u64, epoch: u16) -> Option<Why>
    ensures { MatchOption result (IsOpenWord epoch gate) (λ why. RefusesWord epoch gate why) }
{
    let found = epoch_of(gate);
    let shut = is_shut(gate);
    if shut | (found != epoch) {
        return Some(Why::Gone { found, shut });
    }
    let claimed = claimed_of(gate);
    if claimed + 1 == CLAIMS_END {
        return Some(Why::Spent { claimed });
    }
    None
}

// Whether there is no room by these numbers.
fn is_full(claimed: u64, freed: u64, capacity: u64) -> bool
    ensures { MatchBool result (freed + capacity ≤ claimed) (claimed < freed + capacity) }
{
    freed <= claimed && capacity <= claimed - freed
}

// Claims the next place and puts the frame there, where the gate is the given word still. Or else
// gives the frame back, with the word that it met.
fn claim(
    places: &Places,
    most: u16,
    seat: &mut RingSeat,
    gate: u64,
    frame: Frame,
) -> Result<u64, (Frame, u64)>
    requires ring { (seat.old.table_id ≡ places.now.table_id) × (places.now.table_id.words ≡ PLACES + most)
        × (places.now.table_id.slots ≡ most) × (0 < most) }
    requires producer { IsProducer seat.old.me.0 × (seat.old.me.1 ≡ []) }
    requires gate { (gate ≡ gate_of seat.old.me.0.gate) × Fits seat.old.me.0.gate }
    requires unshut { seat.old.me.0.gate.shut ≡ false }
    requires few { seat.old.me.0.gate.claimed + 1 < CLAIMS_END }
    requires room { seat.old.me.0.gate.claimed < seat.old.me.0.room.freed + seat.old.me.0.gate.capacity }
    ensures ring { seat.new.table_id ≡ seat.old.table_id }
    ensures producer { IsProducer seat.new.me.0 × (seat.new.me.1 ≡ []) }
    ensures placed { IfOk result (λ place. ClaimedThen frame place seat.old.me.0 seat.new.me.0) }
    ensures missed { IfErr result (λ e. (e.0 ≡ frame) × MissedThen gate e.1 seat.old.me.0 seat.new.me.0) }
{
    let item = Some(frame);
    let found = exchange_gate(places, seat, gate, &item);
    if found != gate {
        return Err((item.unwrap(), found));
    }
    let place = claimed_of(gate);
    let slot = (place % u64::from(most)) as usize;
    match places.exchange(seat, slot, item) {
        None => {}
        Some(_) => unreachable!(),
    }
    store_number(places, seat, slot, place + 1);
    Ok(place)
}

// What is told where there was no room: whether the ring was resized since.
fn look_again(places: &Places, seat: &mut RingSeat, gate: u64, resizes: u8, freed: u64) -> Why
    requires ring { (seat.old.table_id ≡ places.now.table_id) × (PLACES < places.now.table_id.words) }
    requires producer { IsProducer seat.old.me.0 × (seat.old.me.1 ≡ []) }
    requires gate { (gate ≡ gate_of seat.old.me.0.asked) × Fits seat.old.me.0.asked
        × (resizes ≡ seat.old.me.0.asked.resizes) }
    ensures ring { seat.new.table_id ≡ seat.old.table_id }
    ensures told { (m : Moment) × IsNew seat.old.me.0 m × (seat.new.me ≡ (seen_gate m seat.old.me.0, []))
        × IsSecondLook gate freed seat.old.me.0.asked m result }
{
    let again = load_gate(places, seat);
    if resizes_of(again) == resizes {
        Why::Full {
            claimed: claimed_of(gate),
            freed,
        }
    } else {
        Why::Contended {
            expected: gate,
            found: again,
        }
    }
}

// The whole of `try_put`, on a producer's seat.
fn put(
    places: &Places,
    most: u16,
    seat: &mut RingSeat,
    epoch: u16,
    frame: Frame,
) -> Result<u64, PutBack>
    requires ring { (seat.old.table_id ≡ places.now.table_id) × (places.now.table_id.words ≡ PLACES + most)
        × (places.now.table_id.slots ≡ most) × (0 < most) }
    requires producer { IsProducer seat.old.me.0 × (seat.old.me.1 ≡ []) }
    ensures ring { seat.new.table_id ≡ seat.old.table_id }
    ensures producer { IsProducer seat.new.me.0 × (seat.new.me.1 ≡ []) }
    ensures seen_more { SawMore (produced seat.old.me.0) (produced seat.new.me.0) }
    ensures placed { IfOk result
        (λ place. Placed epoch frame place (produced seat.old.me.0) (produced seat.new.me.0)) }
    ensures frame_unchanged { IfErr result (λ back. back.frame ≡ frame) }
    ensures nothing_claimed { IfErr result (λ back. seat.new.me.0.mine ≡ seat.old.me.0.mine) }
    ensures cause { IfErr result
        (λ back. IsCause epoch back.why back.resizes (produced seat.old.me.0) (produced seat.new.me.0)) }
{
    let gate = load_gate(places, seat);
    let resizes = resizes_of(gate);
    if let Some(why) = refusal(gate, epoch) {
        return Err(PutBack {
            frame,
            why,
            resizes,
        });
    }
    let capacity = load_capacity(places, seat, resizes);
    let freed = load_freed(places, seat);
    if is_full(claimed_of(gate), freed, capacity) {
        let why = look_again(places, seat, gate, resizes, freed);
        return Err(PutBack {
            frame,
            why,
            resizes,
        });
    }
    match claim(places, most, seat, gate, frame) {
        Ok(place) => Ok(place),
        Err((frame, found)) => Err(PutBack {
            frame,
            why: Why::Contended {
                expected: gate,
                found,
            },
            resizes,
        }),
    }
}

impl TapRing {
    /// Claims the next place under this epoch, and puts the frame there. Gives the place.
    ///
    /// Or else gives the frame back as it was, with the first of these that holds: `Gone` where the gate
    /// that this call loaded was shut or had another epoch, `Spent` where its claim count was the greatest,
    /// `Full` where that count was by the capacity or more above the freed count loaded after it, and
    /// the ring wasn't resized in between, and `Contended` where the gate changed since. It never waits,
    /// and takes no memory.
    pub fn try_put(&self, p: &mut Producer, epoch: u16, frame: Frame) -> Result<u64, PutBack>
        requires ring { p.old.ring ≡ self.now.ring }
        ensures ring { p.new.ring ≡ p.old.ring }
        ensures seen_more { SawMore p.old.view p.new.view }
        ensures loaded_more { LoadedMore p.old.view p.new.view }
        ensures placed { IfOk result (λ place. Placed epoch frame place p.old.view p.new.view) }
        ensures frame_unchanged { IfErr result (λ back. back.frame ≡ frame) }
        ensures nothing_claimed { IfErr result (λ back. p.new.view.mine ≡ p.old.view.mine) }
        ensures cause { IfErr result (λ back. IsCause epoch back.why back.resizes p.old.view p.new.view) }
    {
        put(&self.table.shared, self.most, &mut p.seat, epoch, frame)
    }
}

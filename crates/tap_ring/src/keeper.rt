//! The keeper shuts, reopens and resizes.

ghost use Rattle.std.specs.Prelude.{◌≡◌, ℕ, ◌+◌, ◌^◌, ◌<◌, ◌≤◌, true, false, [], IfOk, IfErr};
ghost use Rattle.tap_ring.specs.Tokens.{token, kept, IsKeeper};
ghost use Rattle.tap_ring.specs.Calls.{IsShutNow, IsReopened, KeepsShut, IsResized};

use crate::consumer::Consumer;
use crate::gate::{EPOCHS_END, RESIZES_END, claimed_of};
use crate::ring::TapRing;
use crate::rule::RingSeat;
use crate::steps::{add_resize, reopen_gate, shut_gate, store_capacity};
use std::marker::Model;
use thiserror::Error;

/// A ring's one keeper.
///
/// To a contract it is the ring that it is of, and what it knows: of the gate that is whether it is
/// shut, the epoch, the number of resizes, and of a shut one the claim count; and the claim count at
/// each reopening, and the capacity of each resize.
#[derive(Drop)]
pub struct Keeper {
    pub(crate) seat: RingSeat,
    pub(crate) shut: bool,
    pub(crate) epoch: u16,
    pub(crate) resizes: u8,
    pub(crate) claimed: u64,
}

impl Model for Keeper {
    ghost use Rattle.std.specs.Prelude.{◌≡◌, []};
    ghost use Rattle.tap_ring.specs.declared.rule.Kept.{Kept};
    ghost use Rattle.tap_ring.specs.Tokens.{Token, token, kept, IsKeeper};

    ghost Value = { Token Kept };

    ghost view = { λ k. token k.seat.table_id (kept k.seat.me.0) };

    ghost invariant = { λ k. IsKeeper k.seat.me.0 × (k.seat.me.1 ≡ []) × (k.shut ≡ k.seat.me.0.gate.shut)
        × (k.epoch ≡ k.seat.me.0.gate.epoch) × (k.resizes ≡ k.seat.me.0.gate.resizes)
        × (k.claimed ≡ k.seat.me.0.gate.claimed) };
}

/// The gate wasn't reopened, and why. The first that holds is told.
#[derive(Clone, Copy, Debug, PartialEq, Eq, Drop, Error)]
pub enum StaysShut {
    /// Not every place that was claimed is free again: the claim count and the freed count.
    #[error("the ring isn't drained: the claim count is {claimed}, and the freed count {freed}")]
    NotDrained { claimed: u64, freed: u64 },
    /// The epoch is the last one, `EPOCHS_END` - 1.
    #[error("the gate was reopened as often as it can be")]
    EpochsSpent,
}

/// The ring has been resized as often as it can be, `RESIZES_END` - 1 times.
#[derive(Clone, Copy, Debug, PartialEq, Eq, Drop, Error)]
#[error("the ring was resized as often as it can be")]
pub struct ResizesSpent;

impl Keeper {
    // The keeper of a ring that has just been made.
    pub(crate) fn new(seat: RingSeat, first: u64) -> Keeper
        requires { IsKeeper seat.me.0 × (seat.me.1 ≡ []) × (seat.me.0.gate.shut ≡ true)
            × (seat.me.0.gate.epoch ≡ 0) × (seat.me.0.gate.resizes ≡ 0) × (seat.me.0.gate.claimed ≡ first) }
        ensures { result ≡ token seat.table_id (kept seat.me.0) }
    {
        Keeper {
            seat,
            shut: true,
            epoch: 0,
            resizes: 0,
            claimed: first,
        }
    }

    /// Whether the gate is shut.
    pub fn is_shut(&self) -> bool
        ensures { result ≡ self.now.view.gate.shut }
    {
        self.shut
    }

    /// The gate's epoch: how often it was reopened.
    pub fn epoch(&self) -> u16
        ensures { result ≡ self.now.view.gate.epoch }
    {
        self.epoch
    }

    /// How often the ring was resized.
    pub fn resizes(&self) -> u8
        ensures { result ≡ self.now.view.gate.resizes }
    {
        self.resizes
    }

    /// The claim count at the keeper's last step: one more than the last place that was claimed until
    /// then. Of a shut gate it is the claim count still; of an open one producers may have claimed more
    /// places since.
    pub fn claimed(&self) -> u64
        ensures { result ≡ self.now.view.gate.claimed }
    {
        self.claimed
    }
}

impl TapRing {
    /// Shuts an open gate: no place is claimed until it is reopened. Gives the claim count, below 2^40.
    pub fn shut(&self, k: &mut Keeper) -> u64
        requires ring { k.old.ring ≡ self.now.ring }
        requires unshut { k.old.view.gate.shut ≡ false }
        ensures ring { k.new.ring ≡ k.old.ring }
        ensures shut { IsShutNow result k.old.view k.new.view }
    {
        let word = shut_gate(&self.table.shared, &mut k.seat);
        k.claimed = claimed_of(word);
        k.shut = true;
        k.claimed
    }

    /// Reopens a shut gate at the next epoch, where the claim count that the keeper knows is the
    /// consumer's freed count. Gives the epoch.
    ///
    /// Else `NotDrained`; or where the epoch is the last one, `EpochsSpent`. The gate then stays as it is.
    pub fn reopen(&self, k: &mut Keeper, c: &Consumer) -> Result<u16, StaysShut>
        requires keeper { k.old.ring ≡ self.now.ring }
        requires consumer { c.now.ring ≡ self.now.ring }
        requires shut { k.old.view.gate.shut ≡ true }
        ensures ring { k.new.ring ≡ k.old.ring }
        ensures reopened { IfOk result (λ epoch. IsReopened epoch k.old.view k.new.view) }
        ensures drained { IfOk result (λ epoch. k.old.view.gate.claimed ≡ c.now.view.freed) }
        ensures cause { IfErr result (λ e. KeepsShut k.old.view c.now.view.freed e) }
        ensures unchanged { IfErr result (λ e. k.new.view ≡ k.old.view) }
    {
        let claimed = k.claimed;
        let freed = c.freed();
        if claimed != freed {
            return Err(StaysShut::NotDrained { claimed, freed });
        }
        if u32::from(k.epoch) + 1 == EPOCHS_END {
            return Err(StaysShut::EpochsSpent);
        }
        let word = reopen_gate(&self.table.shared, &mut k.seat);
        k.claimed = claimed_of(word);
        k.shut = false;
        k.epoch += 1;
        Ok(k.epoch)
    }

    /// Sets the capacity, 1 to the number of slots, from the next claim on. Gives the claim count at
    /// that step. The gate may be open or shut.
    ///
    /// `ResizesSpent` where the ring has been resized `RESIZES_END` - 1 times: nothing changes.
    pub fn resize(&self, k: &mut Keeper, capacity: u16) -> Result<u64, ResizesSpent>
        requires ring { k.old.ring ≡ self.now.ring }
        requires capacity { (1 ≤ capacity) × (capacity ≤ self.now.most) }
        ensures ring { k.new.ring ≡ k.old.ring }
        ensures resized { IfOk result (λ claimed. IsResized capacity claimed k.old.view k.new.view) }
        ensures spent { IfErr result (λ e. k.old.view.gate.resizes + 1 ≡ RESIZES_END) }
        ensures unchanged { IfErr result (λ e. k.new.view ≡ k.old.view) }
    {
        if k.resizes + 1 == RESIZES_END {
            return Err(ResizesSpent);
        }
        store_capacity(&self.table.shared, &mut k.seat, k.resizes, capacity);
        let word = add_resize(&self.table.shared, &mut k.seat);
        k.claimed = claimed_of(word);
        k.resizes += 1;
        Ok(k.claimed)
    }
}

//! How a ring and its tokens are made.

ghost use Rattle.std.specs.Prelude.{◌≡◌, ℕ, ◌+◌, ◌^◌, ◌<◌, ◌≤◌, [], replicate, vec_len, vec_capacity, IfOk};
ghost use Rattle.tap_ring.specs.declared.rule.Plan.{Plan};
ghost use Rattle.tap_ring.specs.Standing.{maker, maker_of, first_words};
ghost use Rattle.tap_ring.specs.Tokens.{token, new_producer, new_consumer, new_keeper};

use crate::consumer::Consumer;
use crate::gate::{CLAIMS_END, TURN};
use crate::keeper::Keeper;
use crate::plays::{OneProducer, TheConsumer};
use crate::producer::Producer;
use crate::ring::TapRing;
use crate::rule::{Places, Plan, RingSeat, RingTable};
use crate::steps::{CAPACITIES, FREED, GATE, PLACES};
use std::alloc::{AllocError, Global};

/// The greatest number of slots of a ring.
pub const MAX_SLOTS: u16 = 1024;

/// A ring and its tokens.
pub struct Parts {
    pub ring: TapRing,
    pub producers: Vec<Producer>,
    pub consumer: Consumer,
    pub keeper: Keeper,
}

// Shut, at epoch 0, with every place below the first free, and the first capacity.
fn words_of(alloc: Global, most: u16, capacity: u16, first: u64) -> Result<Vec<u64>, AllocError>
    requires { first < CLAIMS_END }
    ensures { IfOk result (λ w. w.items ≡ first_words most first capacity) }
{
    let mut words: Vec<u64> = vec![in alloc; 0u64; PLACES + usize::from(most)]?;
    words[GATE] = first + TURN;
    words[FREED] = first;
    words[CAPACITIES] = u64::from(capacity);
    Ok(words)
}

// The producers leave the first seat, one by one.
fn deal(places: &Places, seat: &mut RingSeat, mut all: Vec<Producer>, count: u16) -> Vec<Producer>
    requires ring { (seat.old.table_id ≡ places.now.table_id) × (0 < places.now.table_id.words) }
    requires maker { seat.old.me ≡ (maker_of places.now.key count, []) }
    requires room { (vec_len all ≡ 0) × (count ≤ vec_capacity all) }
    ensures ring { seat.new.table_id ≡ seat.old.table_id }
    ensures maker { seat.new.me ≡ (maker_of places.now.key 0, []) }
    ensures producers { result.items ≡ replicate count (token places.now.table_id (new_producer places.now.key)) }
{
    for _ in 0..count {
        let one = places.split_seat::<OneProducer>(seat);
        all.push_reserved(Producer { seat: one });
    }
    all
}

impl TapRing {
    /// A ring with `most` slots (1 to `MAX_SLOTS`), this capacity (1 to `most`) and this first place
    /// (below `CLAIMS_END`), for so many producers (1 or more). It is shut, at epoch 0. All memory that
    /// it ever takes is taken here, and the only error is that there is none.
    pub fn new(
        alloc: Global,
        most: u16,
        capacity: u16,
        first: u64,
        producers: u16,
    ) -> Result<Parts, AllocError>
        requires capacity { (1 ≤ capacity) × (capacity ≤ most) × (most ≤ MAX_SLOTS) }
        requires first { first < CLAIMS_END }
        requires producers { 1 ≤ producers }
        ensures ring { IfOk result (λ p. (p.ring.most ≡ most)
            × (p.ring.plan ≡ record { first = first; capacity = capacity; producers = producers })) }
        ensures producers { IfOk result
            (λ p. p.producers.items ≡ replicate producers (token p.ring.ring (new_producer p.ring.plan))) }
        ensures consumer { IfOk result (λ p. p.consumer ≡ token p.ring.ring (new_consumer p.ring.plan)) }
        ensures keeper { IfOk result (λ p. p.keeper ≡ token p.ring.ring (new_keeper p.ring.plan)) }
    {
        let all = Vec::with_capacity(alloc, usize::from(producers))?;
        let words = words_of(alloc, most, capacity, first)?;
        let left = Vec::with_capacity(alloc, usize::from(most))?;
        let plan = Plan {
            first,
            capacity,
            producers: u64::from(producers),
        };
        match RingTable::vacant(alloc, &words, usize::from(most), &plan) {
            Ok((table, mut seat)) => {
                let all = deal(&table.shared, &mut seat, all, producers);
                let theirs = table.shared.split_seat::<TheConsumer>(&mut seat);
                Ok(Parts {
                    producers: all,
                    consumer: Consumer::new(theirs, first),
                    keeper: Keeper::new(seat, first),
                    ring: TapRing { table, most, left },
                })
            }
            Err(failed) => {
                left.destroy_empty();
                Err(failed)
            }
        }
    }
}

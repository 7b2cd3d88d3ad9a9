//! The addresses by their bytes, and by their times.
ghost use Rattle.std.specs.Prelude.{◌≡◌, ◌≤◌, ◌+◌, ◌∷◌, ◌++◌, ℕ, List, nat_lt, true, false, [], length, IsTrue, IfOk, IfSome, IfNone, MatchOption, OnOk, OnErr, vec_capacity, vec_len};
ghost use Rattle.std.specs.List.{AllByRecursion};
ghost use Rattle.std.specs.BTreeMap.{insert_entry};
ghost use Rattle.tap_bridge.specs.Bridge.{is_among, at_ports, young, is_young, found, address_order, source as source_of, others, sent_on};
ghost use Rattle.tap_bridge.specs.Kept.{StandAt, AreInOrder, AreAt, IsPartOf};
ghost use Rattle.tap_bridge.specs.Steps.{without_stale, is_time_of, put_from, trimmed};

use crate::address::{Address, MOST, STAY, Seen, destination, is_group, source};
use std::alloc::{AllocError, Global};
use std::collections::{BTreeMap, BTreeSet};

// Whether a port is one of these.
fn has(ports: &[u16], port: u16) -> bool
    ensures { result ≡ is_among ports.now port }
{
    ports.iter().any(|other| *other == port)
}

// Whether an address has this time.
fn has_time_of(by_address: &BTreeMap<Address, Seen>, time: u64, address: Address) -> bool
    ensures { result ≡ is_time_of by_address.now.entries (time, address) }
{
    match seen_at(by_address, address) {
        Some(seen) => seen.time == time,
        None => false,
    }
}

// Takes the entries away whose port isn't one of these.
fn drop_ports(by_address: &mut BTreeMap<Address, Seen>, ports: &[u16])
    ensures entries { by_address.new.entries ≡ at_ports ports.now by_address.old.entries }
    ensures ordered { AreInOrder by_address.new.entries }
    ensures part { IsPartOf by_address.old.entries by_address.new.entries }
{
    by_address.retain(|_, seen| has(ports, seen.port));
}

// Takes the times away that no address has.
fn drop_times(by_address: &BTreeMap<Address, Seen>, by_time: &mut BTreeSet<(u64, Address)>)
    requires { StandAt by_time.old.keys by_address.now.entries }
    ensures { StandAt by_time.new.keys by_address.now.entries }
{
    by_time.retain(|(time, address)| has_time_of(by_address, *time, *address));
}

// The ports of a frame, if they aren't those that are kept.
pub fn new_ports(alloc: Global, kept: &[u16], ports: &[u16]) -> Result<Option<Vec<u16>>, AllocError>
    ensures { IfOk result
        (λ next. MatchOption next (kept.now ≡ ports.now) (λ copy. copy.items ≡ ports.now)) }
{
    if kept == ports {
        return Ok(None);
    }
    Ok(Some(ports.to_vec(alloc)?))
}

// Takes the entries away whose port isn't one of these, which are kept if they are new.
pub fn keep_ports(
    by_address: &mut BTreeMap<Address, Seen>,
    by_time: &mut BTreeSet<(u64, Address)>,
    kept: &mut Vec<u16>,
    next: Option<Vec<u16>>,
    ports: &[u16],
)
    requires next { MatchOption next (kept.old.items ≡ ports.now) (λ copy. copy.items ≡ ports.now) }
    requires ordered { AreInOrder by_address.old.entries }
    requires timed { StandAt by_time.old.keys by_address.old.entries }
    requires at_ports { kept.old.items ≡ ports.now → AreAt ports.now by_address.old.entries }
    ensures entries { by_address.new.entries ≡ at_ports ports.now by_address.old.entries }
    ensures ordered { AreInOrder by_address.new.entries }
    ensures timed { StandAt by_time.new.keys by_address.new.entries }
    ensures at_ports { AreAt kept.new.items by_address.new.entries }
{
    if let Some(next) = next {
        drop_ports(by_address, ports);
        drop_times(by_address, by_time);
        *kept = next;
    }
}

// Whether a time is so short ago that an entry stays.
fn is_young(time: u64, now: u64) -> bool
    ensures { result ≡ nat_lt now (time + STAY) }
{
    now.saturating_sub(time) < STAY
}

// What is known of an address.
fn seen_at(by_address: &BTreeMap<Address, Seen>, address: Address) -> Option<Seen>
    ensures { result ≡ found address by_address.now.entries }
{
    by_address.get(&address).copied()
}

// Takes the first time away, if it is so long ago that an entry goes.
fn pop_old(by_time: &mut BTreeSet<(u64, Address)>, now: u64) -> Option<(u64, Address)>
    ensures first { IfSome result (λ first. by_time.old.keys ≡ first ∷ by_time.new.keys) }
    ensures old { IfSome result (λ first. is_young now first.0 ≡ false) }
    ensures unchanged { IfNone result (by_time.new.keys ≡ by_time.old.keys) }
    ensures all_young { IfNone result (AllByRecursion (λ first. is_young now first.0 ≡ true) by_time.old.keys) }
{
    let (time, _) = *by_time.first()?;
    if is_young(time, now) {
        return None;
    }
    by_time.pop_first()
}

// Takes an address away, if it was a source so long ago that its entry goes.
fn drop_stale(by_address: &mut BTreeMap<Address, Seen>, address: Address, now: u64)
    requires { AreInOrder by_address.old.entries }
    ensures entries { by_address.new.entries ≡ without_stale now address by_address.old.entries }
    ensures left { IfSome (found address by_address.new.entries) (λ seen. is_young now seen.time ≡ true) }
    ensures ordered { AreInOrder by_address.new.entries }
    ensures part { IsPartOf by_address.old.entries by_address.new.entries }
{
    let Some(seen) = seen_at(by_address, address) else {
        return;
    };
    if !is_young(seen.time, now) {
        by_address.remove(&address);
    }
}

// Takes the entries away whose address was a source so long ago.
pub fn drop_old(
    by_address: &mut BTreeMap<Address, Seen>,
    by_time: &mut BTreeSet<(u64, Address)>,
    now: u64,
)
    requires ordered { AreInOrder by_address.old.entries }
    requires timed { StandAt by_time.old.keys by_address.old.entries }
    ensures entries { by_address.new.entries ≡ young now by_address.old.entries }
    ensures ordered { AreInOrder by_address.new.entries }
    ensures timed { StandAt by_time.new.keys by_address.new.entries }
    ensures part { IsPartOf by_address.old.entries by_address.new.entries }
    ensures fewer { length by_address.new.entries ≤ length by_address.old.entries }
{
    while let Some((_, address)) = pop_old(by_time, now) {
        drop_stale(by_address, address, now);
    }
}

// Puts an address in, or gives it its new port and time.
fn put(
    by_address: &mut BTreeMap<Address, Seen>,
    by_time: &mut BTreeSet<(u64, Address)>,
    address: Address,
    seen: Seen,
) -> Result<(), AllocError>
    requires ordered { AreInOrder by_address.old.entries }
    requires timed { StandAt by_time.old.keys by_address.old.entries }
    ensures entries { OnOk result
        (by_address.new.entries ≡ insert_entry address_order by_address.old.entries address seen) }
    ensures unchanged { OnErr result (by_address.new.entries ≡ by_address.old.entries) }
    ensures ordered { AreInOrder by_address.new.entries }
    ensures timed { StandAt by_time.new.keys by_address.new.entries }
    ensures at_ports { (ports : List ℕ) → is_among ports seen.port ≡ true
        → AreAt ports by_address.old.entries → AreAt ports by_address.new.entries }
{
    by_time.insert((seen.time, address))?;
    match by_address.insert(address, seen) {
        Ok(Some(before)) => {
            if before.time != seen.time {
                by_time.remove(&(before.time, address));
            }
            Ok(())
        }
        Ok(None) => Ok(()),
        Err(failed) => {
            by_time.remove(&(seen.time, address));
            Err(AllocError::from(failed))
        }
    }
}

// Puts the source of a frame in, if it is one address.
pub fn put_source(
    by_address: &mut BTreeMap<Address, Seen>,
    by_time: &mut BTreeSet<(u64, Address)>,
    frame: &[u8],
    seen: Seen,
) -> Result<(), AllocError>
    requires long { 14 ≤ length frame.now }
    requires ordered { AreInOrder by_address.old.entries }
    requires timed { StandAt by_time.old.keys by_address.old.entries }
    ensures entries { OnOk result (by_address.new.entries ≡ put_from frame.now seen by_address.old.entries) }
    ensures unchanged { OnErr result (by_address.new.entries ≡ by_address.old.entries) }
    ensures ordered { AreInOrder by_address.new.entries }
    ensures timed { StandAt by_time.new.keys by_address.new.entries }
    ensures at_ports { (ports : List ℕ) → is_among ports seen.port ≡ true
        → AreAt ports by_address.old.entries → AreAt ports by_address.new.entries }
{
    if is_group(frame[6]) {
        return Ok(());
    }
    put(by_address, by_time, source(frame), seen)
}

// Whether there are more addresses than there may be.
fn is_over(by_address: &BTreeMap<Address, Seen>) -> bool
    ensures { result ≡ nat_lt MOST (length by_address.now.entries) }
{
    by_address.len() > MOST
}

// Takes a frame's source away again, where there are more addresses than there may be.
pub fn trim(
    by_address: &mut BTreeMap<Address, Seen>,
    by_time: &mut BTreeSet<(u64, Address)>,
    frame: &[u8],
    now: u64,
)
    requires long { 14 ≤ length frame.now }
    requires ordered { AreInOrder by_address.old.entries }
    requires timed { StandAt by_time.old.keys by_address.old.entries }
    ensures entries { by_address.new.entries ≡ trimmed (source_of frame.now) by_address.old.entries }
    ensures ordered { AreInOrder by_address.new.entries }
    ensures timed { StandAt by_time.new.keys by_address.new.entries }
    ensures part { IsPartOf by_address.old.entries by_address.new.entries }
{
    if is_over(by_address) {
        let address = source(frame);
        by_address.remove(&address);
        by_time.remove(&(now, address));
    }
}

// Adds the ports but this one.
fn push_others(answer: &mut Vec<u16>, port: u16, ports: &[u16])
    requires { vec_len answer.old + length ports.now ≤ vec_capacity answer.old }
    ensures { answer.new.items ≡ answer.old.items ++ others port ports.now }
{
    for other in ports {
        if *other != port {
            answer.push_reserved(*other);
        }
    }
}

// Adds the ports at which a frame is sent on.
pub fn fill(
    answer: &mut Vec<u16>,
    by_address: &BTreeMap<Address, Seen>,
    port: u16,
    frame: &[u8],
    ports: &[u16],
)
    requires long { 14 ≤ length frame.now }
    requires empty { answer.old.items ≡ [] }
    requires room { length ports.now ≤ vec_capacity answer.old }
    requires own { is_among ports.now port ≡ true }
    ensures { answer.new.items ≡ sent_on port frame.now ports.now by_address.now.entries }
{
    if !is_group(frame[0]) {
        if let Some(seen) = seen_at(by_address, destination(frame)) {
            push_others(answer, port, &[seen.port]);
            return;
        }
    }
    push_others(answer, port, ports);
}

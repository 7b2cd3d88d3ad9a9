//! What was done on rings.

ghost use Rattle.std.specs.Prelude.{◌≡◌, ◌==◌, if◌then◌else◌, IfOk, count_by, map, reverse};
ghost use Rattle.tap_trace.specs.declared.trace.StepLine.{StepLine};
ghost use Rattle.tap_report.specs.Rows.{called, copied, of_turns, published, ring_row};
ghost use Rattle.tap_report.specs.Turns.{calls, copies, first_told, is_backs, step_stops, stops, told_by_steps};
ghost use Rattle.tap_report.specs.declared.turns.Turned.{Turned};

use crate::index::{Role, role_at};
use crate::summary::RingRow;
use crate::sums::{counted, one_if};
use crate::turns::{Turned, is_turn_of};
use sqlite_items::Items;
use std::alloc::{AllocError, Global};
use tap_trace::{GuestPart, Kind, PositionList, RingPart, StepLine};

// The published chains.
fn published(lists: &[PositionList]) -> u64
    ensures { result ≡ published lists.now }
{
    let mut count = 0u64;
    for list in lists {
        count = count.saturating_add(list.used.len() as u64);
    }
    count
}

// Whether a packet of this ring was copied.
fn copies(vhost: u16, ring: u16, kind: Kind) -> bool
    ensures { result ≡ copies vhost ring kind }
{
    match kind {
        Kind::Copy {
            vhost: v,
            ring: r,
            position: _,
            name: _,
        } => v == vhost && r == ring,
        _ => false,
    }
}

// Whether chains of this ring were published, and a notice was needed.
fn calls(vhost: u16, ring: u16, kind: Kind) -> bool
    ensures { result ≡ calls vhost ring kind }
{
    match kind {
        Kind::Publish {
            vhost: v,
            ring: r,
            count: _,
            call,
        } => v == vhost && r == ring && call,
        _ => false,
    }
}

fn is_backs(role: Role) -> bool
    ensures { result ≡ is_backs role }
{
    match role {
        Role::Backs => true,
        _ => false,
    }
}

// By which fault this ring was stopped, or 0 where a backend was set.
fn stops(role: Role, vhost: u16, ring: u16, kind: Kind) -> Option<u8>
    ensures { result ≡ stops role vhost ring kind }
{
    match kind {
        Kind::Halt {
            vhost: v,
            ring: r,
            fault,
        } => {
            if v == vhost && r == ring {
                Some(fault)
            } else {
                None
            }
        }
        Kind::Backend {
            vhost: v,
            ring: r,
            set,
        } => {
            if is_backs(role) && v == vhost && r == ring && set {
                Some(0)
            } else {
                None
            }
        }
        _ => None,
    }
}

// What a ring's turns come to.
#[derive(Clone, Copy)]
struct TurnSums {
    got: u64,
    refused: u64,
    bytes: u64,
}

fn turn_sums(vhost: u16, ring: u16, turns: &[Turned]) -> TurnSums
    ensures got { result.got ≡ of_turns (λ (u : Turned). u.got) vhost ring turns.now }
    ensures refused { result.refused ≡ of_turns (λ (u : Turned). u.refused) vhost ring turns.now }
    ensures bytes { result.bytes ≡ of_turns (λ (u : Turned). u.bytes) vhost ring turns.now }
{
    let mut got = 0u64;
    let mut refused = 0u64;
    let mut bytes = 0u64;
    for turn in turns {
        let own = is_turn_of(vhost, ring, turn);
        got = got.saturating_add(counted(own, turn.got));
        refused = refused.saturating_add(counted(own, turn.refused));
        bytes = bytes.saturating_add(counted(own, turn.bytes));
    }
    TurnSums {
        got,
        refused,
        bytes,
    }
}

// What a ring's steps come to: the copied packets, the notices that were needed, and what the last step tells of the
// fault by which the ring is stopped.
#[derive(Clone, Copy)]
struct StepSums {
    copied: u64,
    called: u64,
    told: Option<u8>,
}

fn step_sums(roles: &[Role], vhost: u16, ring: u16, steps: &[StepLine]) -> StepSums
    ensures copied { result.copied ≡ count_by (λ (s : StepLine). copies vhost ring s.kind) steps.now }
    ensures called { result.called ≡ count_by (λ (s : StepLine). calls vhost ring s.kind) steps.now }
    ensures told { result.told ≡ first_told (step_stops roles.now vhost ring) (reverse steps.now) }
{
    let mut copied = 0u64;
    let mut called = 0u64;
    let mut told = None;
    for step in steps {
        copied += one_if(copies(vhost, ring, step.kind));
        called += one_if(calls(vhost, ring, step.kind));
        let new = stops(role_at(roles, step.command), vhost, ring, step.kind);
        told = new.or(told);
    }
    StepSums {
        copied,
        called,
        told,
    }
}

fn guest_sums(roles: &[Role], vhost: u16, ring: u16, guest: &GuestPart) -> StepSums
    ensures copied { result.copied ≡ count_by (λ (s : StepLine). copies vhost ring s.kind) guest.now.steps }
    ensures called { result.called ≡ count_by (λ (s : StepLine). calls vhost ring s.kind) guest.now.steps }
    ensures told { result.told ≡ told_by_steps roles.now vhost ring guest.now }
{
    step_sums(roles, vhost, ring, guest.steps.as_slice())
}

// Those of all guests.
fn all_sums(roles: &[Role], vhost: u16, ring: u16, guests: &[GuestPart]) -> StepSums
    ensures copied { result.copied ≡ copied vhost ring guests.now }
    ensures called { result.called ≡ called vhost ring guests.now }
    ensures told { result.told ≡ first_told (told_by_steps roles.now vhost ring) (reverse guests.now) }
{
    let mut copied = 0u64;
    let mut called = 0u64;
    let mut told = None;
    for guest in guests {
        let own = guest_sums(roles, vhost, ring, guest);
        copied = copied.saturating_add(own.copied);
        called = called.saturating_add(own.called);
        told = own.told.or(told);
    }
    StepSums {
        copied,
        called,
        told,
    }
}

// The frames of a ring, by what its turns accepted and its steps copied.
fn ring_frames(ring: u16, got: u64, copied: u64) -> u64
    ensures { result ≡ (if ring == 1 then got else copied) }
{
    if ring == 1 { got } else { copied }
}

fn ring_row(roles: &[Role], turns: &[Turned], guests: &[GuestPart], part: &RingPart) -> RingRow
    ensures { result ≡ ring_row roles.now turns.now guests.now part.now }
{
    let vhost = part.vhost;
    let ring = part.ring;
    let of_turns = turn_sums(vhost, ring, turns);
    let of_steps = all_sums(roles, vhost, ring, guests);
    RingRow {
        vhost,
        ring,
        chains: published(part.lists.as_slice()),
        frames: ring_frames(ring, of_turns.got, of_steps.copied),
        bytes: of_turns.bytes,
        calls: of_steps.called,
        bad: of_turns.refused,
        stopped: of_steps.told.unwrap_or(0),
    }
}

/// The rows of the rings.
pub fn ring_rows(
    alloc: Global,
    roles: &[Role],
    turns: &[Turned],
    guests: &[GuestPart],
    parts: &[RingPart],
) -> Result<Items<RingRow>, AllocError>
    ensures { IfOk result (λ r. r ≡ map (ring_row roles.now turns.now guests.now) parts.now) }
{
    let mut rows = Items::new(alloc);
    for part in parts {
        rows.push(ring_row(roles, turns, guests, part))?;
    }
    Ok(rows)
}

//! Frames through a ring.

ghost use Rattle.std.specs.Prelude.{◌≡◌, ◌≤◌, ◌<◌, ◌^◌, true};

use crate::frames::{end_all, keep, make};
use crate::{FRAMES, Start, Taken};
use std::alloc::{AllocError, Global};
use std::rt::Clock;
use std::sync::Wait;
use std::thread;
use std::thread::{Threads, join};
use std::time::Instant;
use tap_frame::Frame;
use tap_ring::{Consumer, MAX_SLOTS, Parts, Producer, PutBack, TapRing};

// Puts a frame, again and again until it is placed.
fn place<R: Wait>(rt: &R, ring: &TapRing, p: &mut Producer, mut frame: Frame)
    requires { p.old.ring ≡ ring.now.ring }
    ensures { p.new.ring ≡ p.old.ring }
{
    for _ in rt.forever() {
        match ring.try_put(p, 1, frame) {
            Ok(_) => return,
            Err(
                PutBack {
                    frame: back,
                    why: _,
                    resizes: _,
                },
            ) => {
                frame = back;
                thread::yield_now();
            }
        }
    }
    unreachable!()
}

// Makes frames, and puts them once all threads are there.
fn send<R: Wait>(
    rt: &R,
    alloc: Global,
    start: &Start,
    ring: &TapRing,
    mut p: Producer,
    actor: u16,
    count: u32,
) -> Producer
    requires { p.ring ≡ ring.now.ring }
    ensures { result.ring ≡ ring.now.ring }
{
    let mut frames = make(alloc, actor, count);
    start.made(rt, frames.len() as u64);
    while let Some(frame) = frames.pop() {
        place(rt, ring, &mut p, frame);
    }
    frames.destroy_empty();
    p
}

// Takes all frames that were made, and keeps them until the clock stands.
fn receive<R: Wait + Clock>(
    rt: &R,
    alloc: Global,
    start: &Start,
    ring: &TapRing,
    mut c: Consumer,
) -> (Consumer, Taken)
    requires { c.ring ≡ ring.now.ring }
    ensures { result.0.ring ≡ ring.now.ring }
{
    let mut kept = Vec::new(alloc);
    let _ = kept.reserve(FRAMES as usize);
    let total = start.total(rt);
    let began = Instant::now(rt).ok();
    let mut count = 0;
    for _ in rt.forever() {
        if count >= total {
            break;
        }
        match ring.take(&mut c) {
            Ok(frame) => {
                keep(&mut kept, frame);
                count += 1;
            }
            Err(_) => thread::yield_now(),
        }
    }
    let time = match began {
        Some(began) => began.elapsed(rt).ok(),
        None => None,
    };
    end_all(kept);
    (c, Taken { count, time })
}

fn send_two<R: Threads + Wait + Sync>(
    rt: &R,
    alloc: Global,
    start: &Start,
    ring: &TapRing,
    a: Producer,
    b: Producer,
    count: u32,
) -> (Producer, Producer)
    requires { (a.ring ≡ ring.now.ring) × (b.ring ≡ ring.now.ring) }
    ensures { (result.0.ring ≡ ring.now.ring) × (result.1.ring ≡ ring.now.ring) }
{
    join(
        rt,
        move || -> Producer
            requires { a.ring ≡ ring.now.ring }
            ensures { result.ring ≡ ring.entry.now.ring }
        { send(rt, alloc, start, ring, a, 0, count) },
        move || -> Producer
            requires { b.ring ≡ ring.now.ring }
            ensures { result.ring ≡ ring.entry.now.ring }
        { send(rt, alloc, start, ring, b, 1, count) },
    )
}

/// One sender and one consumer.
pub(crate) fn one<R: Threads + Wait + Clock + Sync>(
    rt: &R,
    alloc: Global,
    capacity: u16,
) -> Result<Taken, AllocError>
    requires { (1 ≤ capacity) × (capacity ≤ MAX_SLOTS) }
{
    let Parts {
        ring,
        mut producers,
        consumer: c,
        mut keeper,
    } = TapRing::new(alloc, capacity, capacity, 0, 1)?;
    let _ = ring.reopen(&mut keeper, &c);
    let taken = match producers.pop() {
        Some(a) => run_one(rt, alloc, &ring, a, c),
        None => Taken {
            count: 0,
            time: None,
        },
    };
    ring.abandon();
    Ok(taken)
}

fn run_one<R: Threads + Wait + Clock + Sync>(
    rt: &R,
    alloc: Global,
    ring: &TapRing,
    a: Producer,
    c: Consumer,
) -> Taken
    requires { (a.ring ≡ ring.now.ring) × (c.ring ≡ ring.now.ring) }
{
    let begin = Start::new(2);
    let start = &begin;
    let (_a, (_c, taken)) = join(
        rt,
        move || -> Producer
            requires { a.ring ≡ ring.now.ring }
        { send(rt, alloc, start, ring, a, 0, FRAMES) },
        move || -> (Consumer, Taken)
            requires { c.ring ≡ ring.now.ring }
        { receive(rt, alloc, start, ring, c) },
    );
    taken
}

/// Four senders and one consumer.
pub(crate) fn four<R: Threads + Wait + Clock + Sync>(
    rt: &R,
    alloc: Global,
    capacity: u16,
) -> Result<Taken, AllocError>
    requires { (1 ≤ capacity) × (capacity ≤ MAX_SLOTS) }
{
    let Parts {
        ring,
        mut producers,
        consumer: c,
        mut keeper,
    } = TapRing::new(alloc, capacity, capacity, 0, 4)?;
    let _ = ring.reopen(&mut keeper, &c);
    let taken = match (
        producers.pop(),
        producers.pop(),
        producers.pop(),
        producers.pop(),
    ) {
        (Some(a), Some(b), Some(d), Some(e)) => run_four(rt, alloc, &ring, a, b, d, e, c),
        _ => Taken {
            count: 0,
            time: None,
        },
    };
    ring.abandon();
    Ok(taken)
}

fn run_four<R: Threads + Wait + Clock + Sync>(
    rt: &R,
    alloc: Global,
    ring: &TapRing,
    a: Producer,
    b: Producer,
    d: Producer,
    e: Producer,
    c: Consumer,
) -> Taken
    requires low { (a.ring ≡ ring.now.ring) × (b.ring ≡ ring.now.ring) }
    requires high { (d.ring ≡ ring.now.ring) × (e.ring ≡ ring.now.ring) }
    requires consumer { c.ring ≡ ring.now.ring }
{
    let begin = Start::new(5);
    let start = &begin;
    let (_low, (_high, (_c, taken))) = join(
        rt,
        move || -> (Producer, Producer)
            requires { (a.ring ≡ ring.now.ring) × (b.ring ≡ ring.now.ring) }
        { send_two(rt, alloc, start, ring, a, b, FRAMES / 4) },
        move || -> ((Producer, Producer), (Consumer, Taken))
            requires { (d.ring ≡ ring.now.ring) × (e.ring ≡ ring.now.ring) × (c.ring ≡ ring.now.ring) }
        { send_and_receive(rt, alloc, start, ring, d, e, c) },
    );
    taken
}

fn send_and_receive<R: Threads + Wait + Clock + Sync>(
    rt: &R,
    alloc: Global,
    start: &Start,
    ring: &TapRing,
    a: Producer,
    b: Producer,
    c: Consumer,
) -> ((Producer, Producer), (Consumer, Taken))
    requires senders { (a.ring ≡ ring.now.ring) × (b.ring ≡ ring.now.ring) }
    requires consumer { c.ring ≡ ring.now.ring }
{
    join(
        rt,
        move || -> (Producer, Producer)
            requires { (a.ring ≡ ring.now.ring) × (b.ring ≡ ring.now.ring) }
        { send_two(rt, alloc, start, ring, a, b, FRAMES / 4) },
        move || -> (Consumer, Taken)
            requires { c.ring ≡ ring.now.ring }
        { receive(rt, alloc, start, ring, c) },
    )
}

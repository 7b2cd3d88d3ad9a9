//! A ring that two threads fill, while a third takes, shuts, resizes and reopens.

ghost use Rattle.std.specs.Prelude.{◌≡◌, ◌≤◌, [], ◌∷◌, vec_capacity, true};

use super::frame_of;
use crate::{Consumer, Ended, Keeper, MAX_SLOTS, Parts, Producer, PutBack, TapRing, Why};
use std::alloc::Global;
use std::process::Abort;
use std::sync::Wait;
use std::test::Fail;
use std::thread;
use std::thread::{Threads, join};
use tap_frame::{Frame, Name};

// How many frames each of two threads puts.
const EACH: u32 = 10_000;

// How often the ring is resized, shut, drained and reopened.
const ROUNDS: u64 = 100;

// How many frames more are taken before each shut, at least: in all rounds together fewer than there
// are, so that they come to their end.
const ROUND: u64 = 190;

// How many frames are taken at least. The others fit in the ring, so each producer comes to its end.
const TAKEN: u64 = 19_500;

// Puts a frame, again and again until it is placed. Follows the gate's epoch.
fn place<R: Wait + Abort>(
    rt: &R,
    ring: &TapRing,
    p: &mut Producer,
    epoch: &mut u16,
    mut frame: Frame,
) -> u64
    requires { p.old.ring ≡ ring.now.ring }
    ensures { p.new.ring ≡ p.old.ring }
{
    for _ in rt.forever() {
        match ring.try_put(p, *epoch, frame) {
            Ok(at) => return at,
            Err(
                PutBack {
                    frame: back,
                    why,
                    resizes: _,
                },
            ) => {
                frame = back;
                if let Why::Gone { found, shut: false } = why {
                    *epoch = found;
                }
                thread::yield_now();
            }
        }
    }
    unreachable!()
}

// Puts a thread's frames. Gives their places.
fn produce<R: Wait + Abort>(
    rt: &R,
    alloc: Global,
    ring: &TapRing,
    mut p: Producer,
    actor: u16,
) -> (Producer, Vec<u64>)
    requires { p.ring ≡ ring.now.ring }
    ensures { result.0.ring ≡ ring.now.ring }
{
    let mut places = Vec::new(alloc);
    let mut epoch = 1;
    for turn in 0..EACH {
        let frame = frame_of(alloc, actor, turn).expect(rt, "a frame");
        let at = place(rt, ring, &mut p, &mut epoch, frame);
        places.push(at).expect(rt, "memory");
    }
    (p, places)
}

// Takes frames until all places below this one are free.
fn take_to<R: Wait + Abort>(
    rt: &R,
    ring: &TapRing,
    c: &mut Consumer,
    least: u64,
    line: &mut Vec<Name>,
)
    requires { c.old.ring ≡ ring.now.ring }
    ensures { c.new.ring ≡ c.old.ring }
{
    for _ in rt.forever() {
        if c.freed() >= least {
            return;
        }
        match ring.take(c) {
            Ok(frame) => line.push(frame.end()).expect(rt, "memory"),
            Err(_) => thread::yield_now(),
        }
    }
}

// Takes frames, and a hundred times resizes the ring, shuts it, drains it and reopens it. Gives the names
// of the frames that were taken.
fn tend<R: Wait + Abort>(
    rt: &R,
    alloc: Global,
    ring: &TapRing,
    mut c: Consumer,
    mut k: Keeper,
) -> (Consumer, Keeper, Vec<Name>)
    requires ring { (c.ring ≡ ring.now.ring) × (k.ring ≡ ring.now.ring) × (ring.now.most ≡ MAX_SLOTS) }
    requires shut { k.view.gate.shut ≡ true }
    ensures { (result.0.ring ≡ ring.now.ring) × (result.1.ring ≡ ring.now.ring) }
{
    let mut line = Vec::new(alloc);
    ring.reopen(&mut k, &c).expect(rt, "a reopening");
    for round in 0..ROUNDS {
        let capacity = if round % 2 == 0 { 16 } else { MAX_SLOTS };
        ring.resize(&mut k, capacity).expect(rt, "a resize");
        take_to(rt, ring, &mut c, (round + 1) * ROUND, &mut line);
        let claimed = ring.shut(&mut k);
        take_to(rt, ring, &mut c, claimed, &mut line);
        ring.reopen(&mut k, &c).expect(rt, "a reopening");
    }
    take_to(rt, ring, &mut c, TAKEN, &mut line);
    (c, k, line)
}

// What two producers did.
#[derive(Drop)]
struct Two {
    first: (Producer, Vec<u64>),
    second: (Producer, Vec<u64>),
}

fn produce_two<R: Threads + Wait + Abort + Sync>(
    rt: &R,
    alloc: Global,
    ring: &TapRing,
    a: Producer,
    b: Producer,
) -> Two
    requires { (a.ring ≡ ring.now.ring) × (b.ring ≡ ring.now.ring) }
    ensures { (result.first.0.ring ≡ ring.now.ring) × (result.second.0.ring ≡ ring.now.ring) }
{
    let (first, second) = join(
        rt,
        move || -> (Producer, Vec<u64>)
            requires { a.ring ≡ ring.now.ring }
            ensures { result.0.ring ≡ ring.entry.now.ring }
        { produce(rt, alloc, ring, a, 0) },
        move || -> (Producer, Vec<u64>)
            requires { b.ring ≡ ring.now.ring }
            ensures { result.0.ring ≡ ring.entry.now.ring }
        { produce(rt, alloc, ring, b, 1) },
    );
    Two { first, second }
}

fn run_all<R: Threads + Wait + Abort + Sync>(
    rt: &R,
    alloc: Global,
    ring: &TapRing,
    a: Producer,
    b: Producer,
    c: Consumer,
    k: Keeper,
) -> ((Consumer, Keeper, Vec<Name>), Two)
    requires two { (a.ring ≡ ring.now.ring) × (b.ring ≡ ring.now.ring) }
    requires others { (c.ring ≡ ring.now.ring) × (k.ring ≡ ring.now.ring) × (k.view.gate.shut ≡ true)
        × (ring.now.most ≡ MAX_SLOTS) }
    ensures others { (result.0.0.ring ≡ ring.now.ring) × (result.0.1.ring ≡ ring.now.ring) }
    ensures two { (result.1.first.0.ring ≡ ring.now.ring) × (result.1.second.0.ring ≡ ring.now.ring) }
{
    join(
        rt,
        move || -> (Consumer, Keeper, Vec<Name>)
            requires { (c.ring ≡ ring.now.ring) × (k.ring ≡ ring.now.ring) × (k.view.gate.shut ≡ true)
                × (ring.now.most ≡ MAX_SLOTS) }
            ensures { (result.0.ring ≡ ring.entry.now.ring) × (result.1.ring ≡ ring.entry.now.ring) }
        { tend(rt, alloc, ring, c, k) },
        move || -> Two
            requires { (a.ring ≡ ring.now.ring) × (b.ring ≡ ring.now.ring) }
            ensures { (result.first.0.ring ≡ ring.entry.now.ring) × (result.second.0.ring ≡ ring.entry.now.ring) }
        { produce_two(rt, alloc, ring, a, b) },
    )
}

// Whether each frame of this actor stands in the line at the place that was told, and these places
// rise.
fn stands(line: &[Name], places: &[u64], actor: u16) -> bool {
    let mut least = 0;
    for (turn, &at) in places.iter().enumerate() {
        let Some(name) = line.get(at as usize) else {
            return false;
        };
        if name.actor != actor || name.turn as usize != turn || at < least {
            return false;
        }
        least = at.saturating_add(1);
    }
    places.len() == EACH as usize
}

// The whole line: what was taken, and then what is left.
fn whole_line<R: Abort>(rt: &R, mut line: Vec<Name>, ended: Ended) -> Vec<Name> {
    let Ended {
        claimed,
        freed,
        lifted,
        mut left,
    } = ended;
    assert!(rt; freed == lifted && line.len() as u64 == freed);
    left.reverse();
    while let Some(frame) = left.pop() {
        line.push(frame.end()).expect(rt, "memory");
    }
    left.destroy_empty();
    assert!(rt; line.len() as u64 == claimed);
    line
}

// The two producers together again.
fn together(mut all: Vec<Producer>, p: Producer, q: Producer) -> Vec<Producer>
    requires room { (all.items ≡ []) × (2 ≤ vec_capacity all) }
    ensures { result.items ≡ p ∷ q ∷ [] }
{
    all.push_reserved(p);
    all.push_reserved(q);
    all
}

#[test]
fn two_threads_put_while_one_takes_and_keeps(rt: HostRuntime) -> Result<(), Fail> {
    let a = rt.alloc();
    let all = Vec::with_capacity(a, 2)?;
    let Parts {
        ring,
        mut producers,
        consumer,
        keeper,
    } = TapRing::new(a, MAX_SLOTS, MAX_SLOTS, 0, 2)?;
    let (Some(q), Some(p)) = (producers.pop(), producers.pop()) else {
        panic!(rt; "no producer")
    };
    let ((c, k, line), Two { first, second }) = run_all(&rt, a, &ring, p, q, consumer, keeper);
    let (p, low) = first;
    let (q, high) = second;
    let line = whole_line(&rt, line, ring.finish(together(all, p, q), c, k));
    assert_eq!(rt; line.len(), 2 * EACH as usize);
    assert!(rt; stands(&line, &low, 0));
    assert!(rt; stands(&line, &high, 1));
    Ok(())
}

//! Frames through a queue under a lock.

use crate::frames::{end_all, keep, make};
use crate::{FRAMES, Start, Taken};
use std::alloc::{AllocFailed, Global};
use std::collections::VecDeque;
use std::rt::Clock;
use std::sync::{Mutex, Wait};
use std::thread;
use std::thread::{Threads, join};
use std::time::Instant;
use tap_frame::Frame;

type Queue = Mutex<VecDeque<Frame>>;

// Puts a frame at the end where there is room. Or else gives it back.
fn try_put<R: Wait>(rt: &R, queue: &Queue, capacity: usize, frame: Frame) -> Option<Frame> {
    let mut frames = queue.lock(rt);
    if frames.len() >= capacity {
        return Some(frame);
    }
    match frames.push_back(frame) {
        Ok(()) => None,
        Err(AllocFailed { value }) => Some(value),
    }
}

// Puts a frame, again and again until it is placed.
fn place<R: Wait>(rt: &R, queue: &Queue, capacity: usize, mut frame: Frame) {
    for _ in rt.forever() {
        match try_put(rt, queue, capacity, frame) {
            None => return,
            Some(back) => {
                frame = back;
                thread::yield_now();
            }
        }
    }
    unreachable!()
}

// Makes frames, and puts them once all threads are there.
fn send<R: Wait>(
    rt: &R,
    alloc: Global,
    start: &Start,
    queue: &Queue,
    capacity: usize,
    actor: u16,
    count: u32,
) {
    let mut frames = make(alloc, actor, count);
    start.made(rt, frames.len() as u64);
    while let Some(frame) = frames.pop() {
        place(rt, queue, capacity, frame);
    }
    frames.destroy_empty();
}

fn try_take<R: Wait>(rt: &R, queue: &Queue) -> Option<Frame> {
    queue.lock(rt).pop_front()
}

// Takes all frames that were made, and keeps them until the clock stands.
fn receive<R: Wait + Clock>(rt: &R, alloc: Global, start: &Start, queue: &Queue) -> Taken {
    let mut kept = Vec::new(alloc);
    let _ = kept.reserve(FRAMES as usize);
    let total = start.total(rt);
    let began = Instant::now(rt).ok();
    let mut count = 0;
    for _ in rt.forever() {
        if count >= total {
            break;
        }
        match try_take(rt, queue) {
            Some(frame) => {
                keep(&mut kept, frame);
                count += 1;
            }
            None => thread::yield_now(),
        }
    }
    let time = match began {
        Some(began) => began.elapsed(rt).ok(),
        None => None,
    };
    end_all(kept);
    Taken { count, time }
}

// Ends what is left in the queue.
fn end_queue(queue: Queue) {
    let mut frames = queue.into_inner();
    while let Some(frame) = frames.pop_front() {
        let _ = frame.end();
    }
    frames.destroy_empty();
}

/// One sender and one consumer.
pub(crate) fn one<R: Threads + Wait + Clock + Sync>(rt: &R, alloc: Global, capacity: u16) -> Taken {
    let own = Mutex::new(VecDeque::new(alloc));
    let begin = Start::new(2);
    let taken = {
        let queue = &own;
        let start = &begin;
        let room = usize::from(capacity);
        join(
            rt,
            || send(rt, alloc, start, queue, room, 0, FRAMES),
            || receive(rt, alloc, start, queue),
        )
        .1
    };
    end_queue(own);
    taken
}

fn send_two<R: Threads + Wait + Sync>(
    rt: &R,
    alloc: Global,
    start: &Start,
    queue: &Queue,
    room: usize,
) {
    join(
        rt,
        || send(rt, alloc, start, queue, room, 0, FRAMES / 4),
        || send(rt, alloc, start, queue, room, 1, FRAMES / 4),
    );
}

/// Four senders and one consumer.
pub(crate) fn four<R: Threads + Wait + Clock + Sync>(
    rt: &R,
    alloc: Global,
    capacity: u16,
) -> Taken {
    let own = Mutex::new(VecDeque::new(alloc));
    let begin = Start::new(5);
    let taken = {
        let queue = &own;
        let start = &begin;
        let room = usize::from(capacity);
        let (_, (_, taken)) = join(
            rt,
            || send_two(rt, alloc, start, queue, room),
            || {
                join(
                    rt,
                    || send_two(rt, alloc, start, queue, room),
                    || receive(rt, alloc, start, queue),
                )
            },
        );
        taken
    };
    end_queue(own);
    taken
}

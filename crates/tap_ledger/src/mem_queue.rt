//! A queue in memory.

ghost use Rattle.std.specs.Prelude.{◌≡◌, ◌≢◌, ◌<◌, ◌≤◌, ◌+◌, ◌==◌, ◌↔◌, ◌++◌, ◌∷◌, [], length, min, if◌then◌else◌, None, Some, true, OnOk, OnErr, IsTrue, vec_len, vec_capacity};
ghost use Rattle.std.specs.List.{list_any};
ghost use Rattle.std.specs.Option.{option_to_list};
ghost use Rattle.std.specs.VecDeque.{deque_len, deque_capacity};
ghost use Rattle.tap_ground.specs.Counts.{Rose};
ghost use Rattle.tap_ledger.specs.Queue.{Extends, with_handed, name_handed, IfNotReady, put_back, finished, IsFinal};
ghost use Rattle.tap_ledger.specs.Memory.{empty_queue, front_place, prepared, called, with_first_in_hand, handed};

use crate::{Fate, FrameQueue, Hand, OutFrame};
use std::alloc::{AllocError, Global};
use std::collections::VecDeque;
use std::marker::Model;
use tap_frame::{Frame, Name};

/// A queue over frames in memory, at some of whose calls none is ready.
///
/// To a contract it is what every queue is, and the place at which its line begins, the frames that come behind
/// the known ones, the number of calls of `hand` that are over, the numbers of those at which none is ready, and
/// how many frames get known by one look at most.
pub struct MemQueue {
    first: u32,
    out: Vec<OutFrame>,
    in_hand: Option<Name>,
    // The known frames that wait, and then those that come.
    frames: VecDeque<Frame>,
    known: usize,
    is_off: bool,
    looks: u64,
    found_none: bool,
    calls: u64,
    unready: Vec<u32>,
    most: usize,
}

impl Model for MemQueue {
    ghost use Rattle.tap_ledger.specs.Memory.{MemoryQueue};

    ghost Value = { MemoryQueue };

    ghost use Rattle.tap_ledger.specs.MemoryRoom.{meaning, HasRoom};

    ghost view = { meaning };

    ghost invariant = { HasRoom };
}

impl MemQueue {
    /// A queue without frames, whose line begins at a place. It gets to know at most `most` frames by one look,
    /// and none is ready at the calls of `hand` whose numbers, from 0, are listed.
    pub fn new(alloc: Global, first: u32, unready: Vec<u32>, most: usize) -> MemQueue
        requires { 1 ≤ most }
        ensures { result ≡ empty_queue first unready.items most }
    {
        MemQueue {
            first,
            out: Vec::new(alloc),
            in_hand: None,
            frames: VecDeque::new(alloc),
            known: 0,
            is_off: false,
            looks: 0,
            found_none: false,
            calls: 0,
            unready,
            most,
        }
    }

    /// Lets one more frame come, or ends it where memory runs out.
    pub fn push(&mut self, frame: Frame) -> Result<(), AllocError>
        ensures ok { OnOk result (self.new ≡ record self.old { coming = self.old.coming ++ frame ∷ [] }) }
        ensures err { OnErr result (self.new ≡ self.old) }
    {
        let held = held(&self.in_hand);
        match make_room(&mut self.out, &mut self.frames, held) {
            Ok(()) => {
                self.frames.push_back_reserved(frame);
                Ok(())
            }
            Err(error) => {
                let _ = frame.end();
                Err(error)
            }
        }
    }

    /// Turns the queue off or on.
    pub fn set_off(&mut self, is_off: bool)
        ensures { self.new ≡ record self.old { queue = record self.old.queue { is_off = is_off } } }
    {
        self.is_off = is_off;
    }

    /// The frames that are out, in their order.
    pub fn out(&self) -> &[OutFrame]
        ensures { result.now ≡ self.now.queue.out }
    {
        &self.out
    }

    // Looks for frames where it is on and none is known.
    fn prepare(&mut self)
        ensures prepared { self.new ≡ prepared self.old }
        ensures looks { self.old.queue.looks ≤ self.new.queue.looks }
    {
        if self.is_off || self.known > 0 {
            return;
        }
        let found = found(&self.unready, self.calls, self.frames.len(), self.most);
        self.known = found;
        self.looks = self.looks.saturating_add(1);
        self.found_none = found == 0;
    }

    // One more call.
    fn call(&mut self)
        ensures { self.new ≡ called self.old }
    {
        self.calls = self.calls.saturating_add(1);
    }

    // Whether a known frame waits.
    fn has_known(&self) -> bool
        ensures { IsTrue result ↔ (0 < length self.now.queue.waiting) }
    {
        self.known > 0
    }

    // The place of the first frame that isn't out.
    fn front_place(&self) -> u64
        ensures { result ≡ front_place self.now }
    {
        u64::from(self.first) + self.out.len() as u64
    }

    // Takes the first known frame in hand.
    fn take_front(&mut self) -> Frame
        requires { 0 < length self.old.queue.waiting }
        ensures front { self.old.queue.waiting ≡ result ∷ self.new.queue.waiting }
        ensures in_hand { self.new ≡ with_first_in_hand self.old.queue.waiting self.old }
    {
        match self.frames.pop_front() {
            Some(frame) => {
                self.known -= 1;
                self.in_hand = Some(frame.name());
                frame
            }
            None => unreachable!(),
        }
    }

    /// Ends each frame that is in the queue. It takes no memory.
    pub fn abandon(self) {
        let MemQueue {
            first: _,
            out: _,
            in_hand: _,
            mut frames,
            known: _,
            is_off: _,
            looks: _,
            found_none: _,
            calls: _,
            unready: _,
            most: _,
        } = self;
        while let Some(frame) = frames.pop_front() {
            let _ = frame.end();
        }
        frames.destroy_empty();
    }
}

// How many frames are in hand.
fn held(in_hand: &Option<Name>) -> usize
    ensures held { result ≡ length (option_to_list in_hand.now) }
    ensures small { result ≤ 1 }
{
    match in_hand {
        Some(_) => 1,
        None => 0,
    }
}

// Makes room for one more frame, where so many are in hand.
fn make_room(
    out: &mut Vec<OutFrame>,
    frames: &mut VecDeque<Frame>,
    held: usize,
) -> Result<(), AllocError>
    requires { held ≤ 1 }
    ensures out { out.new.items ≡ out.old.items }
    ensures out_len { vec_len out.new ≡ vec_len out.old }
    ensures frames { frames.new.items ≡ frames.old.items }
    ensures frames_len { deque_len frames.new ≡ deque_len frames.old }
    ensures back { deque_capacity frames.old ≤ deque_capacity frames.new }
    ensures out_kept { vec_capacity out.old ≤ vec_capacity out.new }
    ensures more_back { OnOk result (deque_len frames.old + 1 + held ≤ deque_capacity frames.new) }
    ensures more_out { OnOk result (vec_len out.old + (deque_len frames.old + 1 + held) ≤ vec_capacity out.new) }
{
    let inside = frames.len() + 1 + held;
    out.reserve(inside)?;
    frames.reserve(1 + held)?;
    Ok(())
}

// How many of the frames that come are found by a look in this call.
fn found(unready: &[u32], call: u64, coming: usize, most: usize) -> usize
    ensures { result ≡ (if list_any (λ k. k == call) unready.now then 0 else min most coming) }
{
    if is_listed(unready, call) {
        0
    } else {
        most.min(coming)
    }
}

// Whether a call is listed.
fn is_listed(calls: &[u32], call: u64) -> bool
    ensures { result ≡ list_any (λ k. k == call) calls.now }
{
    calls.iter().any(|k| u64::from(*k) == call)
}

impl FrameQueue for MemQueue {
    ghost queue = { λ q. q.queue };

    fn hand(&mut self) -> Hand
        requires free { self.old.queue.in_hand ≡ None }

        ensures known { Extends self.old.queue.waiting (with_handed result self.new.queue.waiting) }
        ensures in_hand { self.new.queue.in_hand ≡ name_handed result }
        ensures off { (result ≡ Hand.Off) ↔ IsTrue self.old.queue.is_off }

        ensures none_waits { IfNotReady result (λ place. self.new.queue.waiting ≡ []) }
        ensures looked { IfNotReady result (λ place. Rose self.old.queue.looks self.new.queue.looks) }
        ensures found_none { IfNotReady result (λ place. self.new.queue.found_none ≡ true) }

        ensures out_stays { self.new.queue.out ≡ self.old.queue.out }
        ensures off_stays { self.new.queue.is_off ≡ self.old.queue.is_off }
        ensures never_falls { self.old.queue.looks ≤ self.new.queue.looks }

        ensures place { IfNotReady result (λ place. place ≡ front_place self.new) }
        ensures handed { self.new ≡ handed self.old }
        ensures given { with_handed result self.new.queue.waiting ≡ (prepared self.old).queue.waiting }
        ensures memory { result ≢ Hand.NoMemory }
    {
        self.prepare();
        self.call();
        if self.is_off {
            return Hand::Off;
        }
        if !self.has_known() {
            return Hand::NotReady {
                place: self.front_place(),
            };
        }
        Hand::Got(self.take_front())
    }

    fn put_back(&mut self, frame: Frame)
        requires in_hand { self.old.queue.in_hand ≡ Some frame.name }
        ensures put_back { self.new.queue ≡ put_back frame self.old.queue }
        ensures only { self.new ≡ record self.old { queue = put_back frame self.old.queue } }
    {
        self.in_hand = None;
        self.known += 1;
        self.frames.push_front_reserved(frame);
    }

    fn finish(&mut self, frame: Frame, fate: Fate)
        requires in_hand { self.old.queue.in_hand ≡ Some frame.name }
        requires fate { IsFinal fate }
        ensures finished { self.new.queue ≡ finished frame fate self.old.queue }
        ensures only { self.new ≡ record self.old { queue = finished frame fate self.old.queue } }
    {
        let len = frame.bytes().len() as u32;
        let name = frame.end();
        self.in_hand = None;
        self.out.push_reserved(OutFrame { name, len, fate });
    }

    fn in_hand(&self) -> Option<Name> {
        self.in_hand
    }
}

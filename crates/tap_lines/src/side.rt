//! A file with its frames, and what is read of it.

ghost use Rattle.std.specs.Prelude.{◌≡◌, ◌≤◌, [], length, is_some, option_map, None};
ghost use Rattle.tap_world.specs.Line as line;
ghost use Rattle.tap_world.specs.LineSteps as steps;
ghost use Rattle.tap_world.specs.Runs.{new_file};
ghost use Rattle.tap_world.specs.Sound.{front_name};

use crate::frame_line::FrameLine;
use std::alloc::Global;
use std::marker::Model;
use tap_frame::Name;
use tap_world::Entry;

/// How many places a file can give out, counted from place 0.
pub const MOST_PLACES: u64 = (1 << 40) - 1;

/// A file: its ring and batch with the line behind them, its gate, the worker that owns it, and its frames.
///
/// To a contract it is the file, and beside each entry of its line the frame of that entry, where the file has it. It
/// has frames, so it can't be dropped: [`FileSide::abandon`] ends it.
pub struct FileSide {
    pub(crate) first: u64,
    pub(crate) capacity: u16,
    pub(crate) resizes: u8,
    pub(crate) line: FrameLine,
    pub(crate) epoch: u16,
    pub(crate) shut: bool,
    pub(crate) owner: Option<u16>,
    pub(crate) hand: Option<u16>,
}

impl Model for FileSide {
    ghost use Rattle.tap_lines.specs.Placed.{Placed};

    ghost Value = { Placed };

    ghost use Rattle.tap_lines.specs.Held.{KeepsPlaced, placed_of};

    ghost view = { placed_of };

    ghost invariant = { KeepsPlaced };
}

impl FileSide {
    /// A file whose first place is `first`, with nothing in its line and its gate shut.
    pub fn new(alloc: Global, first: u64, capacity: u16) -> FileSide
        requires { first ≤ MOST_PLACES }
        ensures { result ≡ record { file = new_file (record { capacity = capacity; first = first }); frames = [] } }
    {
        FileSide {
            first,
            capacity,
            resizes: 0,
            line: FrameLine::new(alloc),
            epoch: 0,
            shut: true,
            owner: None,
            hand: None,
        }
    }

    /// The place of the first entry of its line.
    pub fn first(&self) -> u64
        ensures { result ≡ self.now.file.first }
    {
        self.first
    }

    /// How many frames its ring holds.
    pub fn capacity(&self) -> u16
        ensures { result ≡ self.now.file.capacity }
    {
        self.capacity
    }

    /// How often its ring was resized.
    pub fn resizes(&self) -> u8
        ensures { result ≡ self.now.file.resizes }
    {
        self.resizes
    }

    /// Its line: each frame that ever got a place, in the order placed.
    pub fn line(&self) -> &[Entry]
        ensures { result.now ≡ self.now.file.line }
    {
        self.line.entries()
    }

    /// The epoch of its gate: how often that was opened.
    pub fn epoch(&self) -> u16
        ensures { result ≡ self.now.file.epoch }
    {
        self.epoch
    }

    /// Whether its gate is shut.
    pub fn is_shut(&self) -> bool
        ensures { result ≡ self.now.file.shut }
    {
        self.shut
    }

    /// The vhost whose worker owns it.
    pub fn owner(&self) -> Option<u16>
        ensures { result ≡ self.now.file.owner }
    {
        self.owner
    }

    /// The vhost whose worker has the batch's front in hand.
    pub fn hand(&self) -> Option<u16>
        ensures { result ≡ self.now.file.hand }
    {
        self.hand
    }

    /// The first place that was never given out.
    pub fn claimed(&self) -> u64
        ensures { result ≡ line.claimed self.now.file }
    {
        self.first + self.line.len() as u64
    }

    /// The first place, and as many more as there are entries whose place is free again: out, in the batch, or cut.
    pub fn freed(&self) -> u64
        ensures { result ≡ line.freed self.now.file }
    {
        self.claimed() - self.line.in_ring() as u64
    }

    /// The least place in the ring, or the next one to be given out where none is in the ring.
    pub fn front_place(&self) -> u64
        ensures { result ≡ line.front_place self.now.file }
    {
        match self.line.ring_front() {
            Some(index) => self.first + index as u64,
            None => self.claimed(),
        }
    }

    /// Whether batch and ring are empty.
    pub fn is_empty(&self) -> bool
        ensures { result ≡ line.is_empty self.now.file }
    {
        self.line.is_empty()
    }

    /// Whether something is in the batch.
    pub fn has_batch(&self) -> bool
        ensures { result ≡ line.has_batch self.now.file }
    {
        self.line.batch_front().is_some()
    }

    /// How many frames are in the batch.
    pub fn batched(&self) -> usize
        ensures { result ≡ line.count line.in_batch self.now.file.line }
    {
        self.line.batched()
    }

    /// Whether the ring is full: as many places are claimed and not freed as it holds.
    pub fn is_full(&self) -> bool
        ensures { result ≡ line.is_full self.now.file }
    {
        self.line.in_ring() >= usize::from(self.capacity)
    }

    /// Whether the gate is shut, or is open under another epoch than `want`.
    pub fn is_gone(&self, want: u16) -> bool
        ensures { result ≡ line.is_gone want self.now.file }
    {
        self.shut || self.epoch != want
    }

    /// Whether all places are given out.
    pub fn is_spent(&self) -> bool
        ensures { result ≡ line.is_spent self.now.file }
    {
        self.claimed() == MOST_PLACES
    }

    /// Whether more wait in the ring than it holds, as after a resize.
    pub fn is_over(&self) -> bool
        ensures { result ≡ line.is_over self.now.file }
    {
        self.line.in_ring() > usize::from(self.capacity)
    }

    /// Whether a place is claimed and not put yet.
    pub fn has_claim(&self) -> bool
        ensures { result ≡ line.has_claim self.now.file }
    {
        self.line.claims() > 0
    }

    /// The place in the line, counted from 0, of the ring's front, where that is ready.
    pub fn ready_front(&self) -> Option<usize>
        ensures { result ≡ steps.ready_front self.now.file.line }
    {
        self.line.ready_front()
    }

    /// The place in the line, counted from 0, of the batch's front.
    pub fn batch_front(&self) -> Option<usize>
        ensures { result ≡ line.first_that line.in_batch self.now.file.line }
    {
        self.line.batch_front()
    }

    /// The name of the batch's front.
    pub fn front_name(&self) -> Option<Name>
        ensures { result ≡ front_name self.now.file.line }
    {
        match self.line.batch_front() {
            Some(index) => Some(self.line.name_at(index)),
            None => None,
        }
    }

    /// Ends each frame that it has.
    pub fn abandon(self) {
        let FileSide {
            first: _,
            capacity: _,
            resizes: _,
            line,
            epoch: _,
            shut: _,
            owner: _,
            hand: _,
        } = self;
        line.abandon();
    }
}

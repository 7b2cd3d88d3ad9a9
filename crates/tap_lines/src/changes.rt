//! The changes of a file.

ghost use Rattle.std.specs.Prelude.{◌≡◌, ◌-◌, ◌++◌, ◌∷◌, [], IfOk, IfSome, OnErr, OnOk, Some, None, slice_get, slice_set};
ghost use Rattle.tap_world.specs.Line.{claimed, first_that, in_batch, in_ring, last_that};
ghost use Rattle.tap_world.specs.LineSteps.{changed, ready_front};
ghost use Rattle.tap_world.specs.LineSteps.Change.{Claims, Cuts, Leaves, Moves, Owned, Puts, PutsBack, Reopens, Shuts, Sizes, Takes};
ghost use Rattle.tap_world.specs.StepRing.{name_at};
ghost use Rattle.tap_lines.specs.Framed.{Goes, IsFrameAt, IsFrameOf};
ghost use Rattle.tap_lines.specs.Placed.{MayChange, framed};

use crate::side::FileSide;
use std::alloc::AllocError;
use tap_frame::{Frame, Name};
use tap_ledger::Fate;

impl FileSide {
    /// An actor gets the next place for a frame, under an epoch, of which `len` bytes are kept. Tells the place.
    pub fn claim(&mut self, actor: u16, name: Name, epoch: u16, len: u32) -> Result<u64, AllocError>
        requires { MayChange (Claims actor name epoch len) self.old.file }
        ensures place { IfOk result (λ place. place ≡ claimed self.old.file) }
        ensures file { OnOk result (changed (Claims actor name epoch len) self.old.file ≡ Some self.new.file) }
        ensures frames { OnOk result (self.new.frames ≡ self.old.frames ++ None ∷ []) }
        ensures err { OnErr result (self.new ≡ self.old) }
    {
        let place = self.claimed();
        self.line.push(actor, name, epoch, len)?;
        Ok(place)
    }

    /// An actor puts its frame at the place that it has claimed for it.
    pub fn put(&mut self, actor: u16, place: u64, frame: Frame)
        requires claimed { MayChange (Puts actor place) self.old.file }
        requires frame { IfSome (slice_get self.old.file.line (place - self.old.file.first)) (λ e. IsFrameOf e frame) }
        ensures file { changed (Puts actor place) self.old.file ≡ Some self.new.file }
        ensures frames { self.new.frames
            ≡ slice_set self.old.frames (place - self.old.file.first) (Some frame) }
    {
        let index = place.saturating_sub(self.first) as usize;
        self.line.ready(index);
        self.line.put_frame(index, frame);
    }

    /// The ring's front, which is ready, becomes the batch's last. Tells its name.
    pub fn move_front(&mut self) -> Name
        requires { MayChange Moves self.old.file }
        ensures file { changed Moves self.old.file ≡ Some self.new.file }
        ensures frames { self.new.frames ≡ self.old.frames }
        ensures name { name_at self.old.file.line (ready_front self.old.file.line) ≡ Some result }
    {
        let index = self.line.ready_front().unwrap();
        let name = self.line.name_at(index);
        self.line.move_front(index);
        name
    }

    /// The worker of a vhost, which owns the file, takes the batch's front in hand. Where the batch is empty, up to 64
    /// ready fronts of the ring move to it before.
    pub fn take(&mut self, vhost: u16) -> Frame
        requires { MayChange (Takes vhost) self.old.file }
        ensures file { changed (Takes vhost) self.old.file ≡ Some self.new.file }
        ensures frame { Goes (first_that in_batch self.new.file.line)
            (record { line = self.new.file.line; frames = self.old.frames }) result self.new.frames }
    {
        self.line.fill_empty();
        let index = self.line.batch_front().unwrap();
        self.hand = Some(vhost);
        self.line.take_frame(index)
    }

    /// The worker of a vhost puts the frame in hand back.
    pub fn put_back(&mut self, vhost: u16, frame: Frame)
        requires in_hand { MayChange (PutsBack vhost) self.old.file }
        requires frame { IsFrameAt (first_that in_batch self.old.file.line) self.old.file.line frame }
        ensures file { changed (PutsBack vhost) self.old.file ≡ Some self.new.file }
        ensures frames { IfSome (first_that in_batch self.old.file.line) (λ index.
            self.new.frames ≡ slice_set self.old.frames index (Some frame)) }
    {
        let index = self.line.batch_front().unwrap();
        self.hand = None;
        self.line.put_frame(index, frame);
    }

    /// The batch's front leaves with its fate, where nothing is in hand.
    pub fn leave(&mut self, fate: Fate) -> Frame
        requires { MayChange (Leaves None fate) self.old.file }
        ensures file { changed (Leaves None fate) self.old.file ≡ Some self.new.file }
        ensures frame { Goes (first_that in_batch self.old.file.line) (framed self.old) result self.new.frames }
    {
        let index = self.line.batch_front().unwrap();
        self.line.leave(index, fate);
        self.line.take_frame(index)
    }

    /// The batch's front, which the worker of a vhost has in hand, leaves with its fate.
    pub fn leave_from_hand(&mut self, vhost: u16, fate: Fate)
        requires { MayChange (Leaves (Some vhost) fate) self.old.file }
        ensures file { changed (Leaves (Some vhost) fate) self.old.file ≡ Some self.new.file }
        ensures frames { self.new.frames ≡ self.old.frames }
    {
        let index = self.line.batch_front().unwrap();
        self.hand = None;
        self.line.leave(index, fate);
    }

    /// The gate is shut.
    pub fn shut(&mut self)
        requires { MayChange Shuts self.old.file }
        ensures file { changed Shuts self.old.file ≡ Some self.new.file }
        ensures frames { self.new.frames ≡ self.old.frames }
    {
        self.shut = true;
    }

    /// The gate is opened under the next epoch, where batch and ring are empty.
    pub fn reopen(&mut self)
        requires { MayChange Reopens self.old.file }
        ensures file { changed Reopens self.old.file ≡ Some self.new.file }
        ensures frames { self.new.frames ≡ self.old.frames }
    {
        self.shut = false;
        self.epoch += 1;
    }

    /// The ring has another capacity. What is over is to be cut.
    pub fn resize(&mut self, capacity: u16)
        requires { MayChange (Sizes capacity) self.old.file }
        ensures file { changed (Sizes capacity) self.old.file ≡ Some self.new.file }
        ensures frames { self.new.frames ≡ self.old.frames }
    {
        self.capacity = capacity;
        self.resizes += 1;
    }

    /// The ring's last entry is cut, where more wait than it holds and each of its places is put.
    pub fn cut(&mut self) -> Frame
        requires { MayChange Cuts self.old.file }
        ensures file { changed Cuts self.old.file ≡ Some self.new.file }
        ensures frame { Goes (last_that in_ring self.old.file.line) (framed self.old) result self.new.frames }
    {
        let index = self.line.ring_back().unwrap();
        self.line.cut(index);
        self.line.take_frame(index)
    }

    /// The worker of a vhost owns the file from now on, or none does.
    pub fn own(&mut self, owner: Option<u16>)
        requires { MayChange (Owned owner) self.old.file }
        ensures file { changed (Owned owner) self.old.file ≡ Some self.new.file }
        ensures frames { self.new.frames ≡ self.old.frames }
    {
        self.owner = owner;
    }
}

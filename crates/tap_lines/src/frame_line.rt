//! A line with its frames, and where those entries stand that wait.

ghost use Rattle.std.specs.Prelude.{◌≡◌, ◌<◌, ◌++◌, ◌∷◌, [], IfOk, IfSome, IsSome, OnErr, OnOk, Some, None, length, slice_get, slice_set, true, false, if◌then◌else◌, is_none};
ghost use Rattle.std.specs.Option.{option_map_or};
ghost use Rattle.tap_world.specs.declared.line.Entry.{Entry};
ghost use Rattle.tap_world.specs.declared.line.Standing.TheVariants.{Batched, Claimed, Cut, Out, Ready};
ghost use Rattle.tap_world.specs.Line.{count, entry_ready, first_that, in_batch, in_ring, is_claimed, is_kept, is_ready, last_that};
ghost use Rattle.tap_world.specs.LineSteps.{ready_front, restand};
ghost use Rattle.tap_lines.specs.Framed.{HasFrameAt};
ghost use Rattle.tap_lines.specs.Indexed.{AreParted, filled_up, to_be_taken};

use std::alloc::{AllocError, Global};
use std::collections::VecDeque;
use std::marker::Model;
use tap_frame::{Frame, Name};
use tap_ledger::Fate;
use tap_world::{Entry, Standing};

/// How many frames a batch has at most.
const MOST_BATCHED: usize = 64;

/// A line with its frames.
///
/// To a contract it is the line, and beside each entry its frame, where the line has it.
pub(crate) struct FrameLine {
    line: Vec<Entry>,
    frames: Vec<Option<Frame>>,
    // The places in the line of the entries that wait: the batch's, and then the ring's.
    waiting: VecDeque<usize>,
    batched: usize,
    claims: usize,
}

impl Model for FrameLine {
    ghost use Rattle.tap_lines.specs.Framed.{Framed};

    ghost Value = { Framed };

    ghost use Rattle.tap_lines.specs.Kept.{FindsAll, framed_of};

    ghost view = { framed_of };

    ghost invariant = { FindsAll };
}

impl FrameLine {
    // A line with nothing in it.
    pub(crate) fn new(alloc: Global) -> FrameLine
        ensures { result ≡ record { line = []; frames = [] } }
    {
        FrameLine {
            line: Vec::new(alloc),
            frames: Vec::new(alloc),
            waiting: VecDeque::new(alloc),
            batched: 0,
            claims: 0,
        }
    }

    // Its entries, in the order placed.
    pub(crate) fn entries(&self) -> &[Entry]
        ensures { result.now ≡ self.now.line }
    {
        &self.line
    }

    // How many entries it has.
    pub(crate) fn len(&self) -> usize
        ensures { result ≡ length self.now.line }
    {
        self.line.len()
    }

    // How many places are claimed and not put.
    pub(crate) fn claims(&self) -> usize
        ensures { result ≡ count is_claimed self.now.line }
    {
        self.claims
    }

    // How many are in the batch.
    pub(crate) fn batched(&self) -> usize
        ensures { result ≡ count in_batch self.now.line }
    {
        self.batched
    }

    // How many are in the ring.
    pub(crate) fn in_ring(&self) -> usize
        ensures { result ≡ count in_ring self.now.line }
    {
        self.waiting.len() - self.batched
    }

    // Whether nothing waits.
    pub(crate) fn is_empty(&self) -> bool
        ensures { result ≡ is_none (first_that is_kept self.now.line) }
    {
        self.waiting.is_empty()
    }

    // Where the batch's front is.
    pub(crate) fn batch_front(&self) -> Option<usize>
        ensures { result ≡ first_that in_batch self.now.line }
    {
        if self.batched == 0 {
            None
        } else {
            waits_at(&self.waiting, 0)
        }
    }

    // Where the ring's front is.
    pub(crate) fn ring_front(&self) -> Option<usize>
        ensures { result ≡ first_that in_ring self.now.line }
    {
        waits_at(&self.waiting, self.batched)
    }

    // Where the ring's last entry is.
    pub(crate) fn ring_back(&self) -> Option<usize>
        ensures { result ≡ last_that in_ring self.now.line }
    {
        if self.waiting.len() == self.batched {
            None
        } else {
            waits_at(&self.waiting, self.waiting.len() - 1)
        }
    }

    // Where the ring's front is, where that is ready.
    pub(crate) fn ready_front(&self) -> Option<usize>
        ensures front { result ≡ ready_front self.now.line }
        ensures parted { AreParted self.now.line }
    {
        let _claims = self.claims;
        match self.ring_front() {
            Some(index) if self.is_ready(index) => Some(index),
            Some(_) | None => None,
        }
    }

    // Whether an entry is ready.
    fn is_ready(&self, index: usize) -> bool
        ensures { result ≡ option_map_or (λ (e : Entry). is_ready e.stands) (slice_get self.now.line index) false }
    {
        match self.line.get(index) {
            Some(entry) => matches!(entry.stands, Standing::Ready),
            None => false,
        }
    }

    // The name of an entry.
    pub(crate) fn name_at(&self, index: usize) -> Name
        requires { IsSome (slice_get self.now.line index) }
        ensures { IfSome (slice_get self.now.line index) (λ e. result ≡ e.name) }
    {
        self.line[index].name
    }

    // An actor gets the next place for a frame.
    pub(crate) fn push(
        &mut self,
        actor: u16,
        name: Name,
        epoch: u16,
        len: u32,
    ) -> Result<(), AllocError>
        ensures line { OnOk result (self.new.line
            ≡ self.old.line ++ record { name = name; epoch = epoch; len = len; stands = Claimed actor } ∷ []) }
        ensures frames { OnOk result (self.new.frames ≡ self.old.frames ++ None ∷ []) }
        ensures err { OnErr result (self.new ≡ self.old) }
    {
        self.line.reserve(1)?;
        self.frames.reserve(1)?;
        self.waiting.reserve(1)?;
        self.waiting.push_back_reserved(self.line.len());
        self.line.push_reserved(Entry {
            name,
            epoch,
            len,
            stands: Standing::Claimed(actor),
        });
        self.frames.push_reserved(None);
        self.claims += 1;
        Ok(())
    }

    // A claimed place is put.
    pub(crate) fn ready(&mut self, index: usize)
        requires { option_map_or (λ (e : Entry). is_claimed e.stands) (slice_get self.old.line index) false ≡ true }
        ensures { self.new ≡ record self.old { line = restand index Ready self.old.line } }
    {
        restand(&mut self.line, index, Standing::Ready);
        self.claims -= 1;
    }

    // The ring's front becomes the batch's last.
    pub(crate) fn move_front(&mut self, index: usize)
        requires { ready_front self.old.line ≡ Some index }
        ensures { self.new ≡ record self.old { line = restand index Batched self.old.line } }
    {
        restand(&mut self.line, index, Standing::Batched);
        self.batched += 1;
    }

    // Where the batch is empty, up to 64 ready fronts of the ring move to it.
    pub(crate) fn fill_empty(&mut self)
        ensures filled { self.new ≡ record self.old { line = to_be_taken self.old.line } }
        ensures parted { AreParted self.old.line }
    {
        let _claims = self.claims;
        if self.batch_front().is_none() {
            self.fill();
        }
    }

    // Up to 64 ready fronts of the ring move to the batch.
    fn fill(&mut self)
        ensures { self.new ≡ record self.old { line = filled_up self.old.line } }
    {
        for _ in 0..MOST_BATCHED {
            match self.ready_front() {
                Some(index) => self.move_front(index),
                None => return,
            }
        }
    }

    // The batch's front leaves.
    pub(crate) fn leave(&mut self, index: usize, fate: Fate)
        requires { first_that in_batch self.old.line ≡ Some index }
        ensures { self.new ≡ record self.old { line = restand index (Out fate) self.old.line } }
    {
        restand(&mut self.line, index, Standing::Out(fate));
        self.waiting.pop_front();
        self.batched -= 1;
    }

    // The ring's last entry is cut, where it is ready.
    pub(crate) fn cut(&mut self, index: usize)
        requires last { last_that in_ring self.old.line ≡ Some index }
        requires put { count is_claimed self.old.line ≡ 0 }
        ensures { self.new ≡ record self.old { line = restand index Cut self.old.line } }
    {
        restand(&mut self.line, index, Standing::Cut);
        self.waiting.pop_back();
    }

    // A frame stands beside an entry.
    pub(crate) fn put_frame(&mut self, index: usize, frame: Frame)
        requires { index < length self.old.frames }
        ensures { self.new ≡ record self.old { frames = slice_set self.old.frames index (Some frame) } }
    {
        if let Some(other) = self.frames[index].replace(frame) {
            other.end();
        }
    }

    // The frame beside an entry goes from the line.
    pub(crate) fn take_frame(&mut self, index: usize) -> Frame
        requires { HasFrameAt index self.old.frames }
        ensures stood { slice_get self.old.frames index ≡ Some (Some result) }
        ensures gone { self.new ≡ record self.old { frames = slice_set self.old.frames index None } }
    {
        self.frames[index].take().unwrap()
    }

    // Ends each frame.
    pub(crate) fn abandon(self) {
        let FrameLine {
            line: _,
            mut frames,
            waiting: _,
            batched: _,
            claims: _,
        } = self;
        while let Some(slot) = frames.pop() {
            if let Some(frame) = slot {
                frame.end();
            }
        }
        frames.destroy_empty();
    }
}

// An entry stands elsewhere now.
fn restand(line: &mut Vec<Entry>, index: usize, stands: Standing)
    requires { index < length line.old.items }
    ensures { line.new.items ≡ restand index stands line.old.items }
{
    line[index].stands = stands;
}

// The place in the line of the one that waits at this place.
fn waits_at(waiting: &VecDeque<usize>, at: usize) -> Option<usize>
    ensures { result ≡ slice_get waiting.now.items at }
{
    waiting.get(at).copied()
}

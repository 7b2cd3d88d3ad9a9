//! The queue from which a worker takes frames.

ghost use Rattle.std.specs.Prelude.{◌≡◌, ◌≤◌, ◌↔◌, [], Some, None, true, IsTrue};
ghost use Rattle.tap_ground.specs.Counts.{Rose};
ghost use Rattle.tap_ledger.specs.Queue.{QueueState, Extends, with_handed, name_handed, IfNotReady, put_back, finished, IsFinal};

use crate::{Fate, Hand};
use tap_frame::{Frame, Name};

/// A queue of frames, of which one at a time is taken in hand.
///
/// To a contract it is a line of frames: those that are out with their fates, the name of the one in hand, and
/// the known ones that wait; whether it is off; how often it looked for a ready frame, and whether the last
/// look found none. No call turns it off or on, and the count of looks never falls.
pub trait FrameQueue {
    // What it is to a contract.
    ghost queue: { Self → QueueState };

    /// Takes the first frame that waits in hand, which must be empty. More frames may get known by it.
    ///
    /// It answers that the queue is off exactly where it is, and that none is ready only where no known frame
    /// waits and a look in this call found none. Which place it then names is each queue's own affair.
    fn hand(&mut self) -> Hand
        requires free { (queue self.old).in_hand ≡ None }

        ensures known { Extends (queue self.old).waiting (with_handed result (queue self.new).waiting) }
        ensures in_hand { (queue self.new).in_hand ≡ name_handed result }
        ensures off { (result ≡ Hand.Off) ↔ IsTrue (queue self.old).is_off }

        ensures none_waits { IfNotReady result (λ place. (queue self.new).waiting ≡ []) }
        ensures looked { IfNotReady result (λ place. Rose (queue self.old).looks (queue self.new).looks) }
        ensures found_none { IfNotReady result (λ place. (queue self.new).found_none ≡ true) }

        ensures out_stays { (queue self.new).out ≡ (queue self.old).out }
        ensures off_stays { (queue self.new).is_off ≡ (queue self.old).is_off }
        ensures never_falls { (queue self.old).looks ≤ (queue self.new).looks };

    /// Makes the frame in hand the front again. It takes no memory.
    fn put_back(&mut self, frame: Frame)
        requires in_hand { (queue self.old).in_hand ≡ Some frame.name }
        ensures put_back { queue self.new ≡ put_back frame (queue self.old) };

    /// Takes the frame in hand out of the line, with its fate: a guest received it, or it was discarded as
    /// too long for the guest's buffers. It takes no memory.
    fn finish(&mut self, frame: Frame, fate: Fate)
        requires in_hand { (queue self.old).in_hand ≡ Some frame.name }
        requires fate { IsFinal fate }
        ensures finished { queue self.new ≡ finished frame fate (queue self.old) };

    /// The name of the frame in hand.
    fn in_hand(&self) -> Option<Name>
        ensures { result ≡ (queue self.now).in_hand };
}

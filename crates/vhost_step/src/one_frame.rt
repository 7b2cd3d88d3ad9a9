//! A queue of one frame.

ghost use Rattle.std.specs.Prelude.{◌≡◌};
ghost use Rattle.vhost_step.specs.Queues.{one_queue, holding, went_in};

use crate::Went;
use std::mem::replace;
use tap_frame::{Frame, Name};
use tap_ledger::{Fate, FrameQueue, Hand, OutFrame};

/// A queue whose line is one frame at most.
pub(crate) enum OneFrame {
    /// There is none: the one at this place isn't ready.
    NotReady { place: u64 },
    /// It waits.
    Waits(Frame),
    /// A worker has it in hand; it is called so.
    InHand(Name),
    /// It is out, and perhaps a look since then found none.
    Out { out: OutFrame, looked: bool },
}

impl OneFrame {
    /// The queue of a worker that has the frame of this name in hand, or none.
    pub fn holding(name: Option<Name>) -> OneFrame
        ensures { result ≡ holding name }
    {
        match name {
            Some(name) => OneFrame::InHand(name),
            None => OneFrame::NotReady { place: 0 },
        }
    }

    /// Where its frame went, if it had one: it comes back where it waits.
    pub fn went(self) -> Went
        ensures { result ≡ went_in (one_queue self) }
    {
        match self {
            OneFrame::NotReady { place: _ } | OneFrame::InHand(_) => Went::Nowhere,
            OneFrame::Waits(frame) => Went::Back(frame),
            OneFrame::Out { out, looked: _ } => Went::Out(out.fate),
        }
    }

    /// Ends its frame, if that waits.
    pub fn abandon(self) {
        match self {
            OneFrame::Waits(frame) => {
                let _ = frame.end();
            }
            OneFrame::NotReady { place: _ }
            | OneFrame::InHand(_)
            | OneFrame::Out { out: _, looked: _ } => {}
        }
    }

    // It is another one now.
    fn turn_into(&mut self, next: OneFrame)
        ensures { self.new ≡ next }
    {
        replace(self, next).abandon();
    }
}

impl FrameQueue for OneFrame {
    ghost queue = { one_queue };

    fn hand(&mut self) -> Hand {
        match replace(self, OneFrame::NotReady { place: 0 }) {
            OneFrame::Waits(frame) => {
                self.turn_into(OneFrame::InHand(frame.name()));
                Hand::Got(frame)
            }
            OneFrame::Out { out, looked: _ } => {
                self.turn_into(OneFrame::Out { out, looked: true });
                Hand::NotReady { place: 0 }
            }
            OneFrame::NotReady { place } => {
                self.turn_into(OneFrame::NotReady { place });
                Hand::NotReady { place }
            }
            OneFrame::InHand(_) => Hand::NotReady { place: 0 },
        }
    }

    fn put_back(&mut self, frame: Frame) {
        self.turn_into(OneFrame::Waits(frame));
    }

    fn finish(&mut self, frame: Frame, fate: Fate) {
        let len = frame.bytes().len() as u32;
        let name = frame.end();
        self.turn_into(OneFrame::Out {
            out: OutFrame { name, len, fate },
            looked: false,
        });
    }

    fn in_hand(&self) -> Option<Name> {
        match self {
            OneFrame::InHand(name) => Some(*name),
            OneFrame::NotReady { place: _ }
            | OneFrame::Waits(_)
            | OneFrame::Out { out: _, looked: _ } => None,
        }
    }
}

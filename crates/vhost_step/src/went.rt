//! Where the frame in hand goes.

use tap_frame::Frame;
use tap_ledger::Fate;

/// Where the frame in hand goes in a step.
pub enum Went {
    /// Nowhere: it stays in hand, or none is.
    Nowhere,
    /// Back, to be the front of its file again.
    Back(Frame),
    /// Out, with this fate: it is spent.
    Out(Fate),
}

impl Went {
    /// Ends the frame, if one comes back.
    pub fn abandon(self) {
        match self {
            Went::Back(frame) => {
                let _ = frame.end();
            }
            Went::Nowhere | Went::Out(_) => {}
        }
    }
}

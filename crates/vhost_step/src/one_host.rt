//! A host with room for one frame.

ghost use Rattle.std.specs.Prelude.{◌≡◌, None};
ghost use Rattle.vhost_step.specs.Queues.{one_host};

use tap_frame::Frame;
use tap_ledger::HostIn;

/// A host that takes one frame and keeps it for its caller.
pub(crate) struct OneHost {
    given: Option<Frame>,
}

impl OneHost {
    /// It was given none yet.
    pub fn new() -> OneHost
        ensures { result.given ≡ None }
    {
        OneHost { given: None }
    }

    /// Gives up the frame that it was given, if it was given one.
    pub fn given(self) -> Option<Frame>
        ensures { result ≡ self.given }
    {
        let OneHost { given } = self;
        given
    }
}

impl HostIn for OneHost {
    ghost host = { λ h. one_host h.given };

    fn room(&self) -> u32 {
        match &self.given {
            Some(_) => 0,
            None => 1,
        }
    }

    fn give(&mut self, frame: Frame) {
        if let Some(other) = self.given.replace(frame) {
            let _ = other.end();
        }
    }
}

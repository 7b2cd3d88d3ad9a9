//! A host in memory.

ghost use Rattle.std.specs.Prelude.{◌≡◌, [], ◌<◌, IfOk};
ghost use Rattle.tap_ledger.specs.Host.{HostState, with_given};

use crate::HostIn;
use std::alloc::{AllocError, Global};
use std::marker::Model;
use tap_frame::Frame;

/// A host that keeps the frames that it is given.
///
/// To a contract it is what every host is.
pub struct MemHost {
    room: u32,
    given: Vec<Frame>,
}

impl Model for MemHost {
    ghost use Rattle.std.specs.Prelude.{◌+◌, ◌≤◌, vec_len, vec_capacity};
    ghost use Rattle.tap_ledger.specs.Host.{HostState};

    ghost Value = { HostState };

    ghost view = { λ h. record { given = h.given.items; room = h.room } };

    ghost invariant = { λ h. vec_len h.given + h.room ≤ vec_capacity h.given };
}

impl MemHost {
    /// A host without frames that takes so many.
    pub fn new(alloc: Global, room: u32) -> Result<MemHost, AllocError>
        ensures { IfOk result (λ h. h ≡ record { given = []; room = room }) }
    {
        let given = Vec::with_capacity(alloc, room as usize)?;
        Ok(MemHost { room, given })
    }

    /// The frames that it was given, in their order.
    pub fn given(&self) -> &[Frame]
        ensures { result.now ≡ self.now.given }
    {
        &self.given
    }

    /// Ends each frame that it was given. It takes no memory.
    pub fn abandon(self) {
        let MemHost { room: _, mut given } = self;
        while let Some(frame) = given.pop() {
            let _ = frame.end();
        }
        given.destroy_empty();
    }
}

impl HostIn for MemHost {
    ghost host = { λ h. h };

    fn room(&self) -> u32 {
        self.room
    }

    fn give(&mut self, frame: Frame) {
        self.room -= 1;
        self.given.push_reserved(frame);
    }
}

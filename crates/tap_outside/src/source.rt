//! What gives bytes.

ghost use Rattle.std.specs.Prelude.{◌≡◌, ℕ, ◌<◌, ◌≤◌, List, length, take, Option, IfOk, OnOk, OnErr, IsOkAnd};
ghost use Rattle.std.specs.Io.KnownBytes.{Consumes, IsAtEnd, Keeps};
ghost use Rattle.tap_ground.specs.Counts.{one_more};

use thiserror::Error;

/// A source or a sink failed.
#[derive(Clone, Copy, Debug, PartialEq, Eq, Error)]
#[error("the source or the sink failed")]
pub struct Failed;

/// What gives bytes, in pieces of its own choice, up to its end.
pub trait Source {
    // The bytes left, where the source tells them.
    ghost left: { Self → Option (List ℕ) };

    // How often it has failed. The count stands still at 2^64 - 1.
    ghost faults: { Self → ℕ };

    // No call fails before one has told the end.
    ghost ends_well: { Self → Type 0 } = { λ _. ⊥ };

    /// Puts bytes at the front of `room` and answers how many: 0 is the end, and comes only there.
    ///
    /// # Errors
    ///
    /// `Failed` where the source failed in this call. The bytes left are then as before, and what
    /// `room` has is left open.
    fn read(&mut self, room: &mut [u8]) -> Result<usize, Failed>
        requires { 0 < length room.old }

        ensures fits { IfOk result (λ n. n ≤ length room.old) }
        ensures taken { IfOk result (λ n. Consumes (left self.old) (left self.new) (take n room.new)) }
        ensures end { IfOk result (λ n. n ≡ 0 → IsAtEnd (left self.new)) }
        ensures unchanged { OnErr result (Keeps (left self.old) (left self.new)) }

        ensures no_fault { OnOk result (faults self.new ≡ faults self.old) }
        ensures fault { OnErr result (faults self.new ≡ one_more (faults self.old)) }
        ensures well { ends_well self.old → IsOkAnd result (λ n. 0 < n → ends_well self.new) };
}

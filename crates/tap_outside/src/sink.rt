//! What takes bytes.

ghost use Rattle.std.specs.Prelude.{◌≡◌, ℕ, ◌<◌, ◌≤◌, List, length, take, Option, IfOk, OnOk, OnErr, IsErrOf};
ghost use Rattle.std.specs.Io.KnownBytes.{Appends, Keeps};
ghost use Rattle.tap_outside.specs.declared.sink.SinkErr.TheVariants.{NoMemory};
ghost use Rattle.tap_ground.specs.Counts.{one_more};

use std::alloc::AllocError;
use thiserror::Error;

/// Why a sink took nothing.
#[derive(Clone, Copy, Debug, PartialEq, Eq, Error)]
pub enum SinkErr {
    /// The sink failed.
    #[error("the sink failed")]
    Failed,
    /// Memory ran out.
    #[error("out of memory")]
    NoMemory,
}

impl From<AllocError> for SinkErr {
    ghost from_gives = { λ _ e. e ≡ NoMemory };

    fn from(_error: AllocError) -> SinkErr {
        SinkErr::NoMemory
    }
}

/// What takes bytes, in pieces of its own choice.
pub trait Sink {
    // The bytes written, where the sink tells them.
    ghost written: { Self → Option (List ℕ) };

    // How often it has failed. The count stands still at 2^64 - 1.
    ghost faults: { Self → ℕ };

    // No call fails any more.
    ghost is_reliable: { Self → Type 0 } = { λ _. ⊥ };

    /// Takes bytes from the front of `piece`, at least one, and answers how many.
    ///
    /// # Errors
    ///
    /// `Failed` where the sink failed in this call, and `NoMemory`. The bytes written are then as
    /// before.
    fn write(&mut self, piece: &[u8]) -> Result<usize, SinkErr>
        requires { 0 < length piece.now }

        ensures some { IfOk result (λ n. (1 ≤ n) × (n ≤ length piece.now)) }
        ensures appended { IfOk result (λ n. Appends (written self.old) (written self.new) (take n piece.now)) }
        ensures unchanged { OnErr result (Keeps (written self.old) (written self.new)) }

        ensures no_fault { OnOk result (faults self.new ≡ faults self.old) }
        ensures fault { IsErrOf result SinkErr.Failed → faults self.new ≡ one_more (faults self.old) }
        ensures no_memory { IsErrOf result SinkErr.NoMemory → faults self.new ≡ faults self.old }
        ensures reliable { is_reliable self.old → is_reliable self.new × (IsErrOf result SinkErr.Failed → ⊥) };
}

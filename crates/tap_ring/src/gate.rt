//! The four parts of a gate word, and what its steps add to it.

ghost use Rattle.std.specs.Prelude.{◌≡◌};
ghost use Rattle.tap_ring.specs.GateWord as parts;

/// One more than the greatest claim count, which is 2^40 - 1.
pub const CLAIMS_END: u64 = 1 << 40;

/// One more than the greatest epoch, which is 65,535.
pub const EPOCHS_END: u32 = 1 << 16;

/// One more than the greatest number of resizes, which is 127.
pub const RESIZES_END: u8 = 128;

/// What shuts an open gate, and opens a shut one at the next epoch.
pub(crate) const TURN: u64 = 1 << 40;

/// What is one more resize.
pub(crate) const RESIZE: u64 = 1 << 57;

/// The claim count: bits 0 to 39.
pub(crate) fn claimed_of(word: u64) -> u64
    ensures { result ≡ parts.claimed_of word }
{
    word % CLAIMS_END
}

/// Whether the gate is shut: bit 40.
pub(crate) fn is_shut(word: u64) -> bool
    ensures { result ≡ parts.is_shut word }
{
    word / TURN % 2 == 1
}

/// The epoch: bits 41 to 56.
pub(crate) fn epoch_of(word: u64) -> u16
    ensures { result ≡ parts.epoch_of word }
{
    (word / (2 * TURN) % (1 << 16)) as u16
}

/// The number of resizes: bits 57 to 63.
pub(crate) fn resizes_of(word: u64) -> u8
    ensures { result ≡ parts.resizes_of word }
{
    (word / RESIZE) as u8
}

/// The parts of a word are what it was made of.
pub fn gate_laws()
    ensures { parts.GateLaws }
{}

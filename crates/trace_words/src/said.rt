//! What one line of a trace says by itself.

use tap_trace::{AnswerLine, ChainText, OpLine, PlaceLine, StepLine};

/// What one line of a trace says by itself.
#[derive(Debug, Drop)]
pub enum Said {
    /// `taptrace 1`: the trace begins.
    Begins,
    /// `phase P ACTORS`: a phase begins.
    Phase { number: u64, actors: u16 },
    /// `op VERSION COMMAND ..`: an operation was published.
    Op(OpLine),
    /// `ans ACTOR COMMAND SEEN ..`: a command was answered. The lines behind the answer aren't in it: a turn has no
    /// chains here, and a resized ring is a version.
    Answer(AnswerLine),
    /// `resize CLAIMED FREED CUT`, behind an answer: the new places of a resized ring, and how many frames were cut.
    Resize { claimed: u64, freed: u64, cut: u64 },
    /// `got ..` or `refused ..`, behind an answer: what became of a chain of a transmit turn.
    Chain(ChainText),
    /// `file F CLAIMED FREED`: the line of a file begins.
    File { file: u16, claimed: u64, freed: u64 },
    /// `line PLACE ..`: a frame in the line of the file.
    Place(PlaceLine),
    /// `guest G`: the steps on a guest begin.
    Guest { guest: u16 },
    /// `step ACTOR COMMAND ..`: a step on the guest.
    Step(StepLine),
    /// `ring V R`: the lists of a ring begin.
    Ring { vhost: u16, ring: u16 },
    /// `base N`: a list of positions begins.
    Base { base: u16 },
    /// `used POSITION HEAD LEN`: a chain was published.
    Used { position: u16, head: u16, len: u32 },
    /// `end`: the trace ends.
    End,
}

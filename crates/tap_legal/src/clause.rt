//! The clauses of a legal trace.

/// A clause, by its letter.
#[derive(Clone, Copy, Debug, PartialEq, Eq)]
pub enum Clause {
    /// The operations on the queue table, and the refusals by it.
    A,
    /// The answers: one for each command, by what its actor had seen.
    B,
    /// The lines of the files.
    C,
    /// Frames that found their ring full, or its places spent.
    D,
    /// Frames that found their attachment gone.
    E,
    /// Reads and turns that found no frame ready.
    F,
    /// The steps on the guests, and what they answer.
    G,
    /// The fate of each frame.
    H,
}

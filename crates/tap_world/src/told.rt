//! What a world has told so far: operations of the queue table, and answers.

use tap_steer::Op;
use tap_trace::AnswerLine;

/// An operation of the queue table that was published. The operations of a world stand in the order of the versions
/// that they made: the first made version 1.
#[derive(Clone, Copy, Debug, PartialEq, Eq)]
pub struct Published {
    /// The number of the phase, from 0.
    pub phase: u32,
    pub actor: u16,
    /// The number of the command that published it.
    pub command: u32,
    pub op: Op,
}

/// An answer that was given. The answers of a world stand in the order in which they were given.
#[derive(Debug, Drop)]
pub struct Said {
    /// The number of the phase, from 0.
    pub phase: u32,
    pub line: AnswerLine,
}

//! The limit of a trace's text.

/// A text has at most so many bytes.
pub const MAX_BYTES: usize = 536_870_912;

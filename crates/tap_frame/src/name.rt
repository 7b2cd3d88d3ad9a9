//! The name of a frame.

/// Which frame it is.
#[derive(Clone, Copy, Debug, PartialEq, Eq)]
pub struct Name {
    /// Who made it.
    pub actor: u16,
    /// The number of the command that made it.
    pub turn: u32,
    /// Which frame of that command it is, where the command is a transmit turn; else 0.
    pub part: u16,
}

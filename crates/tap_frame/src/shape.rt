//! What stands in front of a frame.

ghost use Rattle.std.specs.Prelude.{◌≤◌};
ghost use Rattle.std.specs.Option.{ForSome};

/// What stands in front of each frame that passes a file.
#[derive(Clone, Copy, Debug, PartialEq, Eq)]
pub struct Shape {
    /// Whether four bytes of packet information stand in front.
    pub pi: bool,
    /// The size of the header in bytes, from 10 to 128, where there is one.
    pub hdr: Option<u16>,
    ghost sizes: { ForSome hdr (λ size. (10 ≤ size) × (size ≤ 128)) },
}

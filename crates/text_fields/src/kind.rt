//! What a field of a line may be.

/// A field's shape.
#[derive(Clone, Copy, Debug)]
pub enum Shape {
    /// A decimal number from `least` to `most`, without sign or leading zero.
    Number { least: u64, most: u64 },
    /// The name of a device: 1 to 15 letters, digits, `_`, `-` or `.`, and not `-` alone.
    Name,
    /// So many hexadecimal digits as a number, the most significant first.
    HexNumber(Digits),
    /// So many hexadecimal digits as bytes.
    HexBytes(usize),
    /// Any even number of hexadecimal digits as bytes, at least two digits.
    Hex,
}

/// How many hexadecimal digits a number has.
#[derive(Clone, Copy, Debug)]
pub enum Digits {
    Four,
    Eight,
    Sixteen,
}

/// What a field may be.
#[derive(Clone, Copy, Debug)]
pub enum Kind {
    /// A field of this shape.
    Plain(Shape),
    /// `-`, or a field of this shape.
    OrDash(Shape),
}

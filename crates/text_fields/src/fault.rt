//! How the fields of a line are refused.

use thiserror::Error;

/// How the fields of a line are refused: the first of these over the whole line.
#[derive(Clone, Copy, Debug, PartialEq, Eq, Error)]
pub enum FieldFault {
    /// A field is empty, or there are too few or too many.
    #[error("too few or too many fields, or an empty one")]
    Fields,
    /// A number or a name isn't of its form or range.
    #[error("a number or a name out of form or range")]
    Number,
    /// Hexadecimal digits aren't such, or aren't as many as are wanted.
    #[error("bad hexadecimal digits")]
    Hex,
}

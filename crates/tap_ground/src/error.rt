//! An error, or want of memory.

ghost use Rattle.std.specs.Prelude.{◌≡◌};
ghost use Rattle.tap_ground.specs.declared.error.OrMemory.TheVariants.{NoMemory};

use std::alloc::{AllocError, AllocFailed};
use std::error::Error;
use std::fmt;

/// An error of a call's own, or want of memory.
#[derive(Clone, Copy, Debug, PartialEq, Eq)]
pub enum OrMemory<E> {
    /// The error.
    Fault(E),
    /// No memory was left.
    NoMemory,
}

impl<E> From<AllocError> for OrMemory<E> {
    ghost from_gives = { λ _ e. e ≡ NoMemory };

    fn from(_e: AllocError) -> OrMemory<E> {
        OrMemory::NoMemory
    }
}

impl<E, T: Drop> From<AllocFailed<T>> for OrMemory<E> {
    ghost from_gives = { λ _ e. e ≡ NoMemory };

    fn from(_e: AllocFailed<T>) -> OrMemory<E> {
        OrMemory::NoMemory
    }
}

/// What the error writes, or `out of memory`.
impl<E: fmt::Display> fmt::Display for OrMemory<E> {
    fn fmt<W: fmt::Write>(&self, f: &mut fmt::Formatter<W>) -> fmt::Result {
        match self {
            OrMemory::Fault(error) => write!(f, "{error}"),
            OrMemory::NoMemory => write!(f, "out of memory"),
        }
    }
}

impl<E: fmt::Debug + fmt::Display + Drop> Error for OrMemory<E> {}

//! What stands in single fields of a trace.

ghost use Rattle.std.specs.Prelude.{◌≡◌};

use std::fmt;
use tap_frame::Name;
use text_fields::{Digits, HexDigits, LowerHex};

/// The name of a frame: ACTOR.TURN.PART.
#[derive(Clone, Copy)]
pub struct FrameName(pub Name);

impl fmt::Display for FrameName {
    ghost use Rattle.std.specs.Prelude.{Some};
    ghost use Rattle.scen_words.specs.Field.{frame_name};

    ghost output = { λ n. Some (frame_name n.0) };

    fn fmt<W: fmt::Write>(&self, f: &mut fmt::Formatter<W>) -> fmt::Result {
        write!(f, "{}.{}.{}", self.0.actor, self.0.turn, self.0.part)
    }
}

/// The name of a frame, or `-`.
#[derive(Clone, Copy)]
pub struct NameOrDash(pub Option<Name>);

impl fmt::Display for NameOrDash {
    ghost use Rattle.std.specs.Prelude.{Some};
    ghost use Rattle.trace_causes.specs.Values.{name_or_dash};

    ghost output = { λ n. Some (name_or_dash n.0) };

    fn fmt<W: fmt::Write>(&self, f: &mut fmt::Formatter<W>) -> fmt::Result {
        match self.0 {
            Some(name) => write!(f, "{}", FrameName(name)),
            None => f.write_str("-"),
        }
    }
}

/// A number, or `-`.
#[derive(Clone, Copy)]
pub struct NumberOrDash(pub Option<u16>);

impl fmt::Display for NumberOrDash {
    ghost use Rattle.std.specs.Prelude.{Some};
    ghost use Rattle.trace_causes.specs.Values.{number_or_dash};

    ghost output = { λ n. Some (number_or_dash n.0) };

    fn fmt<W: fmt::Write>(&self, f: &mut fmt::Formatter<W>) -> fmt::Result {
        match self.0 {
            Some(n) => write!(f, "{n}"),
            None => f.write_str("-"),
        }
    }
}

/// Flags in four digits.
pub fn four_digits(flags: u16) -> HexDigits
    ensures number { result.number ≡ flags }
    ensures digits { result.digits ≡ Digits.Four }
{
    HexDigits::new(flags as u64, Digits::Four)
}

/// A hash in eight digits, the most significant first.
#[derive(Clone, Copy)]
pub struct Hash(pub u32);

impl fmt::Display for Hash {
    ghost use Rattle.std.specs.Prelude.{Some};
    ghost use Rattle.trace_causes.specs.Values.{hex8};

    ghost output = { λ h. Some (hex8 h.0) };

    fn fmt<W: fmt::Write>(&self, f: &mut fmt::Formatter<W>) -> fmt::Result {
        write!(f, "{}", LowerHex::new(&self.0.to_be_bytes()))
    }
}

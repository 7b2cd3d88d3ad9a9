//! How values are written.

ghost use Rattle.std.specs.Prelude.{◌≡◌, ◌++◌, ◌≤◌, length, OnOk, string_bytes};
ghost use Rattle.hex.specs.Hex.{encode_lower};
ghost use Rattle.text_fields.specs.Fields.{field_of, width_of};
ghost use Rattle.text_fields.specs.Forms.{fields_for};
ghost use Rattle.text_fields.specs.Hexadecimal.{hex_digits};
ghost use Rattle.text_fields.specs.Lines.{spaced};

use crate::form::Form;
use crate::kind::{Digits, Kind, Shape};
use crate::value::Value;
use std::alloc::AllocError;
use std::fmt;
use std::fmt::Write;

/// So many bytes are written at a time.
const PIECE: usize = 32;

const ROOM: usize = 64;

/// Bytes that are written as hexadecimal digits.
#[derive(Drop)]
pub struct LowerHex<'a> {
    bytes: &'a [u8],
}

impl<'a> LowerHex<'a> {
    pub fn new(bytes: &'a [u8]) -> LowerHex<'a>
        ensures { result.bytes.now ≡ bytes.now }
    {
        LowerHex { bytes }
    }
}

// The digits of a few bytes, in this room.
fn digits_in<'a>(bytes: &[u8], room: &'a mut [u8; ROOM]) -> &'a str
    requires { length bytes.now ≤ 32 }
    ensures { result.now ≡ encode_lower bytes.now }
{
    let digits = &mut room[..2 * bytes.len()];
    let _ = hex::encode_to_slice(bytes, digits);
    match std::str::from_utf8(digits) {
        Ok(digits) => digits,
        Err(_) => unreachable!(),
    }
}

impl fmt::Display for LowerHex<'_> {
    ghost use Rattle.std.specs.Prelude.{Some};

    ghost output = { λ h. Some (encode_lower h.bytes.now) };

    fn fmt<W: fmt::Write>(&self, f: &mut fmt::Formatter<W>) -> fmt::Result {
        let bytes = self.bytes;
        let mut room = [0; ROOM];
        let mut at = 0;
        while PIECE < bytes.len() - at {
            f.write_str(digits_in(&bytes[at..at + PIECE], &mut room))?;
            at += PIECE;
        }
        f.write_str(digits_in(&bytes[at..], &mut room))
    }
}

/// A number that is written as so many hexadecimal digits, the most significant first.
#[derive(Clone, Copy)]
pub struct HexDigits {
    number: u64,
    digits: Digits,
}

impl HexDigits {
    pub fn new(number: u64, digits: Digits) -> HexDigits
        ensures number { result.number ≡ number }
        ensures digits { result.digits ≡ digits }
    {
        HexDigits { number, digits }
    }
}

impl fmt::Display for HexDigits {
    ghost use Rattle.std.specs.Prelude.{Some};

    ghost output = { λ h. Some (hex_digits (width_of h.digits) h.number) };

    fn fmt<W: fmt::Write>(&self, f: &mut fmt::Formatter<W>) -> fmt::Result {
        let bytes = self.number.to_be_bytes();
        let shown = match self.digits {
            Digits::Four => &bytes[6..],
            Digits::Eight => &bytes[4..],
            Digits::Sixteen => &bytes[..],
        };
        write!(f, "{}", LowerHex::new(shown))
    }
}

/// A value that is written by its kind.
#[derive(Drop)]
pub struct Written<'a> {
    kind: Kind,
    value: &'a Value,
}

impl Value {
    /// The value as the field of a line.
    pub fn written(&self, kind: Kind) -> Written<'_>
        ensures kind { result.kind ≡ kind }
        ensures value { result.value.now ≡ self.now }
    {
        Written { kind, value: self }
    }
}

impl fmt::Display for Written<'_> {
    ghost use Rattle.std.specs.Prelude.{Some};

    ghost output = { λ w. Some (field_of w.kind w.value.now) };

    fn fmt<W: fmt::Write>(&self, f: &mut fmt::Formatter<W>) -> fmt::Result {
        match self.value {
            Value::None => f.write_str("-"),
            Value::Number(number) => match self.kind {
                Kind::Plain(Shape::HexNumber(digits)) | Kind::OrDash(Shape::HexNumber(digits)) => {
                    write!(f, "{}", HexDigits::new(*number, digits))
                }
                _ => write!(f, "{number}"),
            },
            Value::Name(name) => write!(f, "{name}"),
            Value::Bytes(bytes) => write!(f, "{}", LowerHex::new(bytes.as_slice())),
        }
    }
}

impl Form {
    /// Writes the fields that say these values, each behind a space.
    pub fn write(&self, out: &mut String, values: &[Value]) -> Result<(), AllocError>
        ensures { OnOk result (string_bytes out.new ≡ string_bytes out.old ++ spaced (fields_for self.now values.now)) }
    {
        for (at, value) in values.iter().enumerate() {
            if let Some(kind) = self.kind_at(at) {
                write!(out, " {}", value.written(kind))?;
            }
        }
        Ok(())
    }
}

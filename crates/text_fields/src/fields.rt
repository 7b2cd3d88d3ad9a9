//! A field read by its kind.

ghost use Rattle.std.specs.Prelude.{◌≡◌, IfOk, MatchResult};
ghost use Rattle.tap_ground.specs.Errors.{Gives};
ghost use Rattle.text_fields.specs.Answers.{TellsNumber};
ghost use Rattle.text_fields.specs.Fields.{dash, fault_in, field_value, or_fault, shape_of, value_in, value_of};

use crate::device_name::DeviceName;
use crate::fault::FieldFault;
use crate::hexadecimal::{bytes_of, hex_number_of, so_many_of};
use crate::kind::{Kind, Shape};
use crate::numbers::{in_range, number_of};
use crate::value::Value;
use std::alloc::{AllocError, Global};
use tap_ground::OrMemory;

// The value that a field of this shape says.
fn value_in(alloc: Global, shape: Shape, field: &[u8]) -> Result<Option<Value>, AllocError>
    ensures { IfOk result (λ o. o ≡ value_in shape field.now) }
{
    match shape {
        Shape::Number { least, most } => {
            Ok(in_range(least, most, number_of(field)).map(Value::Number))
        }
        Shape::Name => Ok(DeviceName::of(field).map(Value::Name)),
        Shape::HexNumber(digits) => Ok(hex_number_of(digits, field).map(Value::Number)),
        Shape::HexBytes(digits) => Ok(so_many_of(alloc, digits, field)?.map(Value::Bytes)),
        Shape::Hex => Ok(bytes_of(alloc, field)?.map(Value::Bytes)),
    }
}

// The value that a field of this kind says.
fn value_of(alloc: Global, kind: Kind, field: &[u8]) -> Result<Option<Value>, AllocError>
    ensures { IfOk result (λ o. o ≡ value_of kind field.now) }
{
    match kind {
        Kind::Plain(shape) => value_in(alloc, shape, field),
        Kind::OrDash(shape) => {
            if field == b"-".as_slice() {
                Ok(Some(Value::None))
            } else {
                value_in(alloc, shape, field)
            }
        }
    }
}

// How a field of this kind is refused.
fn fault_of(kind: Kind) -> FieldFault
    ensures { result ≡ fault_in (shape_of kind) }
{
    let (Kind::Plain(shape) | Kind::OrDash(shape)) = kind;
    match shape {
        Shape::Number { least: _, most: _ } | Shape::Name => FieldFault::Number,
        Shape::HexNumber(_) | Shape::HexBytes(_) | Shape::Hex => FieldFault::Hex,
    }
}

/// The value that a field says, or how it is refused.
pub fn read_field(alloc: Global, kind: Kind, field: &[u8]) -> Result<Value, OrMemory<FieldFault>>
    ensures { Gives result (field_value kind field.now) }
{
    match value_of(alloc, kind, field)? {
        Some(value) => Ok(value),
        None => Err(OrMemory::Fault(fault_of(kind))),
    }
}

/// The same, where a fault of digits is told last: nothing in place of it.
pub fn read_or_bad_digits(
    alloc: Global,
    kind: Kind,
    field: &[u8],
) -> Result<Option<Value>, OrMemory<FieldFault>>
    ensures { MatchResult result (λ value. field_value kind field.now ≡ or_fault FieldFault.Hex value)
        (λ error. TellsNumber error (field_value kind field.now)) }
{
    match value_of(alloc, kind, field)? {
        Some(value) => Ok(Some(value)),
        None => match fault_of(kind) {
            FieldFault::Hex => Ok(None),
            why => Err(OrMemory::Fault(why)),
        },
    }
}

//! Bytes and numbers as hexadecimal digits.

ghost use Rattle.std.specs.Prelude.{◌≡◌, ◌*◌, ◌^◌, ◌<◌, length, true, false, Some, IfOk, MatchOption};
ghost use Rattle.std.specs.List.{list_all};
ghost use Rattle.text_fields.specs.Fields.{width_of};
ghost use Rattle.text_fields.specs.Hexadecimal.{bytes_of, hex_number_of, is_lower_digit, so_many_of};

use crate::kind::Digits;
use crate::shared::SharedBytes;
use hex::FromHexError;
use std::alloc::{AllocError, Global};

fn is_lower_digits(field: &[u8]) -> bool
    ensures { result ≡ list_all is_lower_digit field.now }
{
    field
        .iter()
        .all(|b| b.is_ascii_digit() || (b'a' <= *b && *b <= b'f'))
}

/// The bytes of an even number of lower-case digits, at least two.
#[tactic(auto, unfolding(crate::specs::Hexadecimal::bytes_of))]
pub fn bytes_of(alloc: Global, field: &[u8]) -> Result<Option<SharedBytes>, AllocError>
    ensures { IfOk result (λ o. o ≡ bytes_of field.now) }
{
    if !is_lower_digits(field) || field.is_empty() {
        return Ok(None);
    }
    match hex::decode(alloc, field) {
        Ok(bytes) => Ok(Some(SharedBytes::new(alloc, bytes)?)),
        Err(FromHexError::OutOfMemory) => Err(AllocError),
        Err(_) => Ok(None),
    }
}

/// The same of so many digits.
pub fn so_many_of(
    alloc: Global,
    digits: usize,
    field: &[u8],
) -> Result<Option<SharedBytes>, AllocError>
    ensures { IfOk result (λ o. o ≡ so_many_of digits field.now) }
{
    if field.len() == digits {
        bytes_of(alloc, field)
    } else {
        Ok(None)
    }
}

// Whether the digits are bytes that fill the room, which they then do.
fn fill(field: &[u8], room: &mut [u8]) -> bool
    requires { length room.old < 2 ^ 8 }
    ensures { MatchOption (so_many_of (2 * length room.old) field.now) (result ≡ false)
        (λ bytes. (result ≡ true) × (room.new ≡ bytes)) }
{
    if field.len() != 2 * room.len() || !is_lower_digits(field) || field.is_empty() {
        return false;
    }
    hex::decode_to_slice(field, room).is_ok()
}

/// A number of so many digits, the most significant first.
pub fn hex_number_of(digits: Digits, field: &[u8]) -> Option<u64>
    ensures { result ≡ hex_number_of (width_of digits) field.now }
{
    match digits {
        Digits::Four => {
            let mut bytes = [0; 2];
            if fill(field, &mut bytes) {
                Some(u16::from_be_bytes(bytes) as u64)
            } else {
                None
            }
        }
        Digits::Eight => {
            let mut bytes = [0; 4];
            if fill(field, &mut bytes) {
                Some(u32::from_be_bytes(bytes) as u64)
            } else {
                None
            }
        }
        Digits::Sixteen => {
            let mut bytes = [0; 8];
            if fill(field, &mut bytes) {
                Some(u64::from_be_bytes(bytes))
            } else {
                None
            }
        }
    }
}

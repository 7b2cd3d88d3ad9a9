//! The fields of a line, one after another. Each of these takes a field from the front, and gives what it says and
//! the fields behind it, or nothing where it doesn't say such a thing.

ghost use Rattle.std.specs.Prelude.{◌≡◌, ◌==◌, ◌≤◌, ◌<◌, length, position, [], ◌∷◌, None, Some, IfOk, IfSome, MatchOption};
ghost use Rattle.std.specs.Int.{w16, w32};
ghost use Rattle.text_fields.specs.Hexadecimal.{bytes_of, hex_number_of};
ghost use Rattle.text_fields.specs.Names as names;
ghost use Rattle.trace_causes.specs.Reading.{bytes_or_none, cut, digits4, digits8, ended, first_by, harvested_of, name_first, name_of, name_or_dash_of, number16, number32, number64, number8, number_or_dash_of, number_to};

use scen_words::MAX_FILE;
use sqlite_items::Items;
use std::alloc::{AllocError, Global};
use tap_trace::Name;
use text_fields::{
    DeviceName, Digits, Fields, Kind, OrMemory, Shape, Value, number_of, read_field, value_laws,
};

/// The first field, and those behind it.
pub fn first(mut fields: Fields<'_>) -> Option<(&[u8], Fields<'_>)>
    ensures { MatchOption result (fields.entry ≡ []) (λ found. fields.entry ≡ found.0.now ∷ found.1) }
{
    let field = fields.next()?;
    Some((field, fields))
}

/// Nothing, where no field is left.
pub fn ended(fields: Fields<'_>) -> Option<()>
    ensures { result ≡ ended fields.entry }
{
    match first(fields) {
        Some(_) => None,
        None => Some(()),
    }
}

/// A decimal number of at most so much.
#[tactic(auto, unfolding(crate::specs::Reading::number_to))]
pub fn number_to(most: u64, field: &[u8]) -> Option<u64>
    ensures value { result ≡ number_to most field.now }
    ensures bound { IfSome result (λ n. n ≤ most) }
{
    match number_of(field) {
        Some(number) if number <= most => Some(number),
        _ => None,
    }
}

/// A number of 8 bits.
pub fn number8(fields: Fields<'_>) -> Option<(u8, Fields<'_>)>
    ensures { result ≡ number8 fields.entry }
{
    let (field, fields) = first(fields)?;
    let number = number_to(255, field)?;
    Some((number as u8, fields))
}

/// A number of 16 bits.
pub fn number16(fields: Fields<'_>) -> Option<(u16, Fields<'_>)>
    ensures { result ≡ number16 fields.entry }
{
    let (field, fields) = first(fields)?;
    let number = number_to(65535, field)?;
    Some((number as u16, fields))
}

/// A number of 32 bits.
pub fn number32(fields: Fields<'_>) -> Option<(u32, Fields<'_>)>
    ensures { result ≡ number32 fields.entry }
{
    let (field, fields) = first(fields)?;
    let number = number_to(4_294_967_295, field)?;
    Some((number as u32, fields))
}

/// A number of 64 bits.
pub fn number64(fields: Fields<'_>) -> Option<(u64, Fields<'_>)>
    ensures { result ≡ number64 fields.entry }
{
    let (field, fields) = first(fields)?;
    let number = number_to(u64::MAX, field)?;
    Some((number, fields))
}

/// The number of a file.
pub fn file_number(fields: Fields<'_>) -> Option<(u16, Fields<'_>)>
    ensures { result ≡ first_by (number_to MAX_FILE) fields.entry }
{
    let (field, fields) = first(fields)?;
    let number = number_to(MAX_FILE, field)?;
    Some((number as u16, fields))
}

/// The name of a device.
pub fn device(fields: Fields<'_>) -> Option<(DeviceName, Fields<'_>)>
    ensures { result ≡ first_by names.name_of fields.entry }
{
    let (field, fields) = first(fields)?;
    let name = DeviceName::of(field)?;
    Some((name, fields))
}

// The first place of this byte.
fn place_of(field: &[u8], at: u8) -> Option<usize>
    ensures place { result ≡ position (λ b. b == at) field.now }
    ensures within { IfSome result (λ place. place < length field.now) }
{
    field.iter().position(|b| *b == at)
}

// What stands before the first of these bytes, and what behind it.
fn cut(field: &[u8], at: u8) -> Option<(&[u8], &[u8])>
    ensures { MatchOption result (cut at field.now ≡ None)
        (λ parts. cut at field.now ≡ Some (parts.0.now, parts.1.now)) }
{
    match place_of(field, at) {
        Some(place) => Some((&field[..place], &field[place + 1..])),
        None => None,
    }
}

// ACTOR.TURN.PART.
#[tactic(auto, unfolding(crate::specs::Reading::name_of))]
fn name_of(field: &[u8]) -> Option<Name>
    ensures { result ≡ name_of field.now }
{
    let (actor, rest) = cut(field, b'.')?;
    let (turn, part) = cut(rest, b'.')?;
    let actor = number_to(65535, actor)?;
    let turn = number_to(4_294_967_295, turn)?;
    let part = number_to(65535, part)?;
    Some(Name {
        actor: actor as u16,
        turn: turn as u32,
        part: part as u16,
    })
}

/// The name of a frame.
pub fn name(fields: Fields<'_>) -> Option<(Name, Fields<'_>)>
    ensures { result ≡ name_first fields.entry }
{
    let (field, fields) = first(fields)?;
    let name = name_of(field)?;
    Some((name, fields))
}

/// The name of a frame, or `-`.
#[tactic(auto, unfolding(crate::specs::Reading::name_or_dash_of))]
pub fn name_or_dash(fields: Fields<'_>) -> Option<(Option<Name>, Fields<'_>)>
    ensures { result ≡ first_by name_or_dash_of fields.entry }
{
    let (field, fields) = first(fields)?;
    if field == b"-".as_slice() {
        return Some((None, fields));
    }
    let name = name_of(field)?;
    Some((Some(name), fields))
}

/// A number of 16 bits, or `-`.
#[tactic(auto, unfolding(crate::specs::Reading::number_or_dash_of))]
pub fn number_or_dash(fields: Fields<'_>) -> Option<(Option<u16>, Fields<'_>)>
    ensures { result ≡ first_by number_or_dash_of fields.entry }
{
    let (field, fields) = first(fields)?;
    if field == b"-".as_slice() {
        return Some((None, fields));
    }
    let number = number_to(65535, field)?;
    Some((Some(number as u16), fields))
}

/// ID:LEN, a chain that came back.
#[tactic(auto, unfolding(crate::specs::Reading::harvested_of))]
pub fn harvested_of(field: &[u8]) -> Option<(u32, u32)>
    ensures { result ≡ harvested_of field.now }
{
    let (id, len) = cut(field, b':')?;
    let id = number_to(4_294_967_295, id)?;
    let len = number_to(4_294_967_295, len)?;
    Some((id as u32, len as u32))
}

// The number of four hexadecimal digits.
fn digits4_of(alloc: Global, field: &[u8]) -> Result<Option<u16>, AllocError>
    ensures { IfOk result (λ o. o ≡ hex_number_of w16 field.now) }
{
    value_laws();
    match read_field(alloc, Kind::Plain(Shape::HexNumber(Digits::Four)), field) {
        Ok(Value::Number(n)) => Ok(Some(n as u16)),
        Ok(_) | Err(OrMemory::Fault(_)) => Ok(None),
        Err(OrMemory::NoMemory) => Err(AllocError),
    }
}

/// A number in four hexadecimal digits.
pub fn digits4(alloc: Global, fields: Fields<'_>) -> Result<Option<(u16, Fields<'_>)>, AllocError>
    ensures { IfOk result (λ o. o ≡ digits4 fields.entry) }
{
    let Some((field, fields)) = first(fields) else {
        return Ok(None);
    };
    match digits4_of(alloc, field)? {
        Some(number) => Ok(Some((number, fields))),
        None => Ok(None),
    }
}

// The number of eight hexadecimal digits.
fn digits8_of(alloc: Global, field: &[u8]) -> Result<Option<u32>, AllocError>
    ensures { IfOk result (λ o. o ≡ hex_number_of w32 field.now) }
{
    value_laws();
    match read_field(alloc, Kind::Plain(Shape::HexNumber(Digits::Eight)), field) {
        Ok(Value::Number(n)) => Ok(Some(n as u32)),
        Ok(_) | Err(OrMemory::Fault(_)) => Ok(None),
        Err(OrMemory::NoMemory) => Err(AllocError),
    }
}

/// A number in eight hexadecimal digits.
pub fn digits8(alloc: Global, fields: Fields<'_>) -> Result<Option<(u32, Fields<'_>)>, AllocError>
    ensures { IfOk result (λ o. o ≡ digits8 fields.entry) }
{
    let Some((field, fields)) = first(fields) else {
        return Ok(None);
    };
    match digits8_of(alloc, field)? {
        Some(number) => Ok(Some((number, fields))),
        None => Ok(None),
    }
}

// The bytes of hexadecimal digits, at least two.
fn bytes_of(alloc: Global, field: &[u8]) -> Result<Option<Items<u8>>, AllocError>
    ensures { IfOk result (λ o. o ≡ bytes_of field.now) }
{
    match read_field(alloc, Kind::Plain(Shape::Hex), field) {
        Ok(Value::Bytes(bytes)) => Ok(Some(Items::from_slice(alloc, bytes.as_slice())?)),
        Ok(_) | Err(OrMemory::Fault(_)) => Ok(None),
        Err(OrMemory::NoMemory) => Err(AllocError),
    }
}

/// Bytes in hexadecimal digits, at least one.
pub fn bytes(
    alloc: Global,
    fields: Fields<'_>,
) -> Result<Option<(Items<u8>, Fields<'_>)>, AllocError>
    ensures { IfOk result (λ o. o ≡ first_by bytes_of fields.entry) }
{
    let Some((field, fields)) = first(fields) else {
        return Ok(None);
    };
    match bytes_of(alloc, field)? {
        Some(bytes) => Ok(Some((bytes, fields))),
        None => Ok(None),
    }
}

// The bytes of hexadecimal digits, of which there may be none.
fn bytes_or_none_of(alloc: Global, field: &[u8]) -> Result<Option<Items<u8>>, AllocError>
    ensures { IfOk result (λ o. o ≡ bytes_or_none field.now) }
{
    match field {
        [] => Ok(Some(Items::new(alloc))),
        _ => bytes_of(alloc, field),
    }
}

/// Bytes in hexadecimal digits, of which there may be none.
pub fn bytes_or_none(
    alloc: Global,
    fields: Fields<'_>,
) -> Result<Option<(Items<u8>, Fields<'_>)>, AllocError>
    ensures { IfOk result (λ o. o ≡ first_by bytes_or_none fields.entry) }
{
    let Some((field, fields)) = first(fields) else {
        return Ok(None);
    };
    match bytes_or_none_of(alloc, field)? {
        Some(bytes) => Ok(Some((bytes, fields))),
        None => Ok(None),
    }
}

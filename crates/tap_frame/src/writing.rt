//! A frame as bytes.

ghost use Rattle.std.specs.Prelude.{◌≡◌, ◌++◌, ◌∷◌, [], ◌≤◌, length, replicate, slice_index, IfOk, OnOk};
ghost use Rattle.tap_frame.specs.Frame.{bytes_of};
ghost use Rattle.tap_frame.specs.Text.{least_room, packet_information, padded_header, protocol, text};

use crate::{Frame, Hdr, Shape};
use std::alloc::{AllocError, Global};

// The zeros behind the first ten bytes of the largest header.
const PADDING: [u8; 118] = [0; 118];

/// The least room that a frame of this shape is written to: 4 with packet information, and the size
/// of the header.
pub fn least(shape: Shape) -> usize
    ensures least { result ≡ least_room shape }
    ensures small { result ≤ 132 }
{
    let pi = if shape.pi { 4 } else { 0 };
    pi + usize::from(shape.hdr.unwrap_or(0))
}

/// The first `room` bytes of packet information, header and frame.
///
/// The flags of the packet information are `TUN_PKT_STRIP`, 1, where the whole is more than `room`,
/// and else 0. Its protocol is bytes 12 and 13 of the frame, each 0 where the frame doesn't have it.
/// The header is the kept ten bytes, and zeros.
///
/// # Errors
///
/// Only where memory runs out.
pub fn write_frame(
    alloc: Global,
    shape: Shape,
    frame: &Frame,
    room: usize,
) -> Result<Vec<u8>, AllocError>
    requires { least_room shape ≤ room }
    ensures { IfOk result (λ written. written.items ≡ text shape frame.now.hdr (bytes_of frame.now) room) }
{
    let bytes = frame.bytes();
    let front = least(shape);
    let kept = bytes.len().min(room - front);
    let mut written = Vec::with_capacity(alloc, front + kept)?;
    put_information(&mut written, shape, bytes, room)?;
    put_header(&mut written, shape, frame.hdr())?;
    written.extend_from_slice(&bytes[..kept])?;
    Ok(written)
}

// Appends the packet information, where the shape has it.
fn put_information(
    written: &mut Vec<u8>,
    shape: Shape,
    frame: &[u8],
    room: usize,
) -> Result<(), AllocError>
    requires { length frame.now ≤ 65535 }
    ensures { OnOk result (written.new.items ≡ written.old.items ++ packet_information shape frame.now room) }
{
    if shape.pi {
        let strip = u8::from(room < least(shape) + frame.len());
        written.extend_from_slice(&[strip, 0])?;
        written.extend_from_slice(&protocol_of(frame))?;
    }
    Ok(())
}

// Appends the header, where the shape has one.
fn put_header(written: &mut Vec<u8>, shape: Shape, hdr: Hdr) -> Result<(), AllocError>
    ensures { OnOk result (written.new.items ≡ written.old.items ++ padded_header shape.hdr hdr.bytes) }
{
    if let Some(size) = shape.hdr {
        written.extend_from_slice(&hdr.bytes)?;
        written.extend_from_slice(zeros(usize::from(size) - 10))?;
    }
    Ok(())
}

// So many zeros.
fn zeros(count: usize) -> &'static [u8]
    requires { count ≤ 118 }
    ensures { result.now ≡ replicate count 0 }
{
    &PADDING[..count]
}

// The two bytes of the protocol.
fn protocol_of(frame: &[u8]) -> [u8; 2]
    ensures { result ≡ protocol frame.now }
{
    [byte_or_zero(frame, 12), byte_or_zero(frame, 13)]
}

// The byte at a place, or 0 where the frame doesn't have it.
fn byte_or_zero(frame: &[u8], place: usize) -> u8
    ensures { result ≡ slice_index frame.now place }
{
    frame.get(place).copied().unwrap_or(0)
}

//! A frame from bytes.

ghost use Rattle.std.specs.Prelude.{◌≡◌, ◌+◌, ◌≤◌, ◌++◌, length, take, Some, None, IfOk, OnOk, IfErr};
ghost use Rattle.tap_frame.specs.declared.reading.BadFrame.TheVariants.{NoMemory};
ghost use Rattle.tap_frame.specs.Spelling.{Spelled, first_case, header_in, behind_header, Refuses};
ghost use Rattle.tap_frame.specs.Text.{least_room};

use crate::{Frame, Hdr, Name, Shape, least};
use std::alloc::{AllocError, Global};
use thiserror::Error;

/// Why bytes spell no frame: the first case that holds, or want of memory.
#[derive(Clone, Copy, Debug, PartialEq, Eq, Error)]
pub enum BadFrame {
    /// The shape has packet information, and there are fewer than 4 bytes.
    #[error("the packet information is cut short")]
    ShortPi,
    /// What stands behind the packet information is shorter than the header.
    #[error("the header is cut short")]
    ShortHdr,
    /// The header reaches further than the bytes behind it.
    #[error("the header reaches beyond the frame")]
    HdrBeyond,
    /// Fewer than 14 bytes stand behind the header.
    #[error("fewer than 14 bytes behind the header")]
    ShortEther,
    /// The header reaches 1 to 13 bytes.
    #[error("the header reaches fewer than 14 bytes")]
    HdrShort,
    /// More than 65,535 bytes stand behind the header.
    #[error("more than 65,535 bytes behind the header")]
    TooLong,
    /// Memory ran out.
    #[error("out of memory")]
    NoMemory,
}

impl From<AllocError> for BadFrame {
    ghost from_gives = { λ _ e. e ≡ NoMemory };

    fn from(_error: AllocError) -> BadFrame {
        BadFrame::NoMemory
    }
}

/// The frame that the bytes spell in this shape.
///
/// It keeps the first ten bytes of the header as given, or zeros where the shape has none, and has
/// all bytes that stand behind.
///
/// # Errors
///
/// Exactly the first case that holds, and `NoMemory` only where none does.
pub fn read_frame(alloc: Global, shape: Shape, name: Name, bytes: &[u8]) -> Result<Frame, BadFrame>
    ensures spelled { IfOk result (λ frame. Spelled shape bytes.now frame.hdr frame.made) }
    ensures hdr { IfOk result (λ frame. frame.hdr ≡ header_in shape bytes.now) }
    ensures made { IfOk result (λ frame. frame.made ≡ behind_header shape bytes.now) }
    ensures whole { IfOk result (λ frame. frame.mark ≡ length frame.made) }
    ensures named { IfOk result (λ frame. frame.name ≡ name) }
    ensures accepted { OnOk result (first_case shape bytes.now ≡ None) }
    ensures refused { IfErr result (Refuses (first_case shape bytes.now)) }
{
    let hdr = header_of(shape, bytes)?;
    let made = Vec::from_slice(alloc, &bytes[least(shape)..])?;
    Ok(Frame::new(name, hdr, made))
}

/// The frame that bytes spell in this shape, where those in front of it stand apart from its own, which
/// it takes over. It takes no memory.
///
/// # Errors
///
/// Exactly the first case that holds of the bytes in front and the others behind them.
pub fn read_parts(shape: Shape, name: Name, front: &[u8], ether: Vec<u8>) -> Result<Frame, BadFrame>
    requires { front.now ≡ take (least_room shape) (front.now ++ ether.items) }
    ensures spelled { IfOk result (λ frame. Spelled shape (front.now ++ ether.items) frame.hdr frame.made) }
    ensures hdr { IfOk result (λ frame. frame.hdr ≡ header_in shape (front.now ++ ether.items)) }
    ensures made { IfOk result (λ frame. frame.made ≡ ether.items) }
    ensures behind { IfOk result (λ frame. frame.made ≡ behind_header shape (front.now ++ ether.items)) }
    ensures whole { IfOk result (λ frame. frame.mark ≡ length frame.made) }
    ensures named { IfOk result (λ frame. frame.name ≡ name) }
    ensures accepted { OnOk result (first_case shape (front.now ++ ether.items) ≡ None) }
    ensures refused { IfErr result (λ bad. first_case shape (front.now ++ ether.items) ≡ Some bad) }
{
    let hdr = header_before(shape, front, &ether)?;
    Ok(Frame::new(name, hdr, ether))
}

// The header of bytes that spell a frame, or the first case that holds.
fn header_of(shape: Shape, bytes: &[u8]) -> Result<Hdr, BadFrame>
    ensures hdr { IfOk result (λ hdr. hdr.bytes ≡ header_in shape bytes.now) }
    ensures accepted { OnOk result (first_case shape bytes.now ≡ None) }
    ensures room { OnOk result (least_room shape ≤ length bytes.now) }
    ensures short { OnOk result (length bytes.now ≤ least_room shape + 65535) }
    ensures refused { IfErr result (λ bad. first_case shape bytes.now ≡ Some bad) }
{
    let (front, ether) = bytes.split_at(least(shape).min(bytes.len()));
    header_before(shape, front, ether)
}

// The same, where the bytes in front of the frame stand apart from its own.
fn header_before(shape: Shape, front: &[u8], ether: &[u8]) -> Result<Hdr, BadFrame>
    requires { front.now ≡ take (least_room shape) (front.now ++ ether.now) }
    ensures hdr { IfOk result (λ hdr. hdr.bytes ≡ header_in shape (front.now ++ ether.now)) }
    ensures accepted { OnOk result (first_case shape (front.now ++ ether.now) ≡ None) }
    ensures room { OnOk result (length front.now ≡ least_room shape) }
    ensures short { OnOk result (length ether.now ≤ 65535) }
    ensures refused { IfErr result (λ bad. first_case shape (front.now ++ ether.now) ≡ Some bad) }
{
    if shape.pi && front.len() < 4 {
        return Err(BadFrame::ShortPi);
    }
    if front.len() < least(shape) {
        return Err(BadFrame::ShortHdr);
    }
    let hdr = kept_header(shape, front);
    let reach = hdr.reach() as usize;
    if ether.len() < reach {
        return Err(BadFrame::HdrBeyond);
    }
    if ether.len() < 14 {
        return Err(BadFrame::ShortEther);
    }
    if reach > 0 && reach < 14 {
        return Err(BadFrame::HdrShort);
    }
    if ether.len() > 65535 {
        return Err(BadFrame::TooLong);
    }
    Ok(hdr)
}

// The first ten bytes of the header.
fn kept_header(shape: Shape, front: &[u8]) -> Hdr
    requires { least_room shape ≤ length front.now }
    ensures { result.bytes ≡ header_in shape front.now }
{
    let mut hdr = Hdr::none();
    if shape.hdr.is_some() {
        let start = if shape.pi { 4 } else { 0 };
        hdr.bytes.copy_from_slice(&front[start..start + 10]);
    }
    hdr
}

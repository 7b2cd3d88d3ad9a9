//! The bytes of a chain.
ghost use Rattle.std.specs.Prelude.{◌≡◌, ℕ, ◌+◌, ◌≤◌, min, List, ◌++◌, take, drop, None, Some, IfOk, OnOk, IfErr, IsTrue, All};
ghost use Rattle.guest_mem.specs.Memory.{covers};
ghost use Rattle.vring_walk.specs.Spread.{bytes_in, first_gathered};
ghost use Rattle.tap_frame.specs.Spelling.{first_case, header_in, behind_header};
ghost use Rattle.tap_frame.specs.Text.{least_room};
ghost use Rattle.vring_turns.specs.TransmitBytes.{is_header_size, shape_of as front_of, refusal_of, frame_of};
ghost use Rattle.vhost_tx.specs.Copying.{IsJudged};

use guest_mem::Memory;
use std::alloc::{AllocError, Global};
use tap_frame::{BadFrame, Frame, Name, Shape, read_parts};
use vring_walk::{Segment, byte_count, gather, spread_laws};

// How many bytes of a chain are looked at behind its header: one more than the longest frame has.
const MOST: usize = 65_536;

// What stands in front of a frame in a chain: a header of this size.
fn shape_of(hdr: u16) -> Shape
    requires { IsTrue (is_header_size hdr) }
    ensures case { (bytes : List ℕ) → first_case result bytes ≡ refusal_of hdr bytes }
    ensures header { (bytes : List ℕ) → header_in result bytes ≡ header_in (front_of hdr) bytes }
    ensures behind { (bytes : List ℕ) → behind_header result bytes ≡ behind_header (front_of hdr) bytes }
    ensures least { least_room result ≡ hdr }
{
    Shape {
        pi: false,
        hdr: Some(hdr),
    }
}

/// What the bytes of a chain are.
pub enum Judged {
    /// This frame.
    Accepted(Frame),
    /// No frame, for this reason.
    Refused(BadFrame),
    /// Memory ran out.
    NoMemory,
}

// The bytes of segments behind the first so many, as many as that.
fn bytes_behind(
    alloc: Global,
    mem: &Memory,
    segments: &[Segment],
    skip: usize,
    len: usize,
) -> Result<Vec<u8>, AllocError>
    requires covered { All (λ s. IsTrue (covers mem.now.regions s.addr s.len)) segments.now }
    requires enough { skip + len ≤ bytes_in segments.now }
    ensures { IfOk result (λ bytes. bytes.items ≡ drop skip (first_gathered (skip + len) mem.now.bytes segments.now)) }
{
    let mut bytes = vec![in alloc; 0; len]?;
    gather(mem, segments, skip, &mut bytes);
    Ok(bytes)
}

// The frame that bytes spell under a name, or why they spell none, where its header stands apart. It takes
// no memory.
fn judge_parts(hdr: u16, name: Name, front: &[u8], ether: Vec<u8>) -> Result<Frame, BadFrame>
    requires size { IsTrue (is_header_size hdr) }
    requires front { front.now ≡ take hdr (front.now ++ ether.items) }
    ensures accepted { OnOk result (refusal_of hdr (front.now ++ ether.items) ≡ None) }
    ensures frame { IfOk result (λ frame. frame ≡ frame_of hdr name (front.now ++ ether.items)) }
    ensures refused { IfErr result (λ bad. refusal_of hdr (front.now ++ ether.items) ≡ Some bad) }
{
    read_parts(shape_of(hdr), name, front, ether)
}

// The same, as what the bytes of a chain are.
fn as_judged(made: Result<Frame, BadFrame>) -> Judged
    ensures accepted { IfOk made (λ frame. result ≡ Judged.Accepted frame) }
    ensures refused { IfErr made (λ bad. result ≡ Judged.Refused bad) }
{
    match made {
        Ok(frame) => Judged::Accepted(frame),
        Err(bad) => Judged::Refused(bad),
    }
}

// The frame that the first bytes of segments spell under a name, or why they spell none.
fn judge(
    alloc: Global,
    mem: &Memory,
    segments: &[Segment],
    count: usize,
    hdr: u16,
    name: Name,
) -> Judged
    requires size { IsTrue (is_header_size hdr) }
    requires covered { All (λ s. IsTrue (covers mem.now.regions s.addr s.len)) segments.now }
    requires counted { count ≤ bytes_in segments.now }
    ensures { IsJudged hdr name (first_gathered count mem.now.bytes segments.now) result }
{
    spread_laws();
    let mut header = [0; 12];
    let size = usize::from(hdr).min(count);
    let front = &mut header[..size];
    gather(mem, segments, 0, front);
    match bytes_behind(alloc, mem, segments, size, count - size) {
        Ok(ether) => as_judged(judge_parts(hdr, name, front, ether)),
        Err(_) => Judged::NoMemory,
    }
}

/// What was read of a chain: for how many bytes it counts, and what its bytes are.
pub struct Reading {
    pub counted: u32,
    pub judged: Judged,
}

/// Reads segments, and judges them under a name.
pub fn read_chain(
    alloc: Global,
    mem: &Memory,
    segments: &[Segment],
    hdr: u16,
    name: Name,
) -> Reading
    requires size { IsTrue (is_header_size hdr) }
    requires covered { All (λ s. IsTrue (covers mem.now.regions s.addr s.len)) segments.now }
    ensures counted { result.counted ≡ min (bytes_in segments.now) (hdr + 65535) }
    ensures judged { IsJudged hdr name (first_gathered (hdr + 65536) mem.now.bytes segments.now) result.judged }
{
    spread_laws();
    let count = byte_count(segments, usize::from(hdr) + MOST);
    let most = u32::from(hdr) + 65_535;
    Reading {
        counted: (count as u32).min(most),
        judged: judge(alloc, mem, segments, count, hdr, name),
    }
}

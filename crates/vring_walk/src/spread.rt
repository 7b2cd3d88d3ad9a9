//! The bytes of a chain, spread over its segments: read from them, and written into them.
ghost use Rattle.std.specs.Prelude.{◌≡◌, ◌+◌, ◌<◌, ◌≤◌, ◌++◌, min, length, take, drop, IsTrue, All};
ghost use Rattle.guest_mem.specs.Memory.{covers, bytes_from, written};
ghost use Rattle.vring_walk.specs.Spread.{bytes_in, first_gathered, laid};

use guest_mem::{Memory, byte_laws, range_laws, write_laws};
use vring_split::Segment;

/// How many bytes the segments have together, or `most` where they have more.
pub fn byte_count(segments: &[Segment], most: usize) -> usize
    ensures { result ≡ min (bytes_in segments.now) most }
{
    let mut count = 0;
    for segment in segments {
        count += (segment.len as usize).min(most - count);
    }
    count
}

/// Reads bytes from an address on into the room, from a place of it on.
fn read_part(mem: &Memory, addr: u64, room: &mut [u8], at: usize, len: usize)
    requires fits { at + len ≤ length room.old }
    requires covered { IsTrue (covers mem.now.regions addr len) }
    ensures { take (at + len) room.new ≡ take at room.old ++ bytes_from mem.now.bytes addr len }
{
    if len == 0 {
        return;
    }
    mem.read_in(addr, &mut room[at..at + len]);
}

/// Fills the room with the bytes of segments, one segment after the other, behind the first `skip` bytes
/// of them. Each segment lies in the memory, and together they have enough bytes.
pub fn gather(mem: &Memory, segments: &[Segment], skip: usize, room: &mut [u8])
    requires covered { All (λ s. IsTrue (covers mem.now.regions s.addr s.len)) segments.now }
    requires enough { skip + length room.old ≤ bytes_in segments.now }
    ensures { room.new ≡ drop skip (first_gathered (skip + length room.old) mem.now.bytes segments.now) }
{
    range_laws();
    byte_laws();
    let _sound = mem.regions();
    let mut left = skip;
    let mut at = 0;
    for segment in segments {
        let skipped = left.min(segment.len as usize);
        let len = (segment.len as usize - skipped).min(room.len() - at);
        read_part(mem, segment.addr + skipped as u64, room, at, len);
        left -= skipped;
        at += len;
    }
}

/// Writes bytes from an address on, and others behind them.
fn write_both(mem: &mut Memory, addr: u64, front: &[u8], behind: &[u8])
    requires some { 0 < length behind.now }
    requires covered { IsTrue (covers mem.old.regions addr (length front.now + length behind.now)) }
    ensures { mem.new ≡ written mem.old addr (front.now ++ behind.now) }
{
    range_laws();
    byte_laws();
    write_laws();
    let _ = mem.regions();
    mem.write_in(addr, front);
    mem.write_in(addr + front.len() as u64, behind);
}

/// Writes so many bytes of two slices, one behind the other, from a place of them on.
fn write_part(mem: &mut Memory, addr: u64, front: &[u8], behind: &[u8], at: usize, len: usize)
    requires within { at + len ≤ length front.now + length behind.now }
    requires covered { IsTrue (covers mem.old.regions addr len) }
    ensures { mem.new ≡ written mem.old addr (take len (drop at (front.now ++ behind.now))) }
{
    let cut = front.len();
    if at >= cut {
        let from = at - cut;
        mem.write_in(addr, &behind[from..from + len]);
    } else if at + len <= cut {
        mem.write_in(addr, &front[at..at + len]);
    } else {
        write_both(mem, addr, &front[at..], &behind[..at + len - cut]);
    }
}

/// Writes the bytes of two slices, as a header and what comes behind it, over segments: each segment takes
/// the next of them, as many as it has room for, until none are left. What the segments have no room for
/// is written nowhere. Either slice may be empty, and each segment lies in the memory.
pub fn scatter(mem: &mut Memory, segments: &[Segment], front: &[u8], behind: &[u8])
    requires covered { All (λ s. IsTrue (covers mem.old.regions s.addr s.len)) segments.now }
    requires short { length front.now + length behind.now ≤ 4294967295 }
    ensures { mem.new ≡ record mem.old { bytes = laid mem.old.bytes segments.now (front.now ++ behind.now) } }
{
    range_laws();
    let whole = front.len() + behind.len();
    let mut at = 0;
    for segment in segments {
        let len = (segment.len as usize).min(whole - at);
        write_part(mem, segment.addr, front, behind, at, len);
        at += len;
    }
}

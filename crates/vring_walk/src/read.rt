//! Fields and descriptors of a ring, read from bytes that were found.
ghost use Rattle.std.specs.Prelude.{◌≡◌, ◌+◌, ◌*◌, ◌≤◌, IsTrue, length, slice_range};
ghost use Rattle.std.specs.Int.{w16, from_le_bytes};
ghost use Rattle.guest_mem.specs.Memory.{byte_at, bytes_at, covers};
ghost use Rattle.vring_split.specs.Split.{avail_len, desc_of};
ghost use Rattle.vring_walk.specs.Stretch.{table_bytes};

use crate::table::Table;
use guest_mem::Memory;
use vring_split::{Desc, Layout, avail_len, desc_len, le16_of};

/// The bytes of a table.
#[inline]
pub fn table_bytes<'a>(mem: &'a Memory, table: &Table) -> &'a [u8]
    requires { IsTrue (covers mem.now.regions table.now.addr (16 * table.now.entries)) }
    ensures { result.now ≡ table_bytes (byte_at mem.now) table.now }
{
    mem.bytes_in(table.addr, desc_len(table.entries))
}

/// The bytes of the available ring.
#[inline]
pub fn avail_bytes<'a>(mem: &'a Memory, ring: &Layout) -> &'a [u8]
    requires { IsTrue (covers mem.now.regions ring.now.avail (avail_len ring.now.num)) }
    ensures { result.now ≡ bytes_at (byte_at mem.now) ring.now.avail (avail_len ring.now.num) }
{
    mem.bytes_in(ring.avail, avail_len(ring.num))
}

/// The number of the field that starts at a place of these bytes.
#[inline]
pub fn le16_in(bytes: &[u8], at: usize) -> u16
    requires { at + 2 ≤ length bytes.now }
    ensures { result ≡ from_le_bytes w16 (slice_range bytes.now at (at + 2)) }
{
    le16_of(bytes[at..].first_chunk::<2>().unwrap())
}

/// The descriptor at an entry of the table that has these bytes.
#[inline]
pub fn entry(bytes: &[u8], index: u16) -> Desc
    requires { 16 * index + 16 ≤ length bytes.now }
    ensures { result ≡ desc_of (slice_range bytes.now (16 * index) (16 * index + 16)) }
{
    Desc::of(
        bytes[16 * usize::from(index)..]
            .first_chunk::<16>()
            .unwrap(),
    )
}

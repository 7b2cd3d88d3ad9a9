//! Where a driver puts a ring and its data.
ghost use Rattle.std.specs.Prelude.{◌≡◌, ◌+◌, ◌*◌, ◌^◌, ◌<◌, ◌≤◌};
ghost use Rattle.vring_drive.specs.Area.{used_offset, data_offset, area_len, layout_at, slot_at};

use vring_split::{Layout, avail_len, desc_len, used_len};

/// How many bytes a data slot has; each descriptor has one.
pub const SLOT_LEN: u32 = 2048;

// How far behind the descriptor table the used ring starts.
fn used_offset(num: u16) -> u64
    ensures value { result ≡ used_offset num }
    ensures small { result ≤ 18 * num + 9 }
{
    (desc_len(num) + avail_len(num) + 3) / 4 * 4
}

// How far behind the descriptor table the data slots start.
pub fn data_offset(num: u16) -> u64
    ensures value { result ≡ data_offset num }
    ensures small { result ≤ 26 * num + 30 }
{
    (used_offset(num) + used_len(num) + 15) / 16 * 16
}

// How many bytes the ring and its data take.
pub fn area_len(num: u16) -> u64
    ensures { result ≡ area_len num }
{
    data_offset(num) + u64::from(SLOT_LEN) * u64::from(num)
}

// The ring of a driver at an address.
pub fn layout_at(at: u64, num: u16, event: bool, indirect: bool, rx: bool) -> Layout
    requires { at + area_len num < 2 ^ 64 }
    ensures { result ≡ layout_at at num event indirect rx }
{
    Layout {
        num,
        desc: at,
        avail: at + desc_len(num),
        used: at + used_offset(num),
        indirect,
        event,
        rx,
    }
}

// Where the data slot of a descriptor starts.
pub fn slot_at(ring: &Layout, index: u16) -> u64
    requires inside { index < ring.now.num }
    requires fits { ring.now.desc + area_len ring.now.num < 2 ^ 64 }
    ensures { result ≡ slot_at ring.now index }
{
    ring.desc + (data_offset(ring.num) + u64::from(SLOT_LEN) * u64::from(index))
}

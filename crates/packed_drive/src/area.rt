//! Where a driver puts a packed ring and its data.
ghost use Rattle.std.specs.Prelude.{◌≡◌, ◌+◌, ◌*◌, ◌^◌, ◌<◌, ◌≤◌};
ghost use Rattle.packed_drive.specs.Area.{data_offset, area_len, layout_at, slot_at};

use vring_packed::PackedLayout;

/// How many bytes a data slot has; each descriptor has one.
pub const SLOT_LEN: u32 = 2048;
/// How many bytes a descriptor has.
const DESC_LEN: u64 = 16;
/// How many bytes each of the event suppression areas has.
const AREA_LEN: u64 = 4;

/// How far behind the ring's start the data slots start.
fn data_offset(num: u16) -> u64
    ensures value { result ≡ data_offset num }
    ensures small { result ≤ 16 * num + 23 }
{
    (DESC_LEN * u64::from(num) + 2 * AREA_LEN + 15) / 16 * 16
}

/// How many bytes the ring and its data take.
pub fn area_len(num: u16) -> u64
    ensures { result ≡ area_len num }
{
    data_offset(num) + u64::from(SLOT_LEN) * u64::from(num)
}

/// The ring of a driver at an address.
pub fn layout_at(at: u64, num: u16, indirect: bool, event: bool, rx: bool) -> PackedLayout
    requires { at + area_len num < 2 ^ 64 }
    ensures { result ≡ layout_at at num indirect event rx }
{
    let driver = at + DESC_LEN * u64::from(num);
    PackedLayout {
        num,
        ring: at,
        driver,
        device: driver + AREA_LEN,
        indirect,
        event,
        rx,
    }
}

/// Where the data slot of an entry of the ring starts.
pub fn slot_at(at: u64, num: u16, entry: u16) -> u64
    requires inside { entry < num }
    requires fits { at + area_len num < 2 ^ 64 }
    ensures { result ≡ slot_at at num entry }
{
    at + (data_offset(num) + u64::from(SLOT_LEN) * u64::from(entry))
}

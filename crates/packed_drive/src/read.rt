//! Descriptors of the ring, read from memory that is known to be there.
ghost use Rattle.std.specs.Prelude.{◌≡◌, ◌<◌, ◌≤◌};
ghost use Rattle.guest_mem.specs.Memory.{byte_at};
ghost use Rattle.vring_packed.specs.Chain.{desc_at};
ghost use Rattle.packed_drive.specs.Area.{IsIn};
ghost use Rattle.packed_drive.specs.Harvests.{is_used};

use guest_mem::{Memory, range_laws};
use vring_packed::PackedDesc;

/// The flags of a descriptor (VIRTIO 1.2, 2.8.13).
const AVAIL: u16 = 1 << 7;

const USED: u16 = 1 << 15;

/// The descriptor in an entry of the ring.
#[tactic(auto, unfolding(vring_packed::specs::Chain::desc_at))]
pub fn desc_at(mem: &Memory, start: u64, num: u16, entry: u16) -> PackedDesc
    requires area { IsIn start num mem.now }
    requires inside { entry < num }
    ensures { result ≡ desc_at (byte_at mem.now) start entry }
{
    range_laws();
    let mut bytes = [0u8; 16];
    mem.read_in(start + 16 * u64::from(entry), &mut bytes);
    PackedDesc::of(&bytes)
}

/// Whether a descriptor is used where the wrap counter is this.
pub fn is_used(desc: &PackedDesc, wrap: bool) -> bool
    ensures { result ≡ is_used wrap desc.now }
{
    let avail = desc.flags & AVAIL != 0;
    let used = desc.flags & USED != 0;
    if wrap { avail & used } else { !avail & !used }
}

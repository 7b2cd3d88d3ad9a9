//! Descriptors, read from memory that is known to be there.
ghost use Rattle.std.specs.Prelude.{◌≡◌, ◌*◌, ◌<◌, ◌≤◌, ℕ, IsTrue};
ghost use Rattle.guest_mem.specs.Memory.{byte_at, covers};
ghost use Rattle.vring_packed.specs.Chain.{desc_at, entry_after};

use crate::desc::PackedDesc;
use guest_mem::{Memory, range_laws};

/// The descriptor in an entry of a table of so many entries, which starts at an address.
#[tactic(auto, unfolding(crate::specs::Chain::desc_at))]
pub fn desc_at(mem: &Memory, table: u64, entries: u16, index: u16) -> PackedDesc
    requires inside { index < entries }
    requires lies { IsTrue (covers mem.now.regions table (16 * entries)) }
    ensures { result ≡ desc_at (byte_at mem.now) table index }
{
    range_laws();
    let mut bytes = [0u8; 16];
    mem.read_in(table + 16 * u64::from(index), &mut bytes);
    PackedDesc::of(&bytes)
}

/// The entry of a ring that comes after another.
pub fn entry_after(num: u16, at: u16) -> u16
    requires inside { at < num }
    requires most { num ≤ 32768 }
    ensures next { result ≡ entry_after num at }
    ensures inside { result < num }
{
    if at + 1 < num { at + 1 } else { 0 }
}

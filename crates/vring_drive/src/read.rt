//! Used entries of a ring, read from memory that is known to be there.
ghost use Rattle.std.specs.Prelude.{◌≡◌, IsTrue};
ghost use Rattle.guest_mem.specs.Memory.{bytes_from, covers};
ghost use Rattle.vring_split.specs.Split.{used_elem_of};

use guest_mem::Memory;
use vring_split::UsedElem;

/// The used entry at an address.
pub fn used_elem_at(mem: &Memory, addr: u64) -> UsedElem
    requires { IsTrue (covers mem.now.regions addr 8) }
    ensures { result ≡ used_elem_of (bytes_from mem.now.bytes addr 8) }
{
    let mut bytes = [0u8; 8];
    mem.read_in(addr, &mut bytes);
    UsedElem::of(&bytes)
}

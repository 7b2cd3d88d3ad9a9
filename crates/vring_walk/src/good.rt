//! Layouts that can be walked.
ghost use Rattle.std.specs.Prelude.{◌≡◌, ◌↔◌, IsTrue};
ghost use Rattle.guest_mem.specs.Memory.{covers};
ghost use Rattle.vring_split.specs.Good.{IsGoodFor, is_good_for};

use guest_mem::Memory;
use vring_split::{Layout, avail_len, desc_len, used_len};

/// Whether a layout is good for a memory: the queue size is a power of two up to 32,768, and the
/// descriptor table, the available ring and the used ring lie in the memory.
pub fn is_good(mem: &Memory, ring: &Layout) -> bool
    ensures good { IsTrue result ↔ IsGoodFor ring.now (covers mem.now.regions) }
    ensures test { result ≡ is_good_for ring.now (covers mem.now.regions) }
{
    ring.num.is_power_of_two()
        && ring.num <= 32768
        && mem.covers(ring.desc, desc_len(ring.num))
        && mem.covers(ring.avail, avail_len(ring.num))
        && mem.covers(ring.used, used_len(ring.num))
}

//! What is asked of numbers and addresses.
ghost use Rattle.std.specs.Prelude.{◌≡◌, IsTrue, IfSome, None, Some, not, if◌then◌else◌};
ghost use Rattle.guest_mem.specs.Memory.{covers};
ghost use Rattle.vhost_queue.specs.Queue.{IsQueueSize};
ghost use Rattle.vhost_dev.specs.Refusals.{is_bad_size, is_unaligned, is_outside};

use guest_mem::Memory;
use vring_split::{avail_len, desc_len, used_len};

/// The number as a queue size, if it is one.
pub fn queue_size(num: u64) -> Option<u16>
    ensures size { result ≡ (if is_bad_size num then None else Some num) }
    ensures good { IfSome result IsQueueSize }
{
    match u16::try_from(num) {
        Ok(size) if size.is_power_of_two() => Some(size),
        _ => None,
    }
}

/// Whether the parts of a ring start at multiples of 16, 2 and 4.
pub fn is_aligned(desc: u64, avail: u64, used: u64) -> bool
    ensures { result ≡ not (is_unaligned desc avail used) }
{
    desc % 16 == 0 && avail % 2 == 0 && used % 4 == 0
}

/// Whether the parts of a ring lie in a memory.
pub fn is_inside(num: u16, desc: u64, avail: u64, used: u64, mem: &Memory) -> bool
    ensures { result ≡ not (is_outside num desc avail used mem.now) }
{
    mem.covers(desc, desc_len(num))
        && mem.covers(avail, avail_len(num))
        && mem.covers(used, used_len(num))
}

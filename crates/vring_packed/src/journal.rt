//! What was published, in its order.
ghost use Rattle.std.specs.Prelude.{◌≡◌, ◌+◌, ◌++◌, ◌≤◌, length, map, vec_len, vec_capacity};
ghost use Rattle.vhost_queue.specs.Positions.{published_from};
ghost use Rattle.vring_packed.specs.Queue.{done_of};

use crate::done::PackedDone;

/// Appends what is done to what was published, at positions from one on. The places are reserved.
pub fn append_published(journal: &mut Vec<(u16, u16, u32)>, first: u16, done: &[PackedDone])
    requires { vec_len journal.old + length done.now ≤ vec_capacity journal.old }
    ensures items { journal.new.items ≡ journal.old.items ++ published_from first (map done_of done.now) }
    ensures len { vec_len journal.new ≡ vec_len journal.old + length done.now }
    ensures capacity { vec_capacity journal.new ≡ vec_capacity journal.old }
{
    let mut position = first;
    for chain in done {
        journal.push_reserved((position, chain.id, chain.len));
        position = position.wrapping_add(1);
    }
}

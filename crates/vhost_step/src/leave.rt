//! Where memory ran out in the middle of a turn.

ghost use Rattle.std.specs.Prelude.{◌≡◌};
ghost use Rattle.vhost_queue.specs.Positions.{IsIdle};
ghost use Rattle.vhost_queue.specs.Publication.{published_in, with_published};
ghost use Rattle.vhost_queue.specs.Queue.{IsGood};
ghost use Rattle.vhost_step.specs.Queues.{given_back};

use guest_mem::Memory;
use vhost_queue::Vq;

/// Leaves a ring in the middle of a turn: chains that are gathered stand at their positions again, and what is done is
/// published, so that the ring is idle. It takes no memory.
pub fn leave_idle(vq: &mut Vq, mem: &mut Memory)
    requires { IsGood vq.old.queue mem.old }
    ensures queue { vq.new.queue ≡ with_published (given_back vq.old.queue) }
    ensures memory { mem.new ≡ published_in (given_back vq.old.queue) mem.old }
    ensures idle { IsIdle vq.new.queue.positions }
    ensures good { IsGood vq.new.queue mem.new }
    ensures regions { mem.new.regions ≡ mem.old.regions }
{
    vq.rewind(vq.gathered());
    let _ = vq.publish(mem);
}

//! Chains are published on a small ring, and the driver is told what it asked for.
ghost use Rattle.std.specs.Prelude.{IsTrue};
ghost use Rattle.guest_mem.specs.Memory.{covers};
ghost use Rattle.vring_split.specs.Good.{IsGoodFor};

use super::*;
use guest_mem::{Memory, Region};
use std::test::Fail;
use vring_split::{Layout, avail_len, desc_len, used_len};

const RING: Layout = Layout {
    num: 4,
    desc: 0,
    avail: 64,
    used: 80,
    indirect: false,
    event: true,
    rx: true,
};

// Flags 0, index 2, and the entries (0, 40) and (1, 32).
const PUBLISHED: [u8; 20] = [0, 0, 2, 0, 0, 0, 0, 0, 40, 0, 0, 0, 1, 0, 0, 0, 32, 0, 0, 0];

fn is_good(mem: &Memory, ring: &Layout) -> bool
    ensures { IsTrue result → IsGoodFor ring.now (covers mem.now.regions) }
{
    ring.num.is_power_of_two()
        && ring.num <= 32768
        && mem.covers(ring.desc, desc_len(ring.num))
        && mem.covers(ring.avail, avail_len(ring.num))
        && mem.covers(ring.used, used_len(ring.num))
}

// Two chains of 40 bytes take a frame of 72 and are published: the used index is 2 behind the entries
// (0, 40) and (1, 32), and avail_event is the next position.
#[test]
fn publishes_two_chains(rt: HostRuntime) -> Result<(), Fail> {
    let regions = [Region { addr: 0, len: 4096 }];
    let mut mem = Memory::new(rt.alloc(), &regions)?;
    let mut vq = Vq::new(rt.alloc(), true)?;
    let ring = RING;
    assert!(rt; is_good(&mem, &ring));
    vq.set_layout(ring);
    vq.rebase(65535);
    vq.ready_turn()?;
    vq.served();
    vq.served();
    vq.done(0, 40);
    vq.done(1, 32);
    assert!(rt; vq.publish(&mut mem));
    vq.notices(&mut mem, true);
    let mut index = [0u8; 20];
    mem.read(80, &mut index).map_err(|_| "inside")?;
    assert_eq!(rt; index, PUBLISHED);
    let mut event = [0u8; 2];
    mem.read(116, &mut event).map_err(|_| "inside")?;
    assert_eq!(rt; event, [1, 0]);
    assert_eq!(rt; vq.journal(), [(65535, 0, 40), (0, 1, 32)].as_slice());
    Ok(())
}

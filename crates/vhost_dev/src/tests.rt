//! The usual start of a queue pair, and a queue that is lent.
ghost use Rattle.std.specs.Prelude.{◌≡◌, ◌<◌, Bool, IsTrue};
ghost use Rattle.vhost_queue.specs.Positions.{served};
ghost use Rattle.vhost_queue.specs.Queue.{most_gathered};
ghost use Rattle.vhost_dev.specs.Settings.{ring_of};
ghost use Rattle.vhost_dev.specs.Calls.{IsIdleRing};
ghost use Rattle.vhost_dev.specs.Device.{queue_of, with_queue};

use super::*;
use guest_mem::{Memory, Region};
use std::process::Abort;
use std::test::Fail;
use vring_split::Layout;

// Nothing is served and not published.
fn is_idle(dev: &VhostDev) -> bool
    ensures each { IsTrue result → (rx : Bool) → IsIdleRing (ring_of rx dev.now.settings) }
    ensures rx { IsTrue result → IsIdleRing dev.now.settings.rx }
    ensures tx { IsTrue result → IsIdleRing dev.now.settings.tx }
{
    dev.queue(true).is_idle() && dev.queue(false).is_idle()
}

fn set_num(rt: &impl Abort, dev: &mut VhostDev, ring: u16, num: u64) -> Result<(), VhostErr> {
    assert!(rt; is_idle(dev));
    dev.set_num(ring, num)
}

fn set_base(rt: &impl Abort, dev: &mut VhostDev, ring: u16, base: u64) -> Result<(), VhostErr> {
    assert!(rt; is_idle(dev));
    dev.set_base(ring, base)
}

fn set_features(rt: &impl Abort, dev: &mut VhostDev, bits: u64) -> Result<(), VhostErr> {
    assert!(rt; is_idle(dev));
    dev.set_features(bits)
}

fn set_addr(
    rt: &impl Abort,
    dev: &mut VhostDev,
    ring: u16,
    at: (u64, u64, u64),
    mem: &Memory,
) -> Result<(), VhostErr> {
    assert!(rt; is_idle(dev));
    dev.set_addr(ring, at.0, at.1, at.2, mem)
}

fn back(
    rt: &impl Abort,
    dev: &mut VhostDev,
    ring: u16,
    file: u16,
    mem: &Memory,
) -> Result<(), VhostErr> {
    assert!(rt; is_idle(dev));
    dev.ready(ring, mem)?;
    dev.set_backend(ring, file, mem);
    Ok(())
}

// What is done to a lent queue shows in the device, and all else stays.
fn serve_one(dev: &mut VhostDev, rx: bool)
    requires { (queue_of rx dev.old).queue.positions.gathered < most_gathered }
    ensures { dev.new
        ≡ with_queue rx dev.old (record (queue_of rx dev.old) {
          queue =
              record (queue_of rx dev.old).queue { positions = served (queue_of rx dev.old).queue.positions };
        }) }
{
    dev.vq(rx).served();
}

#[test]
fn starts_as_usual(rt: HostRuntime) -> Result<(), Fail> {
    let regions = [Region {
        addr: 0,
        len: 4_194_304,
    }];
    let mem = Memory::new(rt.alloc(), &regions)?;
    let mut dev = VhostDev::new(rt.alloc())?;
    assert_eq!(rt;
        set_features(&rt, &mut dev, 1 << 24),
        Err(VhostErr::ENOTSUP)
    );
    set_features(&rt, &mut dev, 0x1_3000_8000)?;
    set_num(&rt, &mut dev, 1, 256)?;
    set_addr(&rt, &mut dev, 1, (1114112, 1118208, 1118728), &mem)?;
    set_base(&rt, &mut dev, 1, 7)?;
    back(&rt, &mut dev, 1, 5, &mem)?;
    let layout = Layout {
        num: 256,
        desc: 1114112,
        avail: 1118208,
        used: 1118728,
        indirect: true,
        event: true,
        rx: false,
    };
    assert_eq!(rt; dev.layout(false), layout);
    assert_eq!(rt; dev.lists(false), [(0, 0), (7, 0)].as_slice());
    assert_eq!(rt; (dev.hdr(), dev.mrg()), (12, true));
    assert_eq!(rt; (dev.backend(true), dev.backend(false)), (None, Some(5)));
    assert_eq!(rt; dev.get_base(1), Ok(7));
    Ok(())
}

//! A driver, a walker and a device serve one ring.
use guest_mem::{Memory, Region};
use std::alloc::Global;
use std::process::Abort;
use std::test::Fail;
use vhost_dev::VhostDev;
use vring_drive::Driver;
use vring_walk::{Fetched, Segments, fetch, is_good};

const NUM: u16 = 512;
// Where the parts of a ring of 512 lie behind its first address.
const AVAIL: u64 = 8192;

const USED: u64 = 9224;

// A device whose transmit ring is the driver's.
fn device(rt: &impl Abort, alloc: Global, mem: &Memory) -> Result<VhostDev, Fail> {
    let mut dev = VhostDev::new(alloc)?;
    assert!(rt; dev.queue(false).is_idle());
    dev.set_num(1, u64::from(NUM))?;
    assert!(rt; dev.queue(false).is_idle());
    dev.set_addr(1, 0, AVAIL, USED, mem)?;
    assert!(rt; dev.queue(false).is_idle());
    dev.ready(1, mem)?;
    dev.set_backend(1, 0, mem);
    dev.vq(false).ready_turn()?;
    Ok(dev)
}

// Serves the chain at the next position, if there is one, and tells whether there was.
fn serve(rt: &impl Abort, dev: &mut VhostDev, mem: &Memory, room: &mut Segments) -> bool {
    let ring = dev.layout(false);
    assert!(rt; is_good(mem, &ring));
    room.clear();
    let Fetched::Chain { head } = fetch(mem, &ring, dev.queue(false).position(), room) else {
        return false;
    };
    let vq = dev.vq(false);
    assert!(rt; vq.gathered() < 1024);
    assert!(rt; vq.room() > 0);
    vq.served();
    vq.done(head, 0);
    true
}

// Publishes what is done.
fn publish(rt: &impl Abort, dev: &mut VhostDev, mem: &mut Memory) -> bool {
    let ring = dev.layout(false);
    assert!(rt; is_good(mem, &ring));
    dev.vq(false).publish(mem)
}

fn post(rt: &impl Abort, driver: &mut Driver, mem: &mut Memory) -> Result<u16, Fail> {
    assert!(rt; driver.has_area(mem));
    Ok(driver.post_out(mem, &[7; 26]).map_err(|_| "posted")?)
}

fn post_all(rt: &impl Abort, driver: &mut Driver, mem: &mut Memory) -> Result<(), Fail> {
    for i in 0..300u16 {
        assert_eq!(rt; post(rt, driver, mem)?, i);
    }
    Ok(())
}

// Serves 300 chains, published at every 64 and at the end, and finds no more.
fn serve_all(rt: &impl Abort, dev: &mut VhostDev, mem: &mut Memory, room: &mut Segments) {
    for i in 0..300u16 {
        assert!(rt; serve(rt, dev, mem, room));
        if i % 64 == 63 {
            assert!(rt; publish(rt, dev, mem));
        }
    }
    assert!(rt; !serve(rt, dev, mem, room));
    assert!(rt; publish(rt, dev, mem));
}

// The journal has them at their positions.
fn look(rt: &impl Abort, dev: &VhostDev) {
    let journal = dev.queue(false).journal();
    assert_eq!(rt; journal.len(), 300);
    assert_eq!(rt; journal[299], (299, 299, 0));
    assert_eq!(rt; dev.get_base(1), Ok(300));
}

fn harvest_all(rt: &impl Abort, driver: &mut Driver, mem: &mut Memory) -> Result<(), Fail> {
    assert!(rt; driver.has_area(mem));
    let found = driver.harvest(mem).map_err(|_| "lawful")?;
    assert_eq!(rt; found.len(), 300);
    Ok(())
}

// 300 chains are served in their order, published at every 64, and harvested.
#[test]
fn three_hundred_chains(rt: HostRuntime) -> Result<(), Fail> {
    let regions = [Region {
        addr: 0,
        len: 2_097_152,
    }];
    let mut mem = Memory::new(rt.alloc(), &regions)?;
    assert!(rt; NUM.is_power_of_two());
    let mut driver = Driver::new(rt.alloc(), &mem, 0, NUM, false).map_err(|_| "there")?;
    let mut dev = device(&rt, rt.alloc(), &mem)?;
    let mut room = Segments::new(rt.alloc())?;
    post_all(&rt, &mut driver, &mut mem)?;
    serve_all(&rt, &mut dev, &mut mem, &mut room);
    look(&rt, &dev);
    harvest_all(&rt, &mut driver, &mut mem)
}

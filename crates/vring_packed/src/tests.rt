use super::*;
use guest_mem::{Memory, Region};
use std::alloc::Global;
use std::process::Abort;
use std::test::Fail;

const RING: PackedLayout = PackedLayout {
    num: 3,
    ring: 0,
    driver: 48,
    device: 52,
    indirect: true,
    event: false,
    rx: false,
};

// A driver makes a descriptor available: where, with which id, and with which flags.
fn post(mem: &mut Memory, at: u16, id: u16, flags: u16) -> Result<(), Fail> {
    let desc = PackedDesc {
        addr: 4096,
        len: 1,
        id,
        flags,
    };
    Ok(
        mem.write(16 * u64::from(at), &desc.bytes())
            .map_err(|_| "there")?,
    )
}

// Serves and publishes the chain at the next place: its id, or none.
fn turn(rt: &impl Abort, vq: &mut PackedVq, mem: &mut Memory, room: &mut Segments) -> Option<u16> {
    assert!(rt; vq.layout().is_good(mem));
    room.clear();
    let PackedFetched::Chain { id, .. } = vq.fetch(mem, room) else {
        return None;
    };
    assert!(rt; vq.gathered() < 1024 && vq.fetched().is_some());
    vq.served();
    assert!(rt; vq.room() > 0);
    assert_eq!(rt; vq.earliest().map(|chain| chain.id), Some(id));
    vq.done(id, 0);
    assert!(rt; vq.layout().is_good(mem));
    assert!(rt; vq.publish(mem));
    Some(id)
}

fn begin(rt: &impl Abort, alloc: Global) -> Result<(Memory, PackedVq, Segments), Fail> {
    let regions = [Region {
        addr: 0,
        len: 65_536,
    }];
    let mem = Memory::new(alloc, &regions)?;
    let mut vq = PackedVq::new(alloc, RING)?;
    vq.ready_turn()?;
    assert_eq!(rt; vq.room(), 1087);
    Ok((mem, vq, Segments::new(alloc)?))
}

// Four chains go through a ring of three, the last one with the other wrap counter.
#[test]
fn around_the_ring(rt: HostRuntime) -> Result<(), Fail> {
    let (mut mem, mut vq, mut room) = begin(&rt, rt.alloc())?;
    assert_eq!(rt; turn(&rt, &mut vq, &mut mem, &mut room), None);
    for (at, id, flags) in [
        (0, 0, 0x0080),
        (1, 1, 0x0080),
        (2, 2, 0x0080),
        (0, 0, 0x8000),
    ] {
        post(&mut mem, at, id, flags)?;
        assert_eq!(rt; turn(&rt, &mut vq, &mut mem, &mut room), Some(id));
        assert_eq!(rt; turn(&rt, &mut vq, &mut mem, &mut room), None);
    }
    assert_eq!(rt;
        vq.journal(),
        &[(0, 0, 0), (1, 1, 0), (2, 2, 0), (3, 0, 0)][..]
    );
    let mut ring = [0u8; 48];
    mem.read(0, &mut ring).map_err(|_| "there")?;
    assert_eq!(rt;
        (ring[14], ring[15], ring[46], ring[47]),
        (0, 0, 0x80, 0x80)
    );
    Ok(())
}

use super::*;
use guest_mem::{Memory, Region};
use std::test::Fail;
use vring_split::{Desc, Layout, le16_bytes_of};

const NEXT: u16 = 1;

const INDIRECT: u16 = 4;

const GOOD: Fetched = Fetched::Chain { head: 0 };

fn bad(fault: RingFault) -> Fetched {
    Fetched::Bad(fault)
}

fn put(mem: &mut Memory, at: u64, addr: u64, len: u32, flags: u16, next: u16) {
    let desc = Desc {
        addr,
        len,
        flags,
        next,
    };
    let _ = mem.write(at, &desc.bytes());
}

fn put_field(mem: &mut Memory, at: u64, value: u16) {
    let _ = mem.write(at, &le16_bytes_of(value));
}

fn ring_of(num: u16, rx: bool, indirect: bool) -> Layout {
    Layout {
        num,
        desc: 0,
        avail: 64,
        used: 80,
        indirect,
        event: false,
        rx,
    }
}

fn fetched(mem: &Memory, ring: &Layout, last: u16, room: &mut Segments) -> Option<Fetched> {
    if is_good(mem, ring) {
        Some(fetch(mem, ring, last, room))
    } else {
        None
    }
}

// Entries of a table that follow each other, so many of them, with these flags beside NEXT.
fn put_table(mem: &mut Memory, at: u64, entries: u16, others: u16) {
    for i in 0..entries {
        let flags = if i + 1 < entries {
            others | NEXT
        } else {
            others
        };
        put(
            mem,
            at.saturating_add(16 * u64::from(i)),
            4096,
            16,
            flags,
            i + 1,
        );
    }
}

#[test]
fn many_segments(rt: HostRuntime) -> Result<(), Fail> {
    let regions = [Region {
        addr: 0,
        len: 65_536,
    }];
    let mut mem = Memory::new(rt.alloc(), &regions).map_err(|_| "a region")?;
    let mut room = Segments::new(rt.alloc())?;
    let ring = ring_of(4, false, true);
    put_field(&mut mem, 66, 1);
    put_table(&mut mem, 16_384, 1024, 0);
    put(&mut mem, 0, 4096, 16, NEXT, 1);
    put(&mut mem, 16, 16_384, 16_384, INDIRECT, 0);
    assert_eq!(rt;
        fetched(&mem, &ring, 0, &mut room),
        Some(bad(RingFault::TooManySegments))
    );
    assert_eq!(rt; room.list().len(), 0);
    put(&mut mem, 0, 16_384, 16_384, INDIRECT, 0);
    assert_eq!(rt; fetched(&mem, &ring, 0, &mut room), Some(GOOD));
    assert_eq!(rt; room.list().len(), 1024);
    assert_eq!(rt; fetched(&mem, &ring, 0, &mut room), Some(Fetched::Crowded));
    assert_eq!(rt; room.list().len(), 1024);
    room.clear();
    put(&mut mem, 0, 1, 2, NEXT, 1);
    put(&mut mem, 16, 3, 0, 0, 0);
    assert_eq!(rt; fetched(&mem, &ring, 0, &mut room), Some(GOOD));
    let segments = [
        Segment {
            addr: 1,
            len: 2,
            write: false,
        },
        Segment {
            addr: 3,
            len: 0,
            write: false,
        },
    ];
    assert_eq!(rt; room.list(), segments.as_slice());
    Ok(())
}

#[test]
fn small_and_large_rings(rt: HostRuntime) -> Result<(), Fail> {
    let regions = [
        Region { addr: 0, len: 8192 },
        Region {
            addr: 8192,
            len: 1_000_000,
        },
    ];
    let mut mem = Memory::new(rt.alloc(), &regions).map_err(|_| "two regions that touch")?;
    let mut room = Segments::new(rt.alloc())?;
    put_field(&mut mem, 66, 1);
    put(&mut mem, 0, 8176, 32, INDIRECT, 0);
    put(&mut mem, 8176, 8190, 4, NEXT, 1);
    put(&mut mem, 8192, 8190, 4, 0, 0);
    assert_eq!(rt;
        fetched(&mem, &ring_of(1, false, true), 0, &mut room),
        Some(GOOD)
    );
    assert_eq!(rt; room.list().len(), 2);
    let mut large = ring_of(32_768, false, false);
    large.desc = 16_384;
    large.avail = 540_672;
    large.used = 606_214;
    put_field(&mut mem, 540_674, 2);
    put_field(&mut mem, 540_678, 32_767);
    put(&mut mem, 16_384 + 16 * 32_767, 0, 1, 0, 0);
    assert_eq!(rt;
        fetched(&mem, &large, 1, &mut room),
        Some(Fetched::Chain { head: 32_767 })
    );
    assert_eq!(rt; is_good(&mem, &ring_of(3, false, true)), false);
    assert_eq!(rt; is_good(&mem, &ring_of(0, false, true)), false);
    large.used = 900_000;
    assert_eq!(rt; is_good(&mem, &large), false);
    Ok(())
}

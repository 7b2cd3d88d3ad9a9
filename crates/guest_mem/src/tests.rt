use super::*;
use std::test::Fail;

fn region(addr: u64, len: u64) -> Region {
    Region { addr, len }
}

#[test]
fn refusals_in_order(rt: HostRuntime) {
    let last = u64::MAX;
    let cases: [(&[Region], u8); 9] = [
        (&[region(0, 4096), region(4095, 1)], 2),
        (&[region(8, 8), region(0, 9)], 2),
        (&[region(0, 0), region(last, 1)], 4),
        (&[region(last, 1), region(0, 0)], 3),
        (&[region(1, last)], 3),
        (&[region(0, last)], 5),
        (&[region(0, 16_777_216), region(16_777_216, 1)], 5),
        (&[region(0, 16_777_216), region(5, 1)], 2),
        (&[region(0, 0); 65], 1),
    ];
    for (regions, number) in cases {
        match Memory::new(rt.alloc(), regions) {
            Ok(_) => assert!(rt; false, "{number}"),
            Err(fault) => assert_eq!(rt; fault.number(), number),
        }
    }
}

#[test]
fn reads_and_writes_over_touching_regions(rt: HostRuntime) -> Result<(), Fail> {
    let regions = [region(4096, 4096), region(0, 4096), region(u64::MAX - 2, 2)];
    let mut memory = Memory::new(rt.alloc(), &regions)?;
    let mut room = [7u8; 8];
    memory.read(4092, &mut room).map_err(|_| "inside")?;
    assert_eq!(rt; room, [0; 8]);
    memory
        .write(4092, &[1, 2, 3, 4, 5, 6, 7, 8])
        .map_err(|_| "inside")?;
    memory.read(4093, &mut room).map_err(|_| "inside")?;
    assert_eq!(rt; room, [2, 3, 4, 5, 6, 7, 8, 0]);
    assert_eq!(rt;
        memory.write(8190, &[9; 8]),
        Err(OutOfRange { first_bad: 8192 })
    );
    assert_eq!(rt;
        memory.read(8190, &mut room),
        Err(OutOfRange { first_bad: 8192 })
    );
    assert_eq!(rt; room, [2, 3, 4, 5, 6, 7, 8, 0]);
    memory.read(8184, &mut room).map_err(|_| "inside")?;
    assert_eq!(rt; room, [0; 8]);
    Ok(())
}

#[test]
fn bytes_and_stretches_over_touching_regions(rt: HostRuntime) -> Result<(), Fail> {
    let regions = [region(16, 8), region(4, 2), region(8, 8)];
    let mut memory = Memory::new(rt.alloc(), &regions)?;
    memory.write(14, &[1, 2, 3]).map_err(|_| "inside")?;
    for (addr, len, bytes) in [
        (14, 3, Ok(&[1u8, 2, 3][..])),
        (15, 2, Ok(&[2, 3])),
        (4, 2, Ok(&[0, 0])),
        (24, 0, Ok(&[])),
        (22, 3, Err(OutOfRange { first_bad: 24 })),
        (5, 4, Err(OutOfRange { first_bad: 6 })),
    ] {
        assert_eq!(rt; memory.bytes(addr, len), bytes, "{addr} {len}");
    }
    for (addr, stretch) in [
        (7, None),
        (8, Some(region(8, 16))),
        (23, Some(region(8, 16))),
        (24, None),
        (5, Some(region(4, 2))),
    ] {
        assert_eq!(rt; memory.stretch_around(addr), stretch, "{addr}");
    }
    Ok(())
}

#[test]
fn ranges_that_would_wrap(rt: HostRuntime) -> Result<(), Fail> {
    let memory = Memory::new(rt.alloc(), &[region(u64::MAX - 2, 2), region(16, 8)])?;
    let mut room = [7u8; 8];
    let last = u64::MAX;
    assert_eq!(rt;
        memory.read(last - 1, &mut room),
        Err(OutOfRange { first_bad: last })
    );
    assert_eq!(rt;
        memory.read(last, &mut room),
        Err(OutOfRange { first_bad: last })
    );
    assert_eq!(rt; memory.read(9, &mut room), Err(OutOfRange { first_bad: 9 }));
    assert_eq!(rt; memory.read(last, &mut room[..0]), Ok(()));
    for (addr, len, covered) in [
        (16, 8, true),
        (16, 9, false),
        (15, 1, false),
        (last - 2, 2, true),
        (last - 2, 3, false),
        (last - 2, last, false),
        (last, 0, true),
        (5, 0, true),
    ] {
        assert_eq!(rt; memory.covers(addr, len), covered, "{addr} {len}");
    }
    Ok(())
}

use super::*;
use guest_mem::{Memory, Region};
use std::test::Fail;

// A ring of four: what fits goes out, what doesn't is refused, and nothing comes back that wasn't used.
#[test]
fn four_descriptors(rt: HostRuntime) -> Result<(), Fail> {
    let regions = [Region {
        addr: 0,
        len: 16_384,
    }];
    let mut mem = Memory::new(rt.alloc(), &regions)?;
    let mut driver = PackedDriver::new(rt.alloc(), &mem, 0, 4).map_err(|_| "there")?;
    assert!(rt; driver.has_area(&mem));
    assert_eq!(rt;
        driver.post_in(&mut mem, &[64, 2049]),
        Err(PostErr::TooLong { len: 2049 })
    );
    assert!(rt; driver.has_area(&mem));
    assert_eq!(rt; driver.post_in(&mut mem, &[64, 2048, 0]), Ok(0));
    assert!(rt; driver.has_area(&mem));
    assert_eq!(rt;
        driver.post_out(&mut mem, &[7; 2049]),
        Err(PostErr::Full { need: 2, free: 1 })
    );
    assert!(rt; driver.has_area(&mem));
    assert_eq!(rt; driver.post_out(&mut mem, &[]), Ok(1));
    assert_eq!(rt; driver.free(), 0);
    assert!(rt; driver.has_area(&mem));
    assert_eq!(rt; driver.harvest(&mut mem).map_err(|_| "lawful")?.len(), 0);
    Ok(())
}

// A device uses a chain: behind the address of the descriptor in an entry stand then the length, the id
// and the flags, AVAIL and USED with the wrap counter on.
fn mark_used(mem: &mut Memory, entry: u16, id: u8, len: u8) -> Result<(), Fail> {
    Ok(
        mem.write(
            16 * u64::from(entry) + 8,
            &[len, 0, 0, 0, id, 0, 0x80, 0x80],
        )
        .map_err(|_| "there")?,
    )
}

// Chains of both kinds go out and come back, each with its id and length, and all descriptors are free then.
#[test]
fn two_come_back(rt: HostRuntime) -> Result<(), Fail> {
    let regions = [Region {
        addr: 0,
        len: 16_384,
    }];
    let mut mem = Memory::new(rt.alloc(), &regions)?;
    let mut driver = PackedDriver::new(rt.alloc(), &mem, 0, 4).map_err(|_| "there")?;
    assert!(rt; driver.has_area(&mem));
    assert_eq!(rt; driver.post_out(&mut mem, &[7]), Ok(0));
    assert!(rt; driver.has_area(&mem));
    assert_eq!(rt; driver.post_in(&mut mem, &[64]), Ok(1));
    mark_used(&mut mem, 0, 0, 0)?;
    assert!(rt; driver.has_area(&mem));
    assert_eq!(rt;
        driver.harvest(&mut mem).map_err(|_| "lawful")?.as_slice(),
        &[(0, 0)][..]
    );
    mark_used(&mut mem, 1, 1, 5)?;
    assert!(rt; driver.has_area(&mem));
    assert_eq!(rt;
        driver.harvest(&mut mem).map_err(|_| "lawful")?.as_slice(),
        &[(1, 5)][..]
    );
    assert_eq!(rt; driver.free(), 4);
    let mut byte = [0u8; 1];
    mem.read(80, &mut byte).map_err(|_| "there")?;
    assert_eq!(rt; byte, [7]);
    Ok(())
}

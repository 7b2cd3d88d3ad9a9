//! A driver with four descriptors meets each of its answers.
use super::*;
use guest_mem::{Memory, Region};
use std::test::Fail;

// Flags 0, index 2, and the entries (0, 9) and (3, 0), of which the second one isn't out.
const USED: [u8; 16] = [0, 0, 2, 0, 0, 0, 0, 0, 9, 0, 0, 0, 3, 0, 0, 0];

#[test]
fn posts_and_harvests(rt: HostRuntime) -> Result<(), Fail> {
    let regions = [Region {
        addr: 0,
        len: 16384,
    }];
    let mut mem = Memory::new(rt.alloc(), &regions)?;
    let num = 4u16;
    assert!(rt; num.is_power_of_two());
    assert!(rt; Driver::new(rt.alloc(), &mem, 8, num, true).is_err());
    let mut driver = Driver::new(rt.alloc(), &mem, 0, num, true)?;
    let ring = driver.layout(false, true);
    assert_eq!(rt;
        driver.post_in(&mut mem, &[1; 5]),
        Err(PostErr::Full { need: 5, free: 4 })
    );
    assert_eq!(rt; driver.post_in(&mut mem, &[40]), Ok(0));
    assert!(rt; driver.has_area(&mem));
    assert_eq!(rt; driver.post_out(&mut mem, &[7; 2049]), Ok(1));
    assert!(rt; driver.has_area(&mem));
    let none = driver.harvest(&mut mem).map_err(|_| "lawful")?;
    assert!(rt; none.is_empty());
    mem.write(ring.used, &USED).map_err(|_| "inside")?;
    assert!(rt; driver.has_area(&mem));
    let stray = driver.harvest(&mut mem).err();
    assert!(rt; matches!(&stray, Some(OrMemory::Fault(StrayUsed { id: 3 }))));
    assert!(rt; driver.has_area(&mem));
    assert_eq!(rt; driver.post_in(&mut mem, &[40]), Ok(0));
    Ok(())
}

//! How long a post with its harvest, and a publication, take: chains of 1, 16 and 256 descriptors on
//! rings of 256 and of 4,096, and 1 and 64 used entries also on a ring of 32,768.
use anyhow::{Context, Result, ensure};
use guest_mem::{Memory, Region};
use std::alloc::Global;
use std::time::Instant;
use vhost_queue::Vq;
use vring_drive::Driver;
use vring_split::{Layout, UsedElem, le16_bytes_of};
use vring_walk::is_good;

/// How many bytes the memory has; the area of a ring of 4,096 fits.
const BYTES: u64 = 16_777_216;
/// How often a call is timed.
const ROUNDS: u32 = 2_000;

fn memory(alloc: Global) -> Result<Memory> {
    let regions = [Region {
        addr: 0,
        len: BYTES,
    }];
    Memory::new(alloc, &regions).context("regions")
}

// The device uses the chain of a head, as the entry of an index.
fn use_chain(mem: &mut Memory, used: u64, num: u16, index: u16, head: u16) {
    let entry = UsedElem {
        id: u32::from(head),
        len: 0,
    };
    let place = u64::from(index.checked_rem(num).unwrap_or(0));
    let _ = mem.write(used.saturating_add(4 + 8 * place), &entry.bytes());
    let _ = mem.write(
        used.saturating_add(2),
        &le16_bytes_of(index.wrapping_add(1)),
    );
}

// Posts a chain and harvests it, again and again: how many chains came back.
fn drive(
    mem: &mut Memory,
    driver: &mut Driver,
    num: u16,
    lens: &[u32],
    rounds: u32,
) -> Result<u32> {
    let used = driver.layout(false, true).used;
    let mut back = 0u32;
    ensure!(!lens.is_empty(), "no length");
    for i in 0..rounds {
        ensure!(driver.has_area(mem), "no area");
        let head = driver.post_in(mem, lens).context("post")?;
        use_chain(mem, used, num, (i % 65_536) as u16, head);
        ensure!(driver.has_area(mem), "no area");
        let found = driver.harvest(mem).context("harvest")?;
        back = back.saturating_add(found.len().min(1) as u32);
    }
    Ok(back)
}

// Serves, does and publishes so many chains, again and again: how many publications wanted a notice.
fn publish(mem: &mut Memory, vq: &mut Vq, entries: u16, rounds: u32) -> Result<u32> {
    let mut wanted = 0u32;
    for _ in 0..rounds {
        vq.ready_turn()?;
        for head in 0..entries {
            ensure!(vq.gathered() < 1024, "too many");
            vq.served();
            ensure!(vq.room() > 0, "no room");
            vq.done(head, 0);
        }
        ensure!(is_good(mem, &vq.layout()), "the layout is not good");
        if vq.publish(mem) {
            wanted = wanted.saturating_add(1);
        }
    }
    Ok(wanted)
}

fn run_driver<R: AllocGlobal + Print + std::rt::Clock>(
    rt: &R,
    num: u16,
    descriptors: usize,
    timed: bool,
) -> Result<()> {
    ensure!(num.is_power_of_two() && num <= 32768, "the queue size");
    let mut mem = memory(rt.alloc())?;
    let mut driver = Driver::new(rt.alloc(), &mem, 0, num, false).context("driver")?;
    let lens = vec![in rt.alloc(); 64u32; descriptors]?;
    let start = Instant::now(rt)?;
    let rounds = if timed { ROUNDS } else { 1 };
    let back = drive(&mut mem, &mut driver, num, &lens, rounds)?;
    let each = start.elapsed(rt)?.as_nanos() / u128::from(ROUNDS);
    if timed {
        rt.println(format_args!("ring {num} descriptors {descriptors} chains {back}: {each} ns"))?;
    } else {
        rt.println(format_args!("ring {num} descriptors {descriptors} chains {back}"))?;
    }
    Ok(())
}

fn run_publish<R: AllocGlobal + Print + std::rt::Clock>(
    rt: &R,
    num: u16,
    entries: u16,
    timed: bool,
) -> Result<()> {
    ensure!(num.is_power_of_two() && num <= 32768, "the queue size");
    let mut mem = memory(rt.alloc())?;
    let mut vq = Vq::new(rt.alloc(), true)?;
    vq.set_layout(Layout {
        num,
        desc: 0,
        avail: 1_048_576,
        used: 2_097_152,
        indirect: false,
        event: true,
        rx: true,
    });
    let start = Instant::now(rt)?;
    let rounds = if timed { ROUNDS } else { 1 };
    let wanted = publish(&mut mem, &mut vq, entries, rounds)?;
    let each = start.elapsed(rt)?.as_nanos() / u128::from(ROUNDS);
    if timed {
        rt.println(format_args!("ring {num} entries {entries} notices {wanted}: {each} ns"))?;
    } else {
        rt.println(format_args!("ring {num} entries {entries} notices {wanted}"))?;
    }
    Ok(())
}

/// Makes the runs, and prints what each did.
pub fn measure<R: AllocGlobal + Print + std::rt::Clock>(rt: &R, timed: bool) -> Result<()> {
    for num in [256, 4096] {
        for descriptors in [1, 16, 256] {
            run_driver(rt, num, descriptors, timed)?;
        }
    }
    for num in [256, 4096, 32_768] {
        for entries in [1, 64] {
            run_publish(rt, num, entries, timed)?;
        }
    }
    Ok(())
}

//! A driver and a device over one memory: 100,000 random posts, turns and harvests through a packed ring,
//! beside a plain list of the chains that went in. Each chain comes out of the device in its order, with
//! its id and its bytes, and comes back to the driver so. It prints how many there were.
#![tactic(auto)]

use anyhow::{Context, Result, bail, ensure};
use guest_mem::{Memory, Region};
use packed_drive::{PackedDriver, PostErr};
use std::alloc::Global;
use vring_packed::{PackedFetched, PackedLayout, PackedVq, Segments};

/// How many descriptors the ring of the random steps has, so that its end comes at any place of a chain.
const NUM: u16 = 13;
/// How many posts, turns and harvests there are together.
const STEPS: u32 = 100_000;
/// How many chains a turn serves at most.
const MOST_SERVED: u32 = 64;

/// A chain that was posted.
#[derive(Clone, Copy)]
struct Sent {
    id: u16,
    len: usize,
    byte: u8,
}

/// The two sides, and the plain list beside them: all chains that were posted, of which so many were
/// served, and so many came back.
#[derive(Drop)]
struct Sides {
    driver: PackedDriver,
    vq: PackedVq,
    room: Segments,
    sent: Vec<Sent>,
    served: usize,
    back: usize,
    refused: u32,
}

/// The next number of a sequence.
fn random(x: &mut u64, below: u64) -> u64 {
    *x = x
        .wrapping_mul(6_364_136_223_846_793_005)
        .wrapping_add(1_442_695_040_888_963_407);
    (*x >> 33).checked_rem(below).unwrap_or(0)
}

/// Posts some bytes, or is refused where too few descriptors are free.
fn post(sides: &mut Sides, mem: &mut Memory, alloc: Global, len: usize, byte: u8) -> Result<()> {
    let bytes = vec![in alloc; byte; len]?;
    ensure!(sides.driver.has_area(mem), "no area");
    match sides.driver.post_out(mem, &bytes) {
        Ok(id) => sides.sent.push(Sent { id, len, byte })?,
        Err(PostErr::Full { need, free }) => {
            ensure!(
                need > free && free == sides.driver.free(),
                "refused with room"
            );
            sides.refused = sides.refused.saturating_add(1);
        }
        Err(_) => bail!("not posted"),
    }
    Ok(())
}

/// Whether the segments in the room are so many bytes, each of them this one.
fn holds(room: &Segments, mem: &Memory, alloc: Global, sent: Sent) -> Result<bool> {
    let mut left = sent.len;
    for segment in room.list() {
        let mut bytes = vec![in alloc; 0u8; segment.len as usize]?;
        if bytes.len() > left || mem.read(segment.addr, &mut bytes).is_err() {
            return Ok(false);
        }
        if bytes.iter().any(|byte| *byte != sent.byte) {
            return Ok(false);
        }
        left = left.saturating_sub(bytes.len());
    }
    Ok(left == 0)
}

/// Serves the chain at the next place, if there is one: it is the next one of the list.
fn serve(sides: &mut Sides, mem: &Memory, alloc: Global) -> Result<bool> {
    sides.room.clear();
    ensure!(sides.vq.layout().is_good(mem), "the layout is not good");
    let id = match sides.vq.fetch(mem, &mut sides.room) {
        PackedFetched::Chain { id, .. } => id,
        PackedFetched::Nothing => return Ok(false),
        PackedFetched::Bad(fault) => bail!("fault {}", fault.number()),
        PackedFetched::Crowded => bail!("crowded"),
    };
    let sent = sides
        .sent
        .get(sides.served)
        .copied()
        .context("more chains than were posted")?;
    ensure!(sent.id == id, "another id");
    ensure!(holds(&sides.room, mem, alloc, sent)?, "other bytes");
    sides.served = sides.served.saturating_add(1);
    finish(&mut sides.vq, id)?;
    Ok(true)
}

/// The chain that was fetched is served and done.
fn finish(vq: &mut PackedVq, id: u16) -> Result<()> {
    ensure!(vq.gathered() < 1024 && vq.fetched().is_some(), "not served");
    vq.served();
    ensure!(
        vq.earliest().map(|chain| chain.id) == Some(id),
        "not the earliest"
    );
    ensure!(vq.room() > 0, "no room");
    vq.done(id, u32::from(id));
    Ok(())
}

/// Serves what is there, and publishes it.
fn turn(sides: &mut Sides, mem: &mut Memory, alloc: Global) -> Result<()> {
    sides.vq.ready_turn()?;
    for _ in 0..MOST_SERVED {
        if !serve(sides, mem, alloc)? {
            break;
        }
    }
    ensure!(sides.vq.layout().is_good(mem), "the layout is not good");
    ensure!(sides.vq.publish(mem), "no notice is wanted");
    Ok(())
}

/// Takes back what was used: the next ones of the list.
fn harvest(sides: &mut Sides, mem: &mut Memory) -> Result<()> {
    ensure!(sides.driver.has_area(mem), "no area");
    let found = sides.driver.harvest(mem).context("stray")?;
    for (id, len) in found.iter().copied() {
        let sent = sides
            .sent
            .get(sides.back)
            .copied()
            .context("more than were posted")?;
        ensure!(u32::from(sent.id) == id && id == len, "another id");
        sides.back = sides.back.saturating_add(1);
    }
    ensure!(sides.back == sides.served, "not all of them");
    Ok(())
}

/// A post, a turn or a harvest.
fn step(sides: &mut Sides, mem: &mut Memory, alloc: Global, x: &mut u64) -> Result<()> {
    match random(x, 4) {
        0 | 1 => {
            let len = random(x, 9_000) as usize;
            let byte = (random(x, 256) % 256) as u8;
            post(sides, mem, alloc, len, byte)
        }
        2 => turn(sides, mem, alloc),
        _ => harvest(sides, mem),
    }
}

/// A memory of one region.
fn memory(alloc: Global) -> Result<Memory> {
    let regions = [Region {
        addr: 0,
        len: 1_048_576,
    }];
    Memory::new(alloc, &regions).context("regions")
}

/// The two sides at their start, with a ring of so many descriptors.
fn start(mem: &Memory, alloc: Global, num: u16) -> Result<Sides> {
    ensure!(1 <= num && num <= 32_768, "the queue size");
    let driver = PackedDriver::new(alloc, mem, 0, num).context("driver")?;
    let ring: PackedLayout = driver.layout(true, false, false);
    ensure!(1 <= ring.num && ring.num <= 32_768, "the queue size");
    Ok(Sides {
        vq: PackedVq::new(alloc, ring)?,
        driver,
        room: Segments::new(alloc)?,
        sent: Vec::new(alloc),
        served: 0,
        back: 0,
        refused: 0,
    })
}

/// A ring of three: posts, turns and a harvest, after which the lowest id goes out again and the ring's
/// end was passed.
fn around_three(alloc: Global) -> Result<()> {
    let mut mem = memory(alloc)?;
    let mut sides = start(&mem, alloc, 3)?;
    for step in "ptpptHpt".bytes() {
        match step {
            b'p' => post(&mut sides, &mut mem, alloc, 1, b'a')?,
            b't' => turn(&mut sides, &mut mem, alloc)?,
            _ => harvest(&mut sides, &mut mem)?,
        }
    }
    let published = [(0, 0, 0), (1, 1, 1), (2, 2, 2), (3, 0, 0)];
    ensure!(sides.vq.journal() == &published[..], "other chains");
    ensure!(sides.back == 3, "not three");
    Ok(())
}

fn main(rt: HostRuntime) -> Result<()> {
    around_three(rt.alloc())?;
    let mut mem = memory(rt.alloc())?;
    let mut sides = start(&mem, rt.alloc(), NUM)?;
    let mut x = 1;
    for _ in 0..STEPS {
        step(&mut sides, &mut mem, rt.alloc(), &mut x)?;
    }
    turn(&mut sides, &mut mem, rt.alloc())?;
    harvest(&mut sides, &mut mem)?;
    ensure!(sides.back == sides.sent.len(), "a chain is lost");
    ensure!(
        sides.vq.journal().len() == sides.sent.len(),
        "not all are published"
    );
    println!(rt;
        "steps {STEPS} chains {} refused {}",
        sides.sent.len(),
        sides.refused
    )?;
    Ok(())
}

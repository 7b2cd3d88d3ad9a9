//! How long a fetch from a packed ring takes: chains of 1, 16 and 256 descriptors, along NEXT and through an indirect
//! table, in a memory of 1 and of 64 regions.
use anyhow::{Context, Result, ensure};
use guest_mem::{Memory, Region};
use std::alloc::Global;
use std::rt::Clock;
use std::time::Instant;
use vring_packed::{PackedDesc, PackedFetched, PackedLayout, Place, Segments, fetch};

/// NEXT, INDIRECT and AVAIL.
const NEXT: u16 = 1;

const INDIRECT: u16 = 4;

const AVAIL: u16 = 128;

/// How many bytes the memory has, in however many regions.
const BYTES: u64 = 1_048_576;
/// Where the indirect table starts.
const TABLE: u64 = 16_384;
/// Where the first segment starts; each has 2,048 bytes.
const DATA: u64 = 65_536;
/// How often a chain is fetched.
const ROUNDS: u32 = 20_000;

/// A ring of 256 descriptors, which the device reads.
const RING: PackedLayout = PackedLayout {
    num: 256,
    ring: 0,
    driver: 4096,
    device: 4100,
    indirect: true,
    event: false,
    rx: false,
};

fn memory(alloc: Global, regions: u64) -> Result<Memory> {
    let mut list = Vec::new(alloc);
    let len = BYTES.checked_div(regions).context("no region")?;
    for i in 0..regions {
        list.push(Region {
            addr: i.saturating_mul(len),
            len,
        })?;
    }
    Memory::new(alloc, &list).context("regions")
}

// A chain of so many descriptors, in the ring or the table that starts at an address.
fn write_chain(mem: &mut Memory, at: u64, descriptors: u16) {
    for i in 0..descriptors {
        let last = i + 1 == descriptors;
        let desc = PackedDesc {
            addr: DATA + 2048 * u64::from(i),
            len: 2048,
            id: 0,
            flags: if last { AVAIL } else { AVAIL + NEXT },
        };
        let _ = mem.write(at.saturating_add(16 * u64::from(i)), &desc.bytes());
    }
}

fn refer_to_table(mem: &mut Memory, descriptors: u16) {
    let desc = PackedDesc {
        addr: TABLE,
        len: 16 * u32::from(descriptors),
        id: 0,
        flags: AVAIL + INDIRECT,
    };
    let _ = mem.write(0, &desc.bytes());
}

// How many segments the chain has, fetched again and again.
fn fetch_often(mem: &Memory, room: &mut Segments, rounds: u32) -> Result<usize> {
    let ring = RING;
    ensure!(ring.is_good(mem), "the layout is not good");
    for _ in 0..rounds {
        room.clear();
        match fetch(mem, &ring, Place::first(), room) {
            PackedFetched::Chain { .. } => {}
            _ => ensure!(false, "no chain"),
        }
    }
    Ok(room.list().len())
}

// The chain of a case, in its memory.
fn chain(alloc: Global, regions: u64, descriptors: u16, table: bool) -> Result<Memory> {
    let mut mem = memory(alloc, regions)?;
    if table {
        write_chain(&mut mem, TABLE, descriptors);
        refer_to_table(&mut mem, descriptors);
    } else {
        write_chain(&mut mem, 0, descriptors);
    }
    Ok(mem)
}

fn measure_chain<R: AllocGlobal + Print + Clock>(
    rt: &R,
    regions: u64,
    descriptors: u16,
    table: bool,
    timed: bool,
) -> Result<()> {
    let mem = chain(rt.alloc(), regions, descriptors, table)?;
    let mut room = Segments::new(rt.alloc())?;
    let way = if table { "table" } else { "next" };
    let start = Instant::now(rt)?;
    let rounds = if timed { ROUNDS } else { 1 };
    let segments = fetch_often(&mem, &mut room, rounds)?;
    let each = start.elapsed(rt)?.as_nanos() / u128::from(ROUNDS);
    if timed {
        println!(rt; "regions {regions} {way} segments {segments}: {each} ns")?;
    } else {
        println!(rt; "regions {regions} {way} segments {segments}")?;
    }
    Ok(())
}

/// Fetches each chain, and prints what was found.
pub fn measure<R: AllocGlobal + Print + Clock>(rt: &R, timed: bool) -> Result<()> {
    for regions in [1, 64] {
        for table in [false, true] {
            for descriptors in [1, 16, 256] {
                measure_chain(rt, regions, descriptors, table, timed)?;
            }
        }
    }
    Ok(())
}

//! How long a fetch takes: chains of 1, 16 and 256 descriptors, along NEXT and through an indirect
//! table, in a memory of 1 region, of 64 that touch, and of 64 with gaps between them.
use anyhow::{Context, Result, ensure};
use guest_mem::{Memory, Region};
use std::alloc::Global;
use std::time::Instant;
use vring_split::{Desc, Layout, le16_bytes_of};
use vring_walk::{Fetched, Segments, fetch, is_good};

const NEXT: u16 = 1;

const INDIRECT: u16 = 4;

/// How many pieces the memory has, each of so many bytes: they are one region or one region each.
const PIECES: u64 = 64;

const PIECE: u64 = 16_384;
/// In which piece the indirect table starts, and in which the first segment; a piece has eight segments.
const TABLE: u64 = 1;

const DATA: u64 = 4;
/// How often a chain is fetched.
const ROUNDS: u32 = 20_000;

/// How the memory lies.
#[derive(Clone, Copy)]
struct Shape {
    name: &'static str,
    regions: u64,
    /// How many bytes lie between the starts of two pieces.
    stride: u64,
}

fn memory(alloc: Global, shape: &Shape) -> Result<Memory> {
    let mut list = Vec::new(alloc);
    let pieces = PIECES.checked_div(shape.regions).context("no region")?;
    for i in 0..shape.regions {
        list.push(Region {
            addr: i.saturating_mul(shape.stride),
            len: pieces.saturating_mul(PIECE),
        })?;
    }
    Memory::new(alloc, &list).context("regions")
}

// A chain of so many descriptors, in the table that starts at an address.
fn write_chain(mem: &mut Memory, shape: &Shape, at: u64, descriptors: u16) {
    for i in 0..descriptors {
        let last = i + 1 == descriptors;
        let piece = DATA + u64::from(i / 8);
        let desc = Desc {
            addr: piece
                .saturating_mul(shape.stride)
                .saturating_add(2048 * u64::from(i % 8)),
            len: 2048,
            flags: if last { 0 } else { NEXT },
            next: i + 1,
        };
        let _ = mem.write(at.saturating_add(16 * u64::from(i)), &desc.bytes());
    }
}

fn refer_to_table(mem: &mut Memory, table: u64, descriptors: u16) {
    let desc = Desc {
        addr: table,
        len: 16 * u32::from(descriptors),
        flags: INDIRECT,
        next: 0,
    };
    let _ = mem.write(0, &desc.bytes());
}

// How many segments the chain has, fetched again and again.
fn fetch_often(mem: &Memory, ring: &Layout, room: &mut Segments, rounds: u32) -> Result<usize> {
    ensure!(is_good(mem, ring), "the layout is not good");
    for _ in 0..rounds {
        room.clear();
        match fetch(mem, ring, 0, room) {
            Fetched::Chain { .. } => {}
            other => ensure!(false, "{other:?}"),
        }
    }
    Ok(room.list().len())
}

fn run<R: AllocGlobal + Print + std::rt::Clock>(
    rt: &R,
    shape: &Shape,
    descriptors: u16,
    table: bool,
    timed: bool,
) -> Result<()> {
    let ring = Layout {
        num: 256,
        desc: 0,
        avail: 4096,
        used: 8192,
        indirect: true,
        event: false,
        rx: false,
    };
    let mut mem = memory(rt.alloc(), shape)?;
    let mut room = Segments::new(rt.alloc())?;
    let _ = mem.write(4098, &le16_bytes_of(1));
    if table {
        let at = TABLE.saturating_mul(shape.stride);
        write_chain(&mut mem, shape, at, descriptors);
        refer_to_table(&mut mem, at, descriptors);
    } else {
        write_chain(&mut mem, shape, 0, descriptors);
    }
    let way = if table { "table" } else { "next" };
    let start = Instant::now(rt)?;
    let rounds = if timed { ROUNDS } else { 1 };
    let segments = fetch_often(&mem, &ring, &mut room, rounds)?;
    let each = start.elapsed(rt)?.as_nanos() / u128::from(ROUNDS);
    if timed {
        rt.println(format_args!("{} {way} segments {segments}: {each} ns", shape.name))?;
    } else {
        rt.println(format_args!("{} {way} segments {segments}", shape.name))?;
    }
    Ok(())
}

/// Fetches each chain, and prints what was found.
pub fn measure<R: AllocGlobal + Print + std::rt::Clock>(rt: &R, timed: bool) -> Result<()> {
    let shapes = [
        Shape {
            name: "regions 1",
            regions: 1,
            stride: PIECE,
        },
        Shape {
            name: "regions 64",
            regions: 64,
            stride: PIECE,
        },
        Shape {
            name: "apart 64",
            regions: 64,
            stride: PIECE + 4096,
        },
    ];
    for shape in &shapes {
        for table in [false, true] {
            for descriptors in [1, 16, 256] {
                run(rt, shape, descriptors, table, timed)?;
            }
        }
    }
    Ok(())
}

//! A ring whose driver offers 256 chains again and again.
use anyhow::{Context, Result, ensure};
use guest_mem::{Memory, Region};
use std::alloc::Global;
use vhost_queue::Vq;
use vring_split::{Desc, Layout, le16_bytes_of};
use vring_walk::is_good;

const NEXT: u16 = 1;

const WRITE: u16 = 2;

/// The parts of the ring, which has room for 256 chains of four descriptors.
const LAYOUT: Layout = Layout {
    num: 1024,
    desc: 0,
    avail: 32_768,
    used: 65_536,
    indirect: true,
    event: true,
    rx: false,
};

/// Where the bytes of the chains stand; each chain has 2,048 of them.
const DATA: u64 = 1_048_576;

/// The size of the header in front of each frame.
pub const HDR: u16 = 12;

/// What goes through the ring: frames of this length, received or sent, in chains of so many descriptors.
#[derive(Clone, Copy, Debug)]
pub struct Packets {
    pub rx: bool,
    pub len: u16,
    pub parts: u16,
}

#[derive(Drop)]
pub struct Ring {
    pub packets: Packets,
    pub mem: Memory,
    pub vq: Vq,
    index: u16,
}

impl Packets {
    /// How many bytes each descriptor has.
    pub fn part(&self) -> u32 {
        u32::from(HDR)
            .saturating_add(u32::from(self.len))
            .checked_div(u32::from(self.parts))
            .unwrap_or(0)
    }

    /// The address of a part of a chain's bytes.
    pub fn addr(&self, chain: u16, part: u16) -> u64 {
        let before = u64::from(part).saturating_mul(u64::from(self.part()));
        DATA + 2048 * u64::from(chain) + before % 2048
    }
}

fn put(mem: &mut Memory, addr: u64, bytes: &[u8]) -> Result<()> {
    mem.write(addr, bytes).ok().context("outside of the memory")
}

// A descriptor of a chain.
fn put_part(mem: &mut Memory, packets: Packets, chain: u16, part: u16) -> Result<()> {
    let index = chain.wrapping_mul(packets.parts).wrapping_add(part);
    let next = if part.wrapping_add(1) < packets.parts {
        NEXT
    } else {
        0
    };
    let write = if packets.rx { WRITE } else { 0 };
    let desc = Desc {
        addr: packets.addr(chain, part),
        len: packets.part(),
        flags: next | write,
        next: index.wrapping_add(1),
    };
    put(mem, 16 * u64::from(index), &desc.bytes())
}

// The descriptors of a chain, with a frame behind a header of zeros.
fn put_chain(mem: &mut Memory, packets: Packets, chain: u16) -> Result<()> {
    for part in 0..packets.parts {
        put_part(mem, packets, chain, part)?;
    }
    put(mem, packets.addr(chain, 0).saturating_add(24), &[8])
}

// The available ring, whose entries are the chains again and again.
fn put_entries(mem: &mut Memory, parts: u16) -> Result<()> {
    for place in 0..1024u16 {
        let head = (place % 256).wrapping_mul(parts);
        let addr = LAYOUT.avail.saturating_add(4 + 2 * u64::from(place));
        put(mem, addr, &le16_bytes_of(head))?;
    }
    Ok(())
}

impl Ring {
    pub fn new(alloc: Global, packets: Packets) -> Result<Ring> {
        let regions = [Region {
            addr: 0,
            len: 2_097_152,
        }];
        let mut mem = Memory::new(alloc, &regions).context("regions")?;
        for chain in 0..256 {
            put_chain(&mut mem, packets, chain)?;
        }
        put_entries(&mut mem, packets.parts)?;
        let mut vq = Vq::new(alloc, packets.rx)?;
        let layout = Layout {
            rx: packets.rx,
            ..LAYOUT
        };
        ensure!(
            is_good(&mem, &layout) && vq.is_idle(),
            "the layout is not good"
        );
        vq.set_layout(layout);
        Ok(Ring {
            packets,
            mem,
            vq,
            index: 0,
        })
    }

    /// Makes 256 more chains available.
    pub fn offer(&mut self) -> Result<()> {
        self.index = self.index.wrapping_add(256);
        put(
            &mut self.mem,
            LAYOUT.avail.saturating_add(2),
            &le16_bytes_of(self.index),
        )
    }
}

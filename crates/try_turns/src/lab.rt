//! A guest's memory, a vhost, and a queue of frames.
ghost use Rattle.std.specs.Prelude.{Bool, IsTrue};
ghost use Rattle.vhost_dev.specs.Calls.{IsIdleRing};
ghost use Rattle.vhost_dev.specs.Settings.{ring_of};

use anyhow::{Context, Result, bail, ensure};
use guest_mem::{Memory, Region};
use std::alloc::{AllocError, Global};
use std::mem;
use tap_frame::{Name, Shape, read_frame};
use tap_ledger::MemQueue;
use vhost_dev::VhostDev;
use vring_split::{Desc, le16_bytes_of};

const NEXT: u16 = 1;

/// The addresses and the type of a frame.
const ETHERNET: [u8; 14] = [2, 0, 0, 0, 0, 1, 2, 0, 0, 0, 0, 2, 8, 0];

/// Where the chains of `chains` have their bytes.
const SENT: u64 = 32_768;

pub struct Lab {
    pub mem: Memory,
    pub dev: VhostDev,
    pub queue: MemQueue,
    // How many frames came.
    came: u32,
}

// The number at a place of those behind a word.
fn at(numbers: &[u64], place: usize) -> Result<u64> {
    numbers.get(place).copied().context("too few numbers")
}

fn at16(numbers: &[u64], place: usize) -> Result<u16> {
    Ok((at(numbers, place)? % 65_536) as u16)
}

fn memory(alloc: Global) -> Result<Memory> {
    let regions = [Region {
        addr: 0,
        len: 65_536,
    }];
    Memory::new(alloc, &regions).context("regions")
}

fn queue(alloc: Global) -> MemQueue {
    MemQueue::new(alloc, 0, Vec::new(alloc), 64)
}

fn put(mem: &mut Memory, addr: u64, bytes: &[u8]) -> Result<()> {
    mem.write(addr, bytes).ok().context("outside of the memory")
}

fn put_desc(mem: &mut Memory, addr: u64, desc: Desc) -> Result<()> {
    put(mem, addr, &desc.bytes())
}

// An entry of the available ring at an address.
fn put_entry(mem: &mut Memory, avail: u64, place: u64, head: u16) -> Result<()> {
    let addr = avail
        .saturating_add(4)
        .saturating_add(place.saturating_mul(2));
    put(mem, addr, &le16_bytes_of(head))
}

fn put_index(mem: &mut Memory, avail: u64, index: u16) -> Result<()> {
    put(mem, avail.saturating_add(2), &le16_bytes_of(index))
}

// Whether nothing of either ring is served and not published.
fn is_idle(dev: &VhostDev) -> bool
    ensures each { IsTrue result → (rx : Bool) → IsIdleRing (ring_of rx dev.now.settings) }
    ensures rx { IsTrue result → IsIdleRing dev.now.settings.rx }
    ensures tx { IsTrue result → IsIdleRing dev.now.settings.tx }
{
    dev.queue(true).is_idle() && dev.queue(false).is_idle()
}

// The sum of the bits of these numbers.
fn features_of(bits: &[u64]) -> u64 {
    let mut features = 0;
    for &bit in bits {
        features |= 1u64.checked_shl((bit % 64) as u32).unwrap_or(0);
    }
    features
}

impl Lab {
    pub fn new(alloc: Global) -> Result<Lab> {
        Ok(Lab {
            mem: memory(alloc)?,
            dev: VhostDev::new(alloc)?,
            queue: queue(alloc),
            came: 0,
        })
    }

    pub fn abandon(self) {
        let Lab {
            mem: _,
            dev: _,
            queue,
            came: _,
        } = self;
        queue.abandon();
    }

    /// A new memory, and a vhost with these features.
    pub fn renew(&mut self, alloc: Global, bits: &[u64]) -> Result<()> {
        self.mem = memory(alloc)?;
        self.dev = VhostDev::new(alloc)?;
        self.came = 0;
        self.purge(alloc);
        ensure!(is_idle(&self.dev), "a turn is under way");
        Ok(self.dev.set_features(features_of(bits))?)
    }

    pub fn put_desc(&mut self, numbers: &[u64]) -> Result<()> {
        let desc = Desc {
            addr: at(numbers, 1)?,
            len: (at(numbers, 2)? % 4_294_967_296) as u32,
            flags: at16(numbers, 3)?,
            next: at16(numbers, 4)?,
        };
        put_desc(&mut self.mem, at(numbers, 0)?, desc)
    }

    pub fn put_table(&mut self, numbers: &[u64]) -> Result<()> {
        let table = at(numbers, 0)?;
        let count = at16(numbers, 1)?;
        for i in 0..count {
            let last = i == count - 1;
            let desc = Desc {
                addr: 0,
                len: 1,
                flags: if last { 0 } else { NEXT },
                next: i.wrapping_add(1),
            };
            put_desc(&mut self.mem, table.saturating_add(16 * u64::from(i)), desc)?;
        }
        Ok(())
    }

    pub fn put_frame(&mut self, numbers: &[u64]) -> Result<()> {
        let addr = at(numbers, 0)?.saturating_add(12);
        put(&mut self.mem, addr, &ETHERNET)
    }

    pub fn put_entry(&mut self, numbers: &[u64]) -> Result<()> {
        let head = at16(numbers, 2)?;
        put_entry(&mut self.mem, at(numbers, 0)?, at(numbers, 1)?, head)
    }

    pub fn put_index(&mut self, numbers: &[u64]) -> Result<()> {
        let index = at16(numbers, 1)?;
        put_index(&mut self.mem, at(numbers, 0)?, index)
    }

    pub fn put_chains(&mut self, numbers: &[u64]) -> Result<()> {
        let table = at(numbers, 0)?;
        let avail = at(numbers, 1)?;
        let count = at16(numbers, 2)?;
        let len = (at(numbers, 3)? % 4_294_967_296) as u32;
        for i in 0..count {
            let desc = Desc {
                addr: SENT,
                len,
                flags: 0,
                next: 0,
            };
            put_desc(&mut self.mem, table.saturating_add(16 * u64::from(i)), desc)?;
            put_entry(&mut self.mem, avail, u64::from(i), i)?;
        }
        put_index(&mut self.mem, avail, count)
    }

    pub fn set_up(&mut self, numbers: &[u64]) -> Result<()> {
        let ring = at16(numbers, 0)?;
        let (table, avail, used) = (at(numbers, 2)?, at(numbers, 3)?, at(numbers, 4)?);
        ensure!(is_idle(&self.dev), "a turn is under way");
        self.dev.set_num(ring, at(numbers, 1)?)?;
        ensure!(is_idle(&self.dev), "a turn is under way");
        self.dev.set_addr(ring, table, avail, used, &self.mem)?;
        self.set(numbers)
    }

    pub fn set(&mut self, numbers: &[u64]) -> Result<()> {
        let ring = at16(numbers, 0)?;
        ensure!(is_idle(&self.dev), "a turn is under way");
        self.dev.ready(ring, &self.mem)?;
        self.dev.set_backend(ring, 0, &self.mem);
        Ok(())
    }

    pub fn unset(&mut self, numbers: &[u64]) -> Result<()> {
        let ring = at16(numbers, 0)?;
        ensure!(is_idle(&self.dev), "a turn is under way");
        self.dev.unset_backend(ring)?;
        Ok(())
    }

    pub fn wait(&mut self, alloc: Global, numbers: &[u64]) -> Result<()> {
        for _ in 0..at16(numbers, 0)? {
            self.push_frame(alloc)?;
        }
        Ok(())
    }

    // One more frame of 60 bytes comes.
    fn push_frame(&mut self, alloc: Global) -> Result<()> {
        let mut bytes = [0u8; 60];
        bytes[..14].copy_from_slice(&ETHERNET);
        let plain = Shape {
            pi: false,
            hdr: None,
        };
        let name = Name {
            actor: 0,
            turn: self.came,
            part: 0,
        };
        self.came = self.came.wrapping_add(1);
        match read_frame(alloc, plain, name, &bytes) {
            Ok(frame) => Ok(self.queue.push(frame)?),
            Err(_) => bail!("no frame"),
        }
    }

    pub fn purge(&mut self, alloc: Global) {
        mem::replace(&mut self.queue, queue(alloc)).abandon();
    }

    pub fn show_fields<R: AllocGlobal + Print>(&self, rt: &R, addrs: &[u64]) -> Result<()> {
        rt.print(format_args!("look"))?;
        for &addr in addrs {
            let mut bytes = [0u8; 2];
            self.mem
                .read(addr, &mut bytes)
                .ok()
                .context("outside of the memory")?;
            rt.print(format_args!(" {addr}={}", u16::from_le_bytes(bytes)))?;
        }
        rt.println(format_args!(""))?;
        Ok(())
    }

    pub fn show_fates<R: AllocGlobal + Print>(&self, rt: &R) -> Result<()> {
        for out in self.queue.out() {
            rt.println(format_args!("out {}: {:?}", out.name.turn, out.fate))?;
        }
        Ok(())
    }

    pub fn show_positions<R: AllocGlobal + Print>(&self, rt: &R) -> Result<()> {
        let rx = self.dev.queue(true).position();
        let tx = self.dev.queue(false).position();
        rt.println(format_args!("positions {rx} {tx}"))?;
        Ok(())
    }
}

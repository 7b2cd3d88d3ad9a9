//! A lawful driver of a packed ring.
ghost use Rattle.std.specs.Prelude.{◌≡◌, ◌+◌, ◌<◌, ◌≤◌, ◌↔◌, IsTrue, IfOk, OnOk, OnErr, IsOkUnless, IsErrOf, IsOk, MatchOption, All, length};
ghost use Rattle.guest_mem.specs.Memory.{Contents, covers};
ghost use Rattle.vring_packed.specs.Packed.{IsGoodFor};
ghost use Rattle.vring_drive.specs.Posts.{piece_lens};
ghost use Rattle.packed_drive.specs.Area.{layout_at, drive_refusal};
ghost use Rattle.packed_drive.specs.Books.{HasArea, first_books, free_of, lowest, sent_out};
ghost use Rattle.packed_drive.specs.Posts.{full_refusal, post_in_refusal, post_out_refusal, filled, offered, posted_in, posted_out};
ghost use Rattle.packed_drive.specs.Harvests.{Answers, TakesBack, harvested};

use crate::area::{self, area_len};
use crate::ids::{count_at, lowest};
use crate::pieces::{first_too_long, piece_count, piece_lens};
use crate::read::{desc_at, is_used};
use crate::write::{Post, fill, link, write_desc};
use guest_mem::{Memory, range_laws};
use std::alloc::Global;
use std::marker::Model;
use vring_drive::{DriveErr, OrMemory, PostErr, StrayUsed};
use vring_packed::{PackedLayout, Place};

/// The largest count of descriptors that a refusal tells.
const MOST_TOLD: usize = 65_535;

/// A lawful driver of a packed ring.
#[derive(Drop)]
pub struct PackedDriver {
    alloc: Global,
    at: u64,
    num: u16,
    free: u16,
    out: Vec<Option<u16>>,
    next: Place,
    used: Place,
}

impl Model for PackedDriver {
    ghost use Rattle.packed_drive.specs.Books.{Books};

    ghost Value = { Books };

    ghost use Rattle.packed_drive.specs.Kept.{books_of, IsKept};

    ghost view = { books_of };

    ghost invariant = { IsKept };
}

impl PackedDriver {
    /// A driver whose ring and data begin at an address. It is refused where that isn't a multiple of
    /// 16, and else where a byte of the area is in no region.
    pub fn new(alloc: Global, mem: &Memory, at: u64, num: u16) -> Result<PackedDriver, DriveErr>
        requires some { 1 ≤ num }
        requires most { num ≤ 32768 }
        ensures refused { MatchOption (drive_refusal mem.now at num)
            (IsOkUnless result DriveErr.NoMemory) (IsErrOf result) }
        ensures books { IfOk result (λ d. d ≡ first_books at num) }
        ensures area { IfOk result (λ d. HasArea d mem.now) }
    {
        range_laws();
        if at % 16 != 0 {
            return Err(DriveErr::Unaligned);
        }
        if let Some(first_bad) = mem.first_bad(at, area_len(num)) {
            return Err(DriveErr::Outside { first_bad });
        }
        let out = vec![in alloc; None; usize::from(num)].map_err(|_| DriveErr::NoMemory)?;
        Ok(PackedDriver {
            alloc,
            at,
            num,
            free: num,
            out,
            next: Place::first(),
            used: Place::first(),
        })
    }

    /// The ring's layout, as the two sides agreed on indirect tables and events, and for this direction.
    pub fn layout(&self, indirect: bool, event: bool, rx: bool) -> PackedLayout
        ensures layout { result ≡ layout_at self.now.start self.now.num indirect event rx }
        ensures good { (m : Contents) → HasArea self.now m → IsGoodFor result (covers m.regions) }
    {
        range_laws();
        area::layout_at(self.at, self.num, indirect, event, rx)
    }

    /// Whether the whole area lies in a memory.
    pub fn has_area(&self, mem: &Memory) -> bool
        ensures { IsTrue result ↔ HasArea self.now mem.now }
    {
        mem.covers(self.at, area_len(self.num))
    }

    /// How many descriptors are free.
    pub fn free(&self) -> u16
        ensures { result ≡ free_of self.now }
    {
        self.free
    }

    // Refuses where fewer descriptors are free than are needed.
    fn check_free(&self, need: usize) -> Result<(), PostErr>
        ensures refused { MatchOption (full_refusal need self.now) (IsOk result) (IsErrOf result) }
        ensures enough { OnOk result (need ≤ free_of self.now) }
    {
        if usize::from(self.free) < need {
            return Err(PostErr::Full {
                need: need.min(MOST_TOLD) as u16,
                free: self.free,
            });
        }
        Ok(())
    }

    // The lowest id that no chain is out with.
    fn lowest_id(&self) -> u16
        requires { 0 < free_of self.now }
        ensures id { result ≡ lowest self.now.out }
        ensures inside { result < self.now.num }
    {
        lowest(&self.out) as u16
    }

    // A chain of so many descriptors goes out, with the lowest id.
    fn send_out(&mut self, id: u16, count: usize)
        requires some { 1 ≤ count }
        requires free { count ≤ free_of self.old }
        requires id { id ≡ lowest self.old.out }
        requires inside { id < self.old.num }
        ensures { self.new ≡ sent_out count self.old }
    {
        self.free = (usize::from(self.free) - count) as u16;
        let count = count as u16;
        self.out[usize::from(id)] = Some(count);
        self.next = self.next.after(self.num, count);
    }

    // Writes a chain at the next place.
    fn offer(&self, mem: &mut Memory, id: u16, writable: bool, lens: &[u32])
        requires some { 0 < length lens.now }
        requires id { id ≡ lowest self.now.out }
        requires area { HasArea self.now mem.old }
        ensures offered { mem.new ≡ offered self.now writable lens.now mem.old }
        ensures regions { mem.new.regions ≡ mem.old.regions }
    {
        let post = Post {
            start: self.at,
            num: self.num,
            id,
            writable,
        };
        link(mem, &post, self.next.after(self.num, 1), &lens[1..]);
        write_desc(mem, &post, &self.next, lens[0], lens.len() > 1);
    }

    // Writes a chain at the next place, and keeps it as out: its id.
    fn post(&mut self, mem: &mut Memory, writable: bool, lens: &[u32]) -> u16
        requires some { 0 < length lens.now }
        requires free { length lens.now ≤ free_of self.old }
        requires area { HasArea self.old mem.old }
        ensures id { result ≡ lowest self.old.out }
        ensures books { self.new ≡ sent_out (length lens.now) self.old }
        ensures memory { mem.new ≡ offered self.old writable lens.now mem.old }
        ensures regions { mem.new.regions ≡ mem.old.regions }
    {
        let id = self.lowest_id();
        self.offer(mem, id, writable, lens);
        self.send_out(id, lens.len());
        id
    }

    /// Makes a chain of writable pieces of these lengths available, and tells its id. It is refused
    /// where a length is above 2,048, and else where fewer descriptors are free than are needed.
    pub fn post_in(&mut self, mem: &mut Memory, lens: &[u32]) -> Result<u16, PostErr>
        requires some { 0 < length lens.now }
        requires area { HasArea self.old mem.old }
        ensures refused { MatchOption (post_in_refusal lens.now self.old) (IsOk result) (IsErrOf result) }
        ensures id { IfOk result (λ id. id ≡ lowest self.old.out) }
        ensures books { OnOk result (self.new ≡ sent_out (length lens.now) self.old) }
        ensures memory { OnOk result (mem.new ≡ posted_in self.old lens.now mem.old) }
        ensures unchanged { OnErr result (self.new ≡ self.old) }
        ensures memory_unchanged { OnErr result (mem.new ≡ mem.old) }
        ensures regions { mem.new.regions ≡ mem.old.regions }
    {
        if let Some(len) = first_too_long(lens) {
            return Err(PostErr::TooLong { len });
        }
        self.check_free(lens.len())?;
        Ok(self.post(mem, true, lens))
    }

    // Writes bytes into the data slots of the places from the next one on.
    fn fill(&self, mem: &mut Memory, lens: &[u32], bytes: &[u8])
        requires area { HasArea self.now mem.old }
        requires lens { All (λ n. n ≤ 2048) lens.now }
        ensures filled { mem.new ≡ filled self.now.start self.now.num self.now.next lens.now bytes.now mem.old }
        ensures regions { mem.new.regions ≡ mem.old.regions }
    {
        fill(mem, self.at, self.num, self.next, lens, bytes);
    }

    // The allocator.
    fn allocator(&self) -> Global {
        self.alloc
    }

    /// Makes a chain of readable pieces with these bytes available, 2,048 in each but the last, and
    /// tells its id. It is refused where fewer descriptors are free than are needed.
    pub fn post_out(&mut self, mem: &mut Memory, bytes: &[u8]) -> Result<u16, PostErr>
        requires { HasArea self.old mem.old }
        ensures refused { MatchOption (post_out_refusal (length bytes.now) self.old)
            (IsOkUnless result PostErr.NoMemory) (IsErrOf result) }
        ensures id { IfOk result (λ id. id ≡ lowest self.old.out) }
        ensures books { OnOk result (self.new ≡ sent_out (length (piece_lens (length bytes.now))) self.old) }
        ensures memory { OnOk result (mem.new ≡ posted_out self.old bytes.now mem.old) }
        ensures unchanged { OnErr result (self.new ≡ self.old) }
        ensures memory_unchanged { OnErr result (mem.new ≡ mem.old) }
        ensures regions { mem.new.regions ≡ mem.old.regions }
    {
        self.check_free(piece_count(bytes.len()))?;
        let lens = piece_lens(self.allocator(), bytes.len()).map_err(|_| PostErr::NoMemory)?;
        self.fill(mem, &lens, bytes);
        Ok(self.post(mem, false, &lens))
    }

    // The chain of the used descriptor at the driver's place comes back, if one is there: its id and length.
    fn take_back(&mut self, mem: &Memory) -> Result<Option<(u32, u32)>, StrayUsed>
        requires { HasArea self.old mem.now }
        ensures { TakesBack mem.now self.old result self.new }
    {
        let desc = desc_at(mem, self.at, self.num, self.used.at);
        if !is_used(&desc, self.used.wrap) {
            return Ok(None);
        }
        let Some(count) = count_at(&self.out, desc.id) else {
            return Err(StrayUsed {
                id: u32::from(desc.id),
            });
        };
        self.out[usize::from(desc.id)] = None;
        self.free += count;
        self.used = self.used.after(self.num, count);
        Ok(Some((u32::from(desc.id), desc.len)))
    }

    /// Takes back the chains of the used descriptors that are there, no more than the ring has, and
    /// tells the id and length of each. One whose id isn't out ends it; those before it stay taken back.
    pub fn harvest(&mut self, mem: &mut Memory) -> Result<Vec<(u32, u32)>, OrMemory<StrayUsed>>
        requires { HasArea self.old mem.old }
        ensures answer { Answers (harvested mem.old self.old) self.old self.new result }
        ensures memory { mem.new ≡ mem.old }
    {
        let num = self.num;
        let mut found = Vec::with_capacity(self.allocator(), usize::from(num)).map_err(
            |_| OrMemory::NoMemory,
        )?;
        for _ in 0..num {
            match self.take_back(mem) {
                Ok(Some(entry)) => found.push_reserved(entry),
                Ok(None) => return Ok(found),
                Err(stray) => return Err(OrMemory::Fault(stray)),
            }
        }
        Ok(found)
    }
}

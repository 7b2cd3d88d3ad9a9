//! A lawful driver of a split ring.
ghost use Rattle.std.specs.Prelude.{◌≡◌, ℕ, ◌+◌, ◌^◌, ◌<◌, ◌≤◌, ◌↔◌, All, IsTrue, IfOk, OnOk, OnErr, IsOkUnless, IsErrOf, MatchOption, Ok, length};
ghost use Rattle.std.specs.Int.{is_power_of_two};
ghost use Rattle.guest_mem.specs.Memory.{Contents, covers};
ghost use Rattle.vring_split.specs.Good.{IsGoodFor};
ghost use Rattle.vring_drive.specs.Area.{layout_at, drive_refusal};
ghost use Rattle.vring_drive.specs.Books.{HasArea, ring_of, first_books, chain_of, head_of, sent_out, IsSettledAs, ComesBack};
ghost use Rattle.vring_drive.specs.Posts.{full_refusal, post_in_refusal, post_out_refusal, piece_lens, posted_in, posted_out};
ghost use Rattle.vring_drive.specs.Harvests.{Answers, Unless, harvested, harvested_in};

use crate::area::{self, area_len};
use crate::error::{DriveErr, PostErr, StrayUsed};
use crate::free::{add_all, all_below, lowest, take_lowest};
use crate::pieces::{first_too_long, piece_count, piece_lens};
use crate::read::used_elem_at;
use crate::write::{fill, link, offer};
use guest_mem::{Memory, range_laws};
use sqlite_items::Items;
use std::alloc::{AllocError, Global};
use std::collections::{BTreeMap, BTreeSet};
use std::marker::Model;
use tap_ground::OrMemory;
use vring_split::Layout;

/// The largest count of descriptors that a refusal tells.
const MOST_TOLD: usize = 65_535;

/// A lawful driver of a split ring.
#[derive(Drop)]
pub struct Driver {
    alloc: Global,
    at: u64,
    num: u16,
    event: bool,
    free: BTreeSet<u16>,
    out: BTreeMap<u32, Items<u16>>,
    avail: u16,
    used: u16,
}

impl Model for Driver {
    ghost use Rattle.vring_drive.specs.Books.{Books};

    ghost Value = { Books };

    ghost use Rattle.vring_drive.specs.Kept.{books_of, IsKept};

    ghost view = { books_of };

    ghost invariant = { IsKept };
}

impl Driver {
    /// A driver whose ring and data begin at an address. It is refused where that isn't a multiple of
    /// 16, and else where a byte of the area is in no region.
    pub fn new(
        alloc: Global,
        mem: &Memory,
        at: u64,
        num: u16,
        event: bool,
    ) -> Result<Driver, DriveErr>
        requires power { IsTrue (is_power_of_two num) }
        requires most { num ≤ 32768 }
        ensures refused { MatchOption (drive_refusal mem.now at num)
            (IsOkUnless result DriveErr.NoMemory) (IsErrOf result) }
        ensures books { IfOk result (λ d. d ≡ first_books at num event) }
        ensures area { IfOk result (λ d. HasArea d mem.now) }
    {
        range_laws();
        if at % 16 != 0 {
            return Err(DriveErr::Unaligned);
        }
        if let Some(first_bad) = mem.first_bad(at, area_len(num)) {
            return Err(DriveErr::Outside { first_bad });
        }
        let free = all_below(alloc, num).map_err(|_| DriveErr::NoMemory)?;
        Ok(Driver {
            alloc,
            at,
            num,
            event,
            free,
            out: BTreeMap::new(alloc),
            avail: 0,
            used: 0,
        })
    }

    /// The ring's layout, as the two sides agreed on indirect tables, and for this direction.
    pub fn layout(&self, indirect: bool, rx: bool) -> Layout
        ensures layout { result ≡ layout_at self.now.start self.now.num self.now.event indirect rx }
        ensures good { (m : Contents) → HasArea self.now m → IsGoodFor result (covers m.regions) }
    {
        range_laws();
        area::layout_at(self.at, self.num, self.event, indirect, rx)
    }

    /// Whether the whole area lies in a memory.
    pub fn has_area(&self, mem: &Memory) -> bool
        ensures { IsTrue result ↔ HasArea self.now mem.now }
    {
        mem.covers(self.at, area_len(self.num))
    }

    // The place in the available ring.
    fn place(&self) -> u16
        ensures { result ≡ self.now.avail }
    {
        self.avail
    }

    // Whether so many descriptors are free.
    fn check_free(&self, need: usize) -> Result<(), PostErr>
        ensures refused { MatchOption (full_refusal need self.now) (result ≡ Ok tt) (IsErrOf result) }
        ensures free { OnOk result (need ≤ length self.now.free) }
    {
        if self.free.len() < need {
            return Err(PostErr::Full {
                need: need.min(MOST_TOLD) as u16,
                free: self.free.len().min(MOST_TOLD) as u16,
            });
        }
        Ok(())
    }

    // The lowest free descriptors go out as a chain.
    fn send_out(&mut self, need: usize) -> Result<Vec<u16>, AllocError>
        requires some { 0 < need }
        requires free { need ≤ length self.old.free }
        ensures chain { IfOk result (λ chain. chain.items ≡ chain_of need self.old) }
        ensures len { IfOk result (λ chain. length chain.items ≡ need) }
        ensures inside { IfOk result (λ chain. All (λ i. i < self.old.num) chain.items) }
        ensures books { OnOk result (self.new ≡ sent_out need self.old) }
        ensures unchanged { OnErr result (self.new ≡ self.old) }
    {
        let chain = lowest(self.alloc, &self.free, need)?;
        let kept = Items::from_slice(self.alloc, &chain)?;
        self.out.insert(u32::from(chain[0]), kept)?;
        take_lowest(&mut self.free, need);
        self.avail = self.avail.wrapping_add(1);
        Ok(chain)
    }

    /// Makes a chain of writable pieces of these lengths available, and tells its head. It is refused
    /// where a length is above 2,048, and else where fewer descriptors are free than are needed.
    pub fn post_in(&mut self, mem: &mut Memory, lens: &[u32]) -> Result<u16, PostErr>
        requires some { 0 < length lens.now }
        requires area { HasArea self.old mem.old }
        ensures refused { MatchOption (post_in_refusal lens.now self.old)
            (IsOkUnless result PostErr.NoMemory) (IsErrOf result) }
        ensures head { IfOk result (λ head. head ≡ head_of (chain_of (length lens.now) self.old)) }
        ensures books { OnOk result (self.new ≡ sent_out (length lens.now) self.old) }
        ensures memory { OnOk result (mem.new ≡ posted_in self.old lens.now mem.old) }
        ensures unchanged { OnErr result (self.new ≡ self.old) }
        ensures memory_unchanged { OnErr result (mem.new ≡ mem.old) }
        ensures regions { mem.new.regions ≡ mem.old.regions }
    {
        if let Some(len) = first_too_long(lens) {
            return Err(PostErr::TooLong { len });
        }
        self.check_free(lens.len())?;
        let ring = self.layout(false, false);
        let place = self.place();
        let chain = self.send_out(lens.len()).map_err(|_| PostErr::NoMemory)?;
        link(mem, &ring, true, &chain, lens);
        offer(mem, &ring, place, chain[0]);
        Ok(chain[0])
    }

    /// Makes a chain of readable pieces with these bytes available, 2,048 in each but the last, and
    /// tells its head. It is refused where fewer descriptors are free than are needed.
    pub fn post_out(&mut self, mem: &mut Memory, bytes: &[u8]) -> Result<u16, PostErr>
        requires { HasArea self.old mem.old }
        ensures refused { MatchOption (post_out_refusal (length bytes.now) self.old)
            (IsOkUnless result PostErr.NoMemory) (IsErrOf result) }
        ensures head { IfOk result
            (λ head. head ≡ head_of (chain_of (length (piece_lens (length bytes.now))) self.old)) }
        ensures books { OnOk result (self.new ≡ sent_out (length (piece_lens (length bytes.now))) self.old) }
        ensures memory { OnOk result (mem.new ≡ posted_out self.old bytes.now mem.old) }
        ensures unchanged { OnErr result (self.new ≡ self.old) }
        ensures memory_unchanged { OnErr result (mem.new ≡ mem.old) }
        ensures regions { mem.new.regions ≡ mem.old.regions }
    {
        self.check_free(piece_count(bytes.len()))?;
        let ring = self.layout(false, false);
        let place = self.place();
        let lens = piece_lens(self.allocator(), bytes.len()).map_err(|_| PostErr::NoMemory)?;
        let chain = self.send_out(lens.len()).map_err(|_| PostErr::NoMemory)?;
        fill(mem, &ring, &chain, bytes);
        link(mem, &ring, false, &chain, &lens);
        offer(mem, &ring, place, chain[0]);
        Ok(chain[0])
    }

    // The allocator.
    fn allocator(&self) -> Global {
        self.alloc
    }

    // The chain of a head comes back, if it is out. After want of memory the driver can only be dropped.
    fn take_back(&mut self, head: u32) -> Result<bool, AllocError>
        ensures settings { IsSettledAs self.old self.new }
        ensures back { IfOk result (λ found. ComesBack head self.old found self.new) }
    {
        let Some(chain) = self.out.remove(&head) else {
            return Ok(false);
        };
        add_all(&mut self.free, chain.as_slice())?;
        self.used = self.used.wrapping_add(1);
        Ok(true)
    }

    // The place in the used ring.
    fn used(&self) -> u16
        ensures { result ≡ self.now.used }
    {
        self.used
    }

    /// Takes back the chains of the used entries that are there, and tells the head and length of each.
    /// An entry whose head isn't out ends it; those before it stay taken back. With event indexes
    /// used_event is the driver's new place, but not after such an entry. After want of memory the
    /// driver can only be dropped.
    pub fn harvest(&mut self, mem: &mut Memory) -> Result<Vec<(u32, u32)>, OrMemory<StrayUsed>>
        requires { HasArea self.old mem.old }
        ensures settings { IsSettledAs self.old self.new }
        ensures answer { Answers (harvested mem.old self.old) self.new result }
        ensures memory { Unless result (mem.new ≡ harvested_in mem.old self.old) }
        ensures regions { mem.new.regions ≡ mem.old.regions }
    {
        range_laws();
        let ring = self.layout(false, false);
        let index = mem.le16_at(ring.used_idx_addr());
        let count = index.wrapping_sub(self.used()).min(ring.num);
        let mut found = Vec::with_capacity(self.allocator(), usize::from(count)).map_err(
            |_| OrMemory::NoMemory,
        )?;
        for _ in 0..count {
            let entry = used_elem_at(mem, ring.used_entry_addr(self.used()));
            if !self.take_back(entry.id).map_err(|_| OrMemory::NoMemory)? {
                return Err(OrMemory::Fault(StrayUsed { id: entry.id }));
            }
            found.push_reserved((entry.id, entry.len));
        }
        if ring.event {
            mem.put_le16(ring.used_event_addr(), self.used());
        }
        Ok(found)
    }
}

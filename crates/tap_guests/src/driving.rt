//! The calls of the drivers of a vhost's rings.

ghost use Rattle.std.specs.Prelude.{◌≡◌, ◌<◌, Some, IfOk, OnErr, List, length};
ghost use Rattle.guest_mem.specs.declared.region.Region.{Region};
ghost use Rattle.scen_words.specs.declared.command.Command.TheVariants as command;
ghost use Rattle.tap_world.specs.Guests.{driver_of, with_driver};
ghost use Rattle.tap_guests.specs.Calls.{Calls, with_vhost};
ghost use Rattle.tap_guests.specs.Drivers.{by_driver, harvests_by, posts_in, posts_out, set_driver};
ghost use Rattle.tap_guests.specs.Within.{HasArea, IsIn};

use crate::called::Called;
use crate::driver::{harvest, post_in, post_out, put};
use crate::side::VhostSide;
use crate::words::drive_answer;
use guest_mem::Memory;
use std::alloc::{AllocError, Global};
use tap_trace::{Answer, Kind};
use vring_drive::Driver;

impl VhostSide {
    // A ring gets this driver, in place of the one that it had.
    fn set_driver(&mut self, ring: u16, driver: Driver)
        ensures driver { self.new ≡ with_vhost (with_driver ring driver self.old.vhost) self.old }
        ensures within { (rs : List Region) → HasArea rs (Some driver) → IsIn rs self.old → IsIn rs self.new }
    {
        if ring == 0 {
            put(&mut self.rx_driver, driver);
        } else {
            put(&mut self.tx_driver, driver);
        }
    }

    // A ring's driver, if it has one, posts writable room.
    fn driver_posts_in(
        &mut self,
        ring: u16,
        lens: &[u32],
        mem: &mut Memory,
    ) -> Result<Answer, AllocError>
        requires some { 0 < length lens.now }
        requires within { IsIn mem.old.regions self.old }
        ensures did { IfOk result (λ a. by_driver mem.old (posts_in lens.now mem.old) (driver_of ring self.old.vhost)
            ≡ Some (record { driver = driver_of ring self.new.vhost; memory = mem.new; answer = a })) }
        ensures only { self.new
            ≡ with_vhost (set_driver ring (driver_of ring self.new.vhost) self.old.vhost) self.old }
        ensures unchanged { OnErr result (self.new ≡ self.old) }
        ensures memory_unchanged { OnErr result (mem.new ≡ mem.old) }
        ensures regions { mem.new.regions ≡ mem.old.regions }
        ensures within { IsIn mem.old.regions self.new }
    {
        if ring == 0 {
            post_in(&mut self.rx_driver, lens, mem)
        } else {
            post_in(&mut self.tx_driver, lens, mem)
        }
    }

    // A ring's driver, if it has one, posts bytes to be read.
    fn driver_posts_out(
        &mut self,
        ring: u16,
        bytes: &[u8],
        mem: &mut Memory,
    ) -> Result<Answer, AllocError>
        requires within { IsIn mem.old.regions self.old }
        ensures did { IfOk result (λ a. by_driver mem.old (posts_out bytes.now mem.old) (driver_of ring self.old.vhost)
            ≡ Some (record { driver = driver_of ring self.new.vhost; memory = mem.new; answer = a })) }
        ensures only { self.new
            ≡ with_vhost (set_driver ring (driver_of ring self.new.vhost) self.old.vhost) self.old }
        ensures unchanged { OnErr result (self.new ≡ self.old) }
        ensures memory_unchanged { OnErr result (mem.new ≡ mem.old) }
        ensures regions { mem.new.regions ≡ mem.old.regions }
        ensures within { IsIn mem.old.regions self.new }
    {
        if ring == 0 {
            post_out(&mut self.rx_driver, bytes, mem)
        } else {
            post_out(&mut self.tx_driver, bytes, mem)
        }
    }

    // A ring's driver, if it has one, takes back what came back.
    fn driver_harvests(&mut self, ring: u16, mem: &mut Memory) -> Result<Answer, AllocError>
        requires within { IsIn mem.old.regions self.old }
        ensures did { IfOk result (λ a. by_driver mem.old (harvests_by mem.old) (driver_of ring self.old.vhost)
            ≡ Some (record { driver = driver_of ring self.new.vhost; memory = mem.new; answer = a })) }
        ensures only { self.new
            ≡ with_vhost (set_driver ring (driver_of ring self.new.vhost) self.old.vhost) self.old }
        ensures regions { mem.new.regions ≡ mem.old.regions }
        ensures within { IsIn mem.old.regions self.new }
    {
        if ring == 0 {
            harvest(&mut self.rx_driver, mem)
        } else {
            harvest(&mut self.tx_driver, mem)
        }
    }

    /// `drive`: gives a ring a driver whose area begins at an address, with the ring's number and event indexes of
    /// the moment. It is refused where the address isn't a multiple of 16, and where a byte of the area isn't in the
    /// memory; the driver that the ring had is then still there.
    pub fn drive(
        &mut self,
        alloc: Global,
        vhost: u16,
        ring: u16,
        addr: u64,
        mem: &Memory,
    ) -> Result<Called, AllocError>
        requires within { IsIn mem.now.regions self.old }
        ensures call { IfOk result
            (λ c. Calls (command.DriveAt vhost ring addr) self.old.vhost mem.now c self.new.vhost mem.now) }
        ensures unchanged { OnErr result (self.new ≡ self.old) }
        ensures only { self.new ≡ with_vhost self.new.vhost self.old }
        ensures within { IsIn mem.now.regions self.new }
    {
        let layout = self.dev.layout(ring == 0);
        let answer = match Driver::new(alloc, mem, addr, layout.num, layout.event) {
            Ok(driver) => {
                self.set_driver(ring, driver);
                Answer::Done
            }
            Err(error) => drive_answer(error)?,
        };
        Ok(Called {
            answer,
            step: Some(Kind::Drive { vhost, ring }),
        })
    }

    /// `postin`: the ring's driver makes a chain of writable pieces of these lengths available. It is refused where
    /// one is above 2,048, and where too few descriptors are free.
    pub fn post_in(
        &mut self,
        vhost: u16,
        ring: u16,
        lens: &[u32],
        mem: &mut Memory,
    ) -> Result<Called, AllocError>
        requires some { 0 < length lens.now }
        requires within { IsIn mem.old.regions self.old }
        ensures call { IfOk result
            (λ c. Calls (command.PostIn vhost ring lens.now) self.old.vhost mem.old c self.new.vhost mem.new) }
        ensures unchanged { OnErr result (self.new ≡ self.old) }
        ensures memory_unchanged { OnErr result (mem.new ≡ mem.old) }
        ensures only { self.new ≡ with_vhost self.new.vhost self.old }
        ensures regions { mem.new.regions ≡ mem.old.regions }
        ensures within { IsIn mem.new.regions self.new }
    {
        let answer = self.driver_posts_in(ring, lens, mem)?;
        Ok(Called {
            answer,
            step: Some(Kind::Post { vhost, ring }),
        })
    }

    /// `postout`: the ring's driver makes a chain with these bytes available, to be read. It is refused where too few
    /// descriptors are free.
    pub fn post_out(
        &mut self,
        vhost: u16,
        ring: u16,
        bytes: &[u8],
        mem: &mut Memory,
    ) -> Result<Called, AllocError>
        requires within { IsIn mem.old.regions self.old }
        ensures call { IfOk result
            (λ c. Calls (command.PostOut vhost ring bytes.now) self.old.vhost mem.old c self.new.vhost mem.new) }
        ensures unchanged { OnErr result (self.new ≡ self.old) }
        ensures memory_unchanged { OnErr result (mem.new ≡ mem.old) }
        ensures only { self.new ≡ with_vhost self.new.vhost self.old }
        ensures regions { mem.new.regions ≡ mem.old.regions }
        ensures within { IsIn mem.new.regions self.new }
    {
        let answer = self.driver_posts_out(ring, bytes, mem)?;
        Ok(Called {
            answer,
            step: Some(Kind::Post { vhost, ring }),
        })
    }

    /// `harvest`: the ring's driver takes back the chains that the device used. After want of memory the driver can
    /// only be dropped.
    pub fn harvest(&mut self, vhost: u16, ring: u16, mem: &mut Memory) -> Result<Called, AllocError>
        requires within { IsIn mem.old.regions self.old }
        ensures call { IfOk result
            (λ c. Calls (command.Harvest vhost ring) self.old.vhost mem.old c self.new.vhost mem.new) }
        ensures only { self.new ≡ with_vhost self.new.vhost self.old }
        ensures regions { mem.new.regions ≡ mem.old.regions }
        ensures within { IsIn mem.new.regions self.new }
    {
        let answer = self.driver_harvests(ring, mem)?;
        Ok(Called {
            answer,
            step: Some(Kind::Harvest { vhost, ring }),
        })
    }
}

//! The calls of one driver, as they are told.

ghost use Rattle.std.specs.Prelude.{◌≡◌, ◌<◌, Some, IfOk, OnErr, length};
ghost use Rattle.tap_guests.specs.Drivers.{by_driver, harvests_by, posts_in, posts_out};
ghost use Rattle.tap_guests.specs.Within.{HasArea};

use crate::words::post_answer;
use guest_mem::Memory;
use sqlite_items::Items;
use std::alloc::AllocError;
use tap_ground::OrMemory;
use tap_trace::{Answer, DriveText};
use vring_drive::Driver;

// The driver, if the ring has one, posts writable room.
pub(crate) fn post_in(
    driver: &mut Option<Driver>,
    lens: &[u32],
    mem: &mut Memory,
) -> Result<Answer, AllocError>
    requires some { 0 < length lens.now }
    requires area { HasArea mem.old.regions driver.old }
    ensures posts { IfOk result (λ a. by_driver mem.old (posts_in lens.now mem.old) driver.old
        ≡ Some (record { driver = driver.new; memory = mem.new; answer = a })) }
    ensures unchanged { OnErr result (driver.new ≡ driver.old) }
    ensures memory_unchanged { OnErr result (mem.new ≡ mem.old) }
    ensures regions { mem.new.regions ≡ mem.old.regions }
    ensures area { HasArea mem.old.regions driver.new }
{
    match driver {
        Some(driver) => match driver.post_in(mem, lens) {
            Ok(head) => Ok(Answer::Posted(head)),
            Err(error) => post_answer(error),
        },
        None => Ok(Answer::NoDriver),
    }
}

// The driver, if the ring has one, posts bytes to be read.
pub(crate) fn post_out(
    driver: &mut Option<Driver>,
    bytes: &[u8],
    mem: &mut Memory,
) -> Result<Answer, AllocError>
    requires area { HasArea mem.old.regions driver.old }
    ensures posts { IfOk result (λ a. by_driver mem.old (posts_out bytes.now mem.old) driver.old
        ≡ Some (record { driver = driver.new; memory = mem.new; answer = a })) }
    ensures unchanged { OnErr result (driver.new ≡ driver.old) }
    ensures memory_unchanged { OnErr result (mem.new ≡ mem.old) }
    ensures regions { mem.new.regions ≡ mem.old.regions }
    ensures area { HasArea mem.old.regions driver.new }
{
    match driver {
        Some(driver) => match driver.post_out(mem, bytes) {
            Ok(head) => Ok(Answer::Posted(head)),
            Err(error) => post_answer(error),
        },
        None => Ok(Answer::NoDriver),
    }
}

// The driver, if the ring has one, takes back what came back. After want of memory it can only be dropped.
pub(crate) fn harvest(driver: &mut Option<Driver>, mem: &mut Memory) -> Result<Answer, AllocError>
    requires area { HasArea mem.old.regions driver.old }
    ensures harvests { IfOk result (λ a. by_driver mem.old (harvests_by mem.old) driver.old
        ≡ Some (record { driver = driver.new; memory = mem.new; answer = a })) }
    ensures regions { mem.new.regions ≡ mem.old.regions }
    ensures area { HasArea mem.old.regions driver.new }
{
    match driver {
        Some(driver) => match driver.harvest(mem) {
            Ok(found) => Ok(Answer::Harvested(Items::from_vec(found))),
            Err(OrMemory::Fault(stray)) => Ok(Answer::Drive(DriveText::Stray { id: stray.id })),
            Err(OrMemory::NoMemory) => Err(AllocError),
        },
        None => Ok(Answer::NoDriver),
    }
}

// The ring gets this driver, in place of the one that it had.
pub(crate) fn put(place: &mut Option<Driver>, driver: Driver)
    ensures { place.new ≡ Some driver }
{
    *place = Some(driver);
}

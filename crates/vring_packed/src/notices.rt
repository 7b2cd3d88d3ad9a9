//! Notices: when the driver wants one, and how it is told that the device wants some.
ghost use Rattle.std.specs.Prelude.{◌≡◌, ◌<◌, ◌^◌};
ghost use Rattle.guest_mem.specs.Memory.{covers};
ghost use Rattle.vring_packed.specs.Packed.{IsGoodFor};
ghost use Rattle.vring_packed.specs.Publication.{places_ahead, is_among, named_place, flags_addr, wants_notice, noticed_at};

use crate::layout::PackedLayout;
use crate::place::Place;
use guest_mem::{Memory, range_laws};

/// The bits of an area's flags that say when its side wants a notice (VIRTIO 1.2, 2.8.10).
const MODE: u16 = 3;
/// It wants none.
const DISABLE: u16 = 1;
/// It wants one at a place.
const AT_PLACE: u16 = 2;
/// It wants each.
const ENABLE: u16 = 0;
/// The wrap counter beside a place that an area names.
const WRAP: u16 = 1 << 15;

/// How many places a place is ahead of another, where the places of both wrap counters make one round.
fn places_ahead(num: u16, from: &Place, to: &Place) -> u64
    requires inside { from.now.at < num }
    ensures { result ≡ places_ahead num from.now to.now }
{
    let round = 2 * u64::from(num);
    let start = u64::from(from.at);
    let end = u64::from(to.at);
    if from.wrap != to.wrap {
        end + u64::from(num) - start
    } else if start <= end {
        end - start
    } else {
        end + round - start
    }
}

/// Whether a place is among so many places from one on.
fn is_among(num: u16, from: &Place, count: u64, place: &Place) -> bool
    requires inside { from.now.at < num }
    ensures { result ≡ is_among num from.now count place.now }
{
    place.at < num && places_ahead(num, from, place) < count
}

/// The place that the first field of an area names.
fn named_place(field: u16) -> Place
    ensures { result ≡ named_place field }
{
    Place {
        at: field % WRAP,
        wrap: field >= WRAP,
    }
}

/// Where the flags of an area stand.
fn flags_addr(area: u64) -> u64
    requires { flags_addr area < 2 ^ 64 }
    ensures { result ≡ flags_addr area }
{
    area + 2
}

/// Whether the driver wants a notice of a publication that passed so many places from one on.
#[tactic(auto, unfolding(crate::specs::Publication::wants_notice))]
pub fn wants_notice(mem: &Memory, ring: &PackedLayout, from: Place, count: u64) -> bool
    requires good { IsGoodFor ring.now (covers mem.now.regions) }
    requires inside { from.at < ring.now.num }
    ensures { result ≡ wants_notice ring.now from count mem.now }
{
    range_laws();
    let mode = mem.le16_at(flags_addr(ring.driver)) & MODE;
    if mode == DISABLE {
        return false;
    }
    if mode != AT_PLACE || !ring.event {
        return true;
    }
    is_among(
        ring.num,
        &from,
        count,
        &named_place(mem.le16_at(ring.driver)),
    )
}

/// Tells the driver that notices are wanted from now on, or aren't.
pub fn set_notices(mem: &mut Memory, ring: &PackedLayout, on: bool)
    requires { IsGoodFor ring.now (covers mem.old.regions) }
    ensures written { mem.new ≡ noticed_at ring.now on mem.old }
    ensures regions { mem.new.regions ≡ mem.old.regions }
{
    range_laws();
    let flags = if on { ENABLE } else { DISABLE };
    mem.put_le16(flags_addr(ring.device), flags);
}

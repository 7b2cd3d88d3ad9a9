//! The rules for a descriptor.
ghost use Rattle.std.specs.Prelude.{◌≡◌, ◌||◌};
ghost use Rattle.guest_mem.specs.Memory.{covers};
ghost use Rattle.tap_ground.specs.Options.{first_that_holds as first_broken};
ghost use Rattle.vring_walk.specs.Chain.{is_bad_length};
ghost use Rattle.vring_packed.specs.Chain.{segment_rules, table_rules};

use crate::desc::PackedDesc;
use crate::layout::PackedLayout;
use crate::segments::MAX_SEGMENTS;
use guest_mem::Memory;
use vring_split::RingFault;

/// How many bytes an indirect table has at most.
const MAX_TABLE_LEN: u32 = 16_384;

/// Whether no table has this length.
fn is_bad_length(len: u32) -> bool
    ensures { result ≡ is_bad_length len }
{
    len == 0 || len % 16 != 0 || len > MAX_TABLE_LEN
}

/// The first rule that a descriptor breaks as a segment, after so many of which one or none is writable.
pub fn segment_fault(
    mem: &Memory,
    ring: &PackedLayout,
    desc: &PackedDesc,
    count: usize,
    any_writable: bool,
) -> Option<RingFault>
    ensures { result ≡ first_broken (segment_rules (covers mem.now.regions) ring.now desc.now count any_writable) }
{
    let writable = desc.is_writable();
    if !mem.covers(desc.addr, u64::from(desc.len)) {
        return Some(RingFault::Unmapped {
            addr: desc.addr,
            len: desc.len,
        });
    }
    if !writable && any_writable {
        return Some(RingFault::Order);
    }
    if writable != ring.rx {
        return Some(RingFault::Direction);
    }
    if count >= MAX_SEGMENTS {
        return Some(RingFault::TooManySegments);
    }
    None
}

/// The first rule that a descriptor breaks which refers to a table.
pub fn table_fault(mem: &Memory, ring: &PackedLayout, desc: &PackedDesc) -> Option<RingFault>
    ensures { result ≡ first_broken (table_rules (covers mem.now.regions) ring.now desc.now) }
{
    if !ring.indirect {
        return Some(RingFault::IndirectOff);
    }
    if desc.has_next() {
        return Some(RingFault::IndirectNext);
    }
    if is_bad_length(desc.len) {
        return Some(RingFault::IndirectLength);
    }
    if !mem.covers(desc.addr, u64::from(desc.len)) {
        return Some(RingFault::Unmapped {
            addr: desc.addr,
            len: desc.len,
        });
    }
    None
}

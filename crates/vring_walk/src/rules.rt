//! The rules for a descriptor.
ghost use Rattle.std.specs.Prelude.{◌≡◌, ◌+◌, ◌<◌, ◌^◌, ◌||◌, false};
ghost use Rattle.tap_ground.specs.Options.{first_that_holds as first_broken};
ghost use Rattle.vring_walk.specs.Chain.{rules_for, is_bad_length};

use crate::segments::MAX_SEGMENTS;
use crate::table::Table;
use vring_split::{Desc, Layout, RingFault};

/// How many bytes an indirect table has at most.
pub const MAX_TABLE_LEN: u32 = 16_384;

/// What a path has met so far.
#[derive(Clone, Copy)]
pub struct Met {
    /// How many descriptors of the same table.
    pub seen: u16,
    /// How many segments.
    pub count: u16,
    /// Whether one of these is writable.
    pub writable: bool,
}

impl Met {
    /// At the start of a path.
    pub fn nothing() -> Met
        ensures { result ≡ record { seen = 0; count = 0; writable = false } }
    {
        Met {
            seen: 0,
            count: 0,
            writable: false,
        }
    }

    /// With one descriptor more, which is a segment.
    #[inline]
    pub fn with(&self, write: bool) -> Met
        requires seen { self.now.seen + 1 < 2 ^ 16 }
        requires count { self.now.count + 1 < 2 ^ 16 }
        ensures { result ≡ record {
          seen = self.now.seen + 1;
          count = self.now.count + 1;
          writable = self.now.writable || write;
        } }
    {
        Met {
            seen: self.seen + 1,
            count: self.count + 1,
            writable: self.writable | write,
        }
    }
}

/// Whether no indirect table has this length, in bytes: it is 0, no multiple of 16, or above
/// `MAX_TABLE_LEN`.
pub fn is_bad_length(len: u32) -> bool
    ensures { result ≡ is_bad_length len }
{
    len == 0 || len % 16 != 0 || len > MAX_TABLE_LEN
}

/// The first rule that a descriptor breaks, whose range is mapped or not.
#[inline]
pub fn broken_rule(
    ring: &Layout,
    table: &Table,
    desc: &Desc,
    met: &Met,
    mapped: bool,
) -> Option<RingFault>
    ensures { result ≡ first_broken (rules_for (λ _ _. mapped) ring.now table.now desc.now
        met.now.seen met.now.count met.now.writable) }
{
    let indirect = desc.is_indirect();
    let writable = desc.is_writable();
    if met.seen >= table.entries {
        return Some(RingFault::TooLong);
    }
    if indirect && !ring.indirect {
        return Some(RingFault::IndirectOff);
    }
    if indirect && table.indirect {
        return Some(RingFault::Nested);
    }
    if indirect && desc.has_next() {
        return Some(RingFault::IndirectNext);
    }
    if indirect && is_bad_length(desc.len) {
        return Some(RingFault::IndirectLength);
    }
    if !mapped {
        return Some(RingFault::Unmapped {
            addr: desc.addr,
            len: desc.len,
        });
    }
    if !indirect && !writable && met.writable {
        return Some(RingFault::Order);
    }
    if !indirect && writable != ring.rx {
        return Some(RingFault::Direction);
    }
    if !indirect && met.count >= MAX_SEGMENTS as u16 {
        return Some(RingFault::TooManySegments);
    }
    if desc.has_next() && desc.next >= table.entries {
        return Some(RingFault::NextRange);
    }
    None
}

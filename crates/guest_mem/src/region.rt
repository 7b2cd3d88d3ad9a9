//! Regions, and why they make no memory.
ghost use Rattle.std.specs.Prelude.{◌≡◌, []};
ghost use Rattle.std.specs.List.{list_any};
ghost use Rattle.guest_mem.specs.Regions.{share_byte, fault_after, first_fault, is_too_large, refusal, number_of_fault};

use thiserror::Error;

/// How many regions a memory may have.
const MAX_REGIONS: usize = 64;
/// How many bytes its regions may have together.
const MAX_BYTES: u64 = 16_777_216;

/// A piece of a guest's memory.
#[derive(Clone, Copy, Debug, PartialEq, Eq)]
pub struct Region {
    /// Its first address.
    pub addr: u64,
    /// How many bytes it has.
    pub len: u64,
}

/// Why regions make no memory.
#[derive(Clone, Copy, Debug, PartialEq, Eq, Error)]
pub enum RegionFault {
    /// There are more than 64 regions.
    #[error("more than 64 regions")]
    TooMany,
    /// A region shares a byte with an earlier one.
    #[error("a region overlaps an earlier one")]
    Overlap,
    /// A region reaches the last address, 2^64 - 1, or past it.
    #[error("a region passes the end of the addresses")]
    Wrap,
    /// A region has no byte.
    #[error("an empty region")]
    Empty,
    /// The regions have more than 16 MiB together.
    #[error("more than 16 MiB")]
    TooLarge,
    /// No memory was left.
    #[error("out of memory")]
    NoMemory,
}

impl RegionFault {
    /// The refusal's number, 1 to 5, and 0 for want of memory, which is no refusal of the regions.
    pub fn number(&self) -> u8
        ensures { result ≡ number_of_fault self.now }
    {
        match self {
            RegionFault::TooMany => 1,
            RegionFault::Overlap => 2,
            RegionFault::Wrap => 3,
            RegionFault::Empty => 4,
            RegionFault::TooLarge => 5,
            RegionFault::NoMemory => 0,
        }
    }
}

impl Region {
    /// Whether the two share a byte.
    fn shares_byte(&self, other: &Region) -> bool
        ensures { result ≡ share_byte self.now other.now }
    {
        if self.addr <= other.addr {
            other.len != 0 && other.addr - self.addr < self.len
        } else {
            self.len != 0 && self.addr - other.addr < other.len
        }
    }

    /// Whether it shares a byte with one of these.
    fn shares_any(&self, others: &[Region]) -> bool
        ensures { result ≡ list_any (share_byte self.now) others.now }
    {
        others.iter().any(|other| self.shares_byte(other))
    }

    /// What is wrong with the region after these.
    fn fault_after(&self, earlier: &[Region]) -> Option<RegionFault>
        ensures { result ≡ fault_after earlier.now self.now }
    {
        if self.len == 0 {
            return Some(RegionFault::Empty);
        }
        if self.len > u64::MAX - self.addr {
            return Some(RegionFault::Wrap);
        }
        if self.shares_any(earlier) {
            return Some(RegionFault::Overlap);
        }
        None
    }
}

/// The first fault of a region, by its place.
fn first_fault(regions: &[Region]) -> Option<RegionFault>
    ensures { result ≡ first_fault [] regions.now }
{
    for (i, region) in regions.iter().enumerate() {
        if let Some(fault) = region.fault_after(&regions[..i]) {
            return Some(fault);
        }
    }
    None
}

/// Whether the regions have more bytes together than a memory may have.
fn is_too_large(regions: &[Region]) -> bool
    ensures { result ≡ is_too_large regions.now }
{
    let mut total = 0u64;
    for region in regions {
        if region.len > MAX_BYTES - total {
            return true;
        }
        total += region.len;
    }
    false
}

/// Why regions make no memory, if they make none: more than 64 regions; then of each region in turn
/// that it is empty, that it reaches the last address, or that it shares a byte with an earlier one;
/// and last more than 16 MiB together. It takes no memory.
pub fn region_fault(regions: &[Region]) -> Option<RegionFault>
    ensures { result ≡ refusal regions.now }
{
    if regions.len() > MAX_REGIONS {
        return Some(RegionFault::TooMany);
    }
    if let Some(fault) = first_fault(regions) {
        return Some(fault);
    }
    if is_too_large(regions) {
        return Some(RegionFault::TooLarge);
    }
    None
}

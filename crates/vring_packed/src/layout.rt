//! Where a packed ring lies.
ghost use Rattle.std.specs.Prelude.{◌≡◌, ◌↔◌, IsTrue};
ghost use Rattle.guest_mem.specs.Memory.{covers};
ghost use Rattle.vring_packed.specs.Packed.{IsGoodFor, is_good_for, are_apart};

use guest_mem::Memory;

/// How many entries a ring has at most.
const MAX_ENTRIES: u16 = 32_768;
/// How many bytes each of the event suppression areas has.
const AREA_LEN: u64 = 4;

/// Where a packed ring lies in the guest's memory, and how it is used.
#[derive(Clone, Copy, Debug, PartialEq, Eq)]
pub struct PackedLayout {
    /// The queue size: how many descriptors the ring has.
    pub num: u16,
    /// Where the descriptor ring starts.
    pub ring: u64,
    /// Where the driver's event suppression area starts.
    pub driver: u64,
    /// Where the device's event suppression area starts.
    pub device: u64,
    /// Whether the two sides agreed on indirect tables.
    pub indirect: bool,
    /// Whether they agreed on event suppression by place.
    pub event: bool,
    /// Whether the device writes the ring's chains, and does not read them.
    pub rx: bool,
}

/// Whether two areas share no byte.
fn are_apart(a: u64, n: u64, b: u64, k: u64) -> bool
    ensures { result ≡ are_apart a n b k }
{
    (a <= b && n <= b - a) || (b <= a && k <= a - b)
}

impl PackedLayout {
    /// Whether it is good for a memory: the queue size is 1 to 32,768, and the descriptor ring and the
    /// two areas lie in the memory and share no byte.
    pub fn is_good(&self, mem: &Memory) -> bool
        ensures good { IsTrue result ↔ IsGoodFor self.now (covers mem.now.regions) }
        ensures test { result ≡ is_good_for self.now (covers mem.now.regions) }
    {
        let ring_len = 16 * u64::from(self.num);
        1 <= self.num
            && self.num <= MAX_ENTRIES
            && mem.covers(self.ring, ring_len)
            && mem.covers(self.driver, AREA_LEN)
            && mem.covers(self.device, AREA_LEN)
            && are_apart(self.ring, ring_len, self.driver, AREA_LEN)
            && are_apart(self.ring, ring_len, self.device, AREA_LEN)
            && are_apart(self.driver, AREA_LEN, self.device, AREA_LEN)
    }
}

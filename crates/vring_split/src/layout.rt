//! Where a ring lies.
ghost use Rattle.std.specs.Prelude.{◌≡◌, ◌<◌, ◌^◌, ◌+◌};
ghost use Rattle.vring_split.specs.Split as split;

/// Where a ring lies in the guest's memory, and how it is used.
#[derive(Clone, Copy, Debug, PartialEq, Eq)]
pub struct Layout {
    /// The queue size: how many entries each part has.
    pub num: u16,
    /// Where the descriptor table starts.
    pub desc: u64,
    /// Where the available ring starts.
    pub avail: u64,
    /// Where the used ring starts.
    pub used: u64,
    /// Whether the two sides agreed on indirect tables.
    pub indirect: bool,
    /// Whether they agreed on event indexes.
    pub event: bool,
    /// Whether the device writes the ring's chains, and does not read them.
    pub rx: bool,
}

/// How many bytes the descriptor table of a queue of this size takes.
pub fn desc_len(num: u16) -> u64
    ensures { result ≡ split.desc_len num }
{
    16 * u64::from(num)
}

/// How many bytes the available ring takes.
pub fn avail_len(num: u16) -> u64
    ensures { result ≡ split.avail_len num }
{
    6 + 2 * u64::from(num)
}

/// How many bytes the used ring takes.
pub fn used_len(num: u16) -> u64
    ensures { result ≡ split.used_len num }
{
    6 + 8 * u64::from(num)
}

impl Layout {
    /// Where a descriptor of the ring's own table starts.
    pub fn desc_addr(&self, index: u16) -> u64
        requires { split.desc_addr self.now index < 2 ^ 64 }
        ensures { result ≡ split.desc_addr self.now index }
    {
        self.desc + 16 * u64::from(index)
    }

    /// Where the available ring's flags stand.
    pub fn avail_flags_addr(&self) -> u64
        ensures { result ≡ split.avail_flags_addr self.now }
    {
        self.avail
    }

    /// Where the available index stands.
    pub fn avail_idx_addr(&self) -> u64
        requires { split.avail_idx_addr self.now < 2 ^ 64 }
        ensures { result ≡ split.avail_idx_addr self.now }
    {
        self.avail + 2
    }

    /// Where the available ring's entry of a position stands.
    pub fn avail_entry_addr(&self, position: u16) -> u64
        requires some { 0 < self.now.num }
        requires fits { split.avail_entry_addr self.now position < 2 ^ 64 }
        ensures { result ≡ split.avail_entry_addr self.now position }
    {
        self.avail + 4 + 2 * u64::from(position % self.num)
    }

    /// Where the driver says when it wants a notice.
    pub fn used_event_addr(&self) -> u64
        requires { split.used_event_addr self.now < 2 ^ 64 }
        ensures { result ≡ split.used_event_addr self.now }
    {
        self.avail + 4 + 2 * u64::from(self.num)
    }

    /// Where the used ring's flags stand.
    pub fn used_flags_addr(&self) -> u64
        ensures { result ≡ split.used_flags_addr self.now }
    {
        self.used
    }

    /// Where the used index stands.
    pub fn used_idx_addr(&self) -> u64
        requires { split.used_idx_addr self.now < 2 ^ 64 }
        ensures { result ≡ split.used_idx_addr self.now }
    {
        self.used + 2
    }

    /// Where the used ring's entry of a position stands.
    pub fn used_entry_addr(&self, position: u16) -> u64
        requires some { 0 < self.now.num }
        requires fits { split.used_entry_addr self.now position < 2 ^ 64 }
        ensures { result ≡ split.used_entry_addr self.now position }
    {
        self.used + 4 + 8 * u64::from(position % self.num)
    }

    /// Where the device says when it wants a notice.
    pub fn avail_event_addr(&self) -> u64
        requires { split.avail_event_addr self.now < 2 ^ 64 }
        ensures { result ≡ split.avail_event_addr self.now }
    {
        self.used + 4 + 8 * u64::from(self.num)
    }
}

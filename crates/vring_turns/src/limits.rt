//! How much one turn does.
ghost use Rattle.std.specs.Prelude.{◌≡◌, nat_le};
ghost use Rattle.vring_turns.specs.Turn.{is_enough as enough, publishes_at};

/// How many packets one turn handles.
pub const MOST_PACKETS: u32 = 256;

/// How many bytes of packets one turn handles.
pub const MOST_BYTES: u64 = 524_288;

/// How many chains one turn handles.
pub const MOST_CHAINS: u32 = 1024;

/// How many chains one frame may go into, where it may go into several.
pub const MOST_QUOTA: usize = 1024;

/// How many chains that are done are published between two packets.
pub const PUBLISHES_AT: u16 = 64;

/// Whether a turn that handled so many packets, bytes and chains did as much as one turn does.
pub fn is_enough(packets: u32, bytes: u64, chains: u32) -> bool
    ensures { result ≡ enough packets bytes chains }
{
    packets >= MOST_PACKETS || bytes >= MOST_BYTES || chains >= MOST_CHAINS
}

/// Whether so many chains that are done are published before the next packet.
pub fn is_published(done: u16) -> bool
    ensures { result ≡ nat_le publishes_at done }
{
    done >= PUBLISHES_AT
}

//! What stands in front of a frame in its chains.
ghost use Rattle.std.specs.Prelude.{◌≡◌, ◌++◌, take};
ghost use Rattle.std.specs.Int.{w16, to_le_bytes};

use tap_frame::Hdr;
use vring_split::le16_bytes_of;

/// What stands in front of a frame that goes into so many chains: the first bytes of its header, and the
/// number of chains where a header has it.
pub fn front_of(header: Hdr, count: u16) -> [u8; 12]
    ensures short { take 10 result ≡ header.bytes }
    ensures long { result ≡ header.bytes ++ to_le_bytes w16 count }
{
    let mut front = [0u8; 12];
    front[..10].copy_from_slice(&header.bytes);
    front[10..].copy_from_slice(&le16_bytes_of(count));
    front
}

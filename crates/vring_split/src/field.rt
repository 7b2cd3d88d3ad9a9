//! The 16-bit fields of the rings, and the need of a notice.
ghost use Rattle.std.specs.Prelude.{◌≡◌};
ghost use Rattle.std.specs.Int.{w16, from_le_bytes, to_le_bytes};
ghost use Rattle.vring_split.specs.Split.{needs_event};

use byteorder::{ByteOrder, LittleEndian};

/// The number that the 2 bytes of a field are: flags, an index, a head or an event's position.
pub fn le16_of(bytes: &[u8; 2]) -> u16
    ensures value { result ≡ from_le_bytes w16 bytes.now }
{
    LittleEndian::read_u16(&bytes[..])
}

/// The 2 bytes of such a field.
pub fn le16_bytes_of(number: u16) -> [u8; 2]
    ensures value { result ≡ to_le_bytes w16 number }
    ensures back { from_le_bytes w16 result ≡ number }
{
    let mut bytes = [0u8; 2];
    LittleEndian::write_u16(&mut bytes[..], number);
    bytes
}

/// Whether an index that goes from `old` to `new` reaches the position after `event`, so that the
/// other side wants a notice (VIRTIO 1.2, 2.7.7.1).
pub fn need_event(event: u16, new: u16, old: u16) -> bool
    ensures { result ≡ needs_event event new old }
{
    new.wrapping_sub(event).wrapping_sub(1) < new.wrapping_sub(old)
}

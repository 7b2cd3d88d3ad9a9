//! The header in front of a frame.

ghost use Rattle.std.specs.Prelude.{◌≡◌, ◌+◌, ◌^◌, ◌<◌, slice_range};
ghost use Rattle.std.specs.Int.{w16, from_le_bytes};
ghost use Rattle.tap_frame.specs.Header.{header_reach, no_header};

// The flag that asks for a checksum.
const NEEDS_CSUM: u8 = 1;

/// The first ten bytes of a header (VIRTIO 1.2, 5.1.6): flags, gso_type, and the le16 numbers
/// hdr_len, gso_size, csum_start and csum_offset.
#[derive(Clone, Copy, Debug, PartialEq, Eq)]
pub struct Hdr {
    /// The bytes as they stand in the header.
    pub bytes: [u8; 10],
}

impl Hdr {
    // The header of a frame that came without one.
    pub(crate) const fn none() -> Hdr
        ensures { result.bytes ≡ no_header }
    {
        Hdr { bytes: [0; 10] }
    }

    // How far into the frame the header reaches: hdr_len, or the end of the checksum field where one
    // is asked for further on.
    pub(crate) fn reach(&self) -> u32
        ensures { result ≡ header_reach self.now.bytes }
    {
        let hdr_len = le16(&self.bytes, 2);
        if self.bytes[0] & NEEDS_CSUM != NEEDS_CSUM {
            return hdr_len;
        }
        hdr_len.max(le16(&self.bytes, 6) + le16(&self.bytes, 8) + 2)
    }
}

// The le16 number at a place.
fn le16(header: &[u8; 10], place: usize) -> u32
    requires { place < 9 }
    ensures value { result ≡ from_le_bytes w16 (slice_range header.now place (place + 2)) }
    ensures small { result < 2 ^ 16 }
{
    u32::from(u16::from_le_bytes([header[place], header[place + 1]]))
}

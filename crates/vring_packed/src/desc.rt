//! Descriptors.
ghost use Rattle.std.specs.Prelude.{◌≡◌};
ghost use Rattle.vring_packed.specs.Packed.{desc_of, desc_bytes, has_next, is_writable, is_indirect, is_available};

use byteorder::{ByteOrder, LittleEndian};

const NEXT: u16 = 1;

const WRITE: u16 = 2;

const INDIRECT: u16 = 4;

const AVAIL: u16 = 1 << 7;

const USED: u16 = 1 << 15;

/// A descriptor of a packed ring (VIRTIO 1.2, 2.8.13): a piece of memory, or the table that an indirect
/// one refers to.
#[derive(Clone, Copy, Debug, PartialEq, Eq)]
pub struct PackedDesc {
    /// Where the piece starts, as an address of the guest.
    pub addr: u64,
    /// How many bytes it has.
    pub len: u32,
    /// The id of its chain, in the chain's last descriptor.
    pub id: u16,
    /// NEXT 1, WRITE 2, INDIRECT 4, AVAIL 128 and USED 32,768.
    pub flags: u16,
}

impl PackedDesc {
    /// The descriptor that 16 bytes are.
    #[tactic(auto, unfolding(crate::specs::Packed::desc_of))]
    pub fn of(bytes: &[u8; 16]) -> PackedDesc
        ensures value { result ≡ desc_of bytes.now }
    {
        PackedDesc {
            addr: LittleEndian::read_u64(&bytes[..]),
            len: LittleEndian::read_u32(&bytes[8..]),
            id: LittleEndian::read_u16(&bytes[12..]),
            flags: LittleEndian::read_u16(&bytes[14..]),
        }
    }

    /// Its 16 bytes.
    pub fn bytes(&self) -> [u8; 16]
        ensures value { result ≡ desc_bytes self.now }
        ensures back { desc_of result ≡ self.now }
    {
        let PackedDesc {
            addr,
            len,
            id,
            flags,
        } = *self;
        let mut bytes = [0u8; 16];
        LittleEndian::write_u64(&mut bytes[..], addr);
        LittleEndian::write_u32(&mut bytes[8..], len);
        LittleEndian::write_u16(&mut bytes[12..], id);
        LittleEndian::write_u16(&mut bytes[14..], flags);
        bytes
    }

    /// Whether a descriptor comes after this one.
    pub fn has_next(&self) -> bool
        ensures { result ≡ has_next self.now }
    {
        self.flags & NEXT != 0
    }

    /// Whether the device writes the piece, and does not read it.
    pub fn is_writable(&self) -> bool
        ensures { result ≡ is_writable self.now }
    {
        self.flags & WRITE != 0
    }

    /// Whether it refers to a table of descriptors.
    pub fn is_indirect(&self) -> bool
        ensures { result ≡ is_indirect self.now }
    {
        self.flags & INDIRECT != 0
    }

    /// Whether it is available where the wrap counter is this.
    pub fn is_available(&self, wrap: bool) -> bool
        ensures { result ≡ is_available wrap self.now }
    {
        let avail = self.flags & AVAIL != 0;
        let used = self.flags & USED != 0;
        if wrap { avail & !used } else { !avail & used }
    }
}

//! Descriptors.
ghost use Rattle.std.specs.Prelude.{◌≡◌};
ghost use Rattle.vring_split.specs.Split.{desc_of, desc_bytes, has_next, is_writable, is_indirect};

use byteorder::{ByteOrder, LittleEndian};

const NEXT: u16 = 1;

const WRITE: u16 = 2;

const INDIRECT: u16 = 4;

/// A descriptor (VIRTIO 1.2, 2.7.5): a piece of memory, or the table that an indirect one refers to.
#[derive(Clone, Copy, Debug, PartialEq, Eq)]
pub struct Desc {
    /// Where the piece starts, as an address of the guest.
    pub addr: u64,
    /// How many bytes it has.
    pub len: u32,
    /// NEXT 1, WRITE 2 and INDIRECT 4.
    pub flags: u16,
    /// The descriptor after this one, where NEXT is set.
    pub next: u16,
}

impl Desc {
    /// The descriptor that 16 bytes of a table are.
    #[tactic(auto, unfolding(crate::specs::Split::desc_of))]
    pub fn of(bytes: &[u8; 16]) -> Desc
        ensures value { result ≡ desc_of bytes.now }
    {
        Desc {
            addr: LittleEndian::read_u64(&bytes[..]),
            len: LittleEndian::read_u32(&bytes[8..]),
            flags: LittleEndian::read_u16(&bytes[12..]),
            next: LittleEndian::read_u16(&bytes[14..]),
        }
    }

    /// Its 16 bytes.
    pub fn bytes(&self) -> [u8; 16]
        ensures value { result ≡ desc_bytes self.now }
        ensures back { desc_of result ≡ self.now }
    {
        let Desc {
            addr,
            len,
            flags,
            next,
        } = *self;
        let mut bytes = [0u8; 16];
        LittleEndian::write_u64(&mut bytes[..], addr);
        LittleEndian::write_u32(&mut bytes[8..], len);
        LittleEndian::write_u16(&mut bytes[12..], flags);
        LittleEndian::write_u16(&mut bytes[14..], next);
        bytes
    }

    /// Whether a descriptor comes after this one.
    pub fn has_next(&self) -> bool
        ensures { result ≡ has_next self.now }
    {
        self.flags & NEXT != 0
    }

    /// Whether the device writes the piece, and does not read it.
    pub fn is_writable(&self) -> bool
        ensures { result ≡ is_writable self.now }
    {
        self.flags & WRITE != 0
    }

    /// Whether it refers to a table of descriptors.
    pub fn is_indirect(&self) -> bool
        ensures { result ≡ is_indirect self.now }
    {
        self.flags & INDIRECT != 0
    }
}

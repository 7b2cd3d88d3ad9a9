//! Elements of the used ring.
ghost use Rattle.std.specs.Prelude.{◌≡◌};
ghost use Rattle.vring_split.specs.Split.{used_elem_of, used_elem_bytes};

use byteorder::{ByteOrder, LittleEndian};

/// An element of the used ring (VIRTIO 1.2, 2.7.8).
#[derive(Clone, Copy, Debug, PartialEq, Eq)]
pub struct UsedElem {
    /// The head of the chain that was used.
    pub id: u32,
    /// How many bytes were written into its writable pieces.
    pub len: u32,
}

impl UsedElem {
    /// The element that 8 bytes of the used ring are.
    #[tactic(auto, unfolding(crate::specs::Split::used_elem_of))]
    pub fn of(bytes: &[u8; 8]) -> UsedElem
        ensures value { result ≡ used_elem_of bytes.now }
    {
        UsedElem {
            id: LittleEndian::read_u32(&bytes[..]),
            len: LittleEndian::read_u32(&bytes[4..]),
        }
    }

    /// Its 8 bytes.
    pub fn bytes(&self) -> [u8; 8]
        ensures value { result ≡ used_elem_bytes self.now }
        ensures back { used_elem_of result ≡ self.now }
    {
        let UsedElem { id, len } = *self;
        let mut bytes = [0u8; 8];
        LittleEndian::write_u32(&mut bytes[..], id);
        LittleEndian::write_u32(&mut bytes[4..], len);
        bytes
    }
}

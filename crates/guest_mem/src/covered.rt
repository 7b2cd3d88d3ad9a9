//! Reads and writes that can't fail: whoever calls them knows that each byte of the range is there.
ghost use Rattle.std.specs.Prelude.{◌≡◌, IsTrue, length};
ghost use Rattle.guest_mem.specs.Memory.{byte_at, bytes_at, bytes_from, covers, le16_at, with_le16, written};

use crate::memory::Memory;
use byteorder::{ByteOrder, LittleEndian};

impl Memory {
    /// The `len` bytes from `addr` on, as they are kept. Each of them is in a region, as `covers` tests.
    #[inline]
    #[tactic(auto, using(crate::proofs::Ranges::length_bytes_at))]
    pub fn bytes_in(&self, addr: u64, len: u64) -> &[u8]
        requires { IsTrue (covers self.now.regions addr len) }
        ensures len { length result.now ≡ len }
        ensures bytes { result.now ≡ bytes_from self.now.bytes addr len }
        ensures looked_up { result.now ≡ bytes_at (byte_at self.now) addr len }
    {
        self.bytes(addr, len).unwrap()
    }

    /// Fills the room with the bytes from `addr` on. Each of them is in a region, as `covers` tests.
    #[inline]
    pub fn read_in(&self, addr: u64, room: &mut [u8])
        requires { IsTrue (covers self.now.regions addr (length room.old)) }
        ensures bytes { room.new ≡ bytes_from self.now.bytes addr (length room.old) }
        ensures looked_up { room.new ≡ bytes_at (byte_at self.now) addr (length room.old) }
    {
        self.read(addr, room).unwrap();
    }

    /// Writes the bytes from `addr` on. Each of their addresses is in a region, as `covers` tests.
    #[inline]
    pub fn write_in(&mut self, addr: u64, bytes: &[u8])
        requires { IsTrue (covers self.old.regions addr (length bytes.now)) }
        ensures { self.new ≡ written self.old addr bytes.now }
    {
        self.write(addr, bytes).unwrap();
    }

    /// The number whose two bytes, the low one first, start at `addr`. Both are in a region.
    #[inline]
    #[tactic(auto, unfolding(crate::specs::Memory::le16_at))]
    pub fn le16_at(&self, addr: u64) -> u16
        requires { IsTrue (covers self.now.regions addr 2) }
        ensures { result ≡ le16_at self.now addr }
    {
        LittleEndian::read_u16(self.bytes_in(addr, 2))
    }

    /// Writes the two bytes of a number from `addr` on, the low one first. Both addresses are in a region.
    #[inline]
    #[tactic(auto, unfolding(crate::specs::Memory::with_le16))]
    pub fn put_le16(&mut self, addr: u64, number: u16)
        requires { IsTrue (covers self.old.regions addr 2) }
        ensures written { self.new ≡ with_le16 addr number self.old }
        ensures regions { self.new.regions ≡ self.old.regions }
    {
        self.write_in(addr, &number.to_le_bytes());
    }
}

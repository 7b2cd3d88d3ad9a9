//! The fields of a slot.

ghost use Rattle.std.specs.Prelude.{◌≡◌, ◌+◌, ◌*◌, ◌<◌, ◌≤◌, length};
ghost use Rattle.ebpf_code.specs.Encoding.{encoding_at};

/// The fields of a slot as numbers (RFC 9669, 3.1).
#[derive(Clone, Copy, Debug, PartialEq, Eq)]
pub struct Encoding {
    pub opcode: u8,
    /// The field dst, 0 to 15.
    pub destination: u8,
    /// The field src, 0 to 15.
    pub source: u8,
    /// The bits of the field offset, a signed number.
    pub offset: u16,
    /// The bits of the field imm, a signed number.
    pub immediate: u32,
}

impl Encoding {
    /// The fields of the slot at a place.
    #[tactic(auto, unfolding(crate::specs::Encoding::encoding_at))]
    pub fn at(bytes: &[u8], place: usize) -> Encoding
        requires { 8 * place + 8 ≤ length bytes.now }
        ensures value { result ≡ encoding_at bytes.now place }
        ensures destination { result.destination < 16 }
        ensures source { result.source < 16 }
    {
        let first = 8 * place;
        Encoding {
            opcode: bytes[first],
            destination: bytes[first + 1] % 16,
            source: bytes[first + 1] / 16,
            offset: u16::from_le_bytes([bytes[first + 2], bytes[first + 3]]),
            immediate: u32::from_le_bytes([
                bytes[first + 4],
                bytes[first + 5],
                bytes[first + 6],
                bytes[first + 7],
            ]),
        }
    }
}

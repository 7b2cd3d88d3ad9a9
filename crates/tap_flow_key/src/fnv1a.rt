ghost use Rattle.std.specs.Prelude.{◌≡◌, fold};
ghost use Rattle.tap_flow_key.specs.Fnv.{fnv_step, fnv_of};

/// The hash of no bytes.
pub(crate) const OFFSET_BASIS: u32 = 0x811c_9dc5;

/// What each step multiplies by.
const PRIME: u32 = 0x0100_0193;

/// FNV-1a of 32 bits. Takes no memory.
pub fn fnv(bytes: &[u8]) -> u32
    ensures { result ≡ fnv_of bytes.now }
{
    fnv_more(OFFSET_BASIS, bytes)
}

/// Takes further bytes into a hash.
pub(crate) fn fnv_more(mut hash: u32, bytes: &[u8]) -> u32
    ensures { result ≡ fold fnv_step hash bytes.now }
{
    for byte in bytes {
        hash = (hash ^ u32::from(*byte)).wrapping_mul(PRIME);
    }
    hash
}

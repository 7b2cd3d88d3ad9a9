//! Addresses, and what is known of them.
ghost use Rattle.std.specs.Prelude.{◌≡◌, ◌≤◌, length};
ghost use Rattle.tap_bridge.specs.Bridge.{is_odd, destination as destination_of, source as source_of};

/// For how many milliseconds an address is known.
pub const STAY: u64 = 300_000;

/// How many addresses may be known at once.
pub const MOST: usize = 4096;

/// The address of a station.
#[derive(Clone, Copy, Debug, PartialEq, Eq, PartialOrd, Ord)]
pub struct Address {
    /// Its bytes, in the order of a frame.
    pub bytes: [u8; 6],
}

/// Where an address was last seen.
#[derive(Clone, Copy, Debug, PartialEq, Eq)]
pub struct Seen {
    /// The port.
    pub port: u16,
    /// The time, in milliseconds.
    pub time: u64,
}

// Whether an address that begins with this byte is of a group.
pub fn is_group(first: u8) -> bool
    ensures { result ≡ is_odd first }
{
    first % 2 == 1
}

// The address to which a frame goes.
pub fn destination(frame: &[u8]) -> Address
    requires { 14 ≤ length frame.now }
    ensures { result ≡ destination_of frame.now }
{
    Address {
        bytes: [frame[0], frame[1], frame[2], frame[3], frame[4], frame[5]],
    }
}

// The address from which it comes.
pub fn source(frame: &[u8]) -> Address
    requires { 14 ≤ length frame.now }
    ensures { result ≡ source_of frame.now }
{
    Address {
        bytes: [frame[6], frame[7], frame[8], frame[9], frame[10], frame[11]],
    }
}

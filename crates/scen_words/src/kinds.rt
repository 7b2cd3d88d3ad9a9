//! The kinds of the fields of a scenario, with their ranges.

use crate::limits::{MAX_FILE, MAX_FIRST, MAX_PLACES, MAX_ROOM};
use text_fields::{Digits, Kind, Shape};

// The number of a file.
pub const FILE: Kind = Kind::Plain(Shape::Number {
    least: 0,
    most: MAX_FILE,
});
// The number of a guest.
pub const GUEST: Kind = Kind::Plain(Shape::Number { least: 0, most: 7 });
// The number of a vhost.
pub const VHOST: Kind = Kind::Plain(Shape::Number { least: 0, most: 63 });
// The number of a program.
pub const PROGRAM: Kind = Kind::Plain(Shape::Number { least: 0, most: 63 });
// The places of a ring.
pub const CAPACITY: Kind = Kind::Plain(Shape::Number {
    least: 1,
    most: MAX_PLACES,
});
// The number of a file's first place.
pub const FIRST: Kind = Kind::Plain(Shape::Number {
    least: 0,
    most: MAX_FIRST,
});
// The name of a device.
pub const NAME: Kind = Kind::Plain(Shape::Name);
// HEX4: flags, the most significant digit first.
pub const FLAGS: Kind = Kind::Plain(Shape::HexNumber(Digits::Four));
// Off or on.
pub const SWITCH: Kind = Kind::Plain(Shape::Number { least: 0, most: 1 });
// A number below 2^32.
pub const BELOW_32: Kind = Kind::Plain(Shape::Number {
    least: 0,
    most: 4_294_967_295,
});
// Milliseconds.
pub const CLOCK: Kind = Kind::Plain(Shape::Number {
    least: 0,
    most: 1_000_000_000_000_000,
});
// HEX: bytes.
pub const BYTES: Kind = Kind::Plain(Shape::Hex);
// Room for a frame.
pub const ROOM: Kind = Kind::Plain(Shape::Number {
    least: 0,
    most: MAX_ROOM,
});
// HEX16: feature bits.
pub const FEATURES: Kind = Kind::Plain(Shape::HexNumber(Digits::Sixteen));
// A ring that a vhost has.
pub const RING: Kind = Kind::Plain(Shape::Number { least: 0, most: 1 });
// The number of a ring that a vhost may lack.
pub const ANY_RING: Kind = Kind::Plain(Shape::Number {
    least: 0,
    most: 65_535,
});
// Any number.
pub const ANY: Kind = Kind::Plain(Shape::Number {
    least: 0,
    most: u64::MAX,
});
// How many bytes are peeked.
pub const PEEKED: Kind = Kind::Plain(Shape::Number {
    least: 1,
    most: 256,
});
// The actors of a phase.
pub const ACTORS: Kind = Kind::Plain(Shape::Number { least: 1, most: 16 });
// The flows of a device.
pub const FLOW_LIMIT: Kind = Kind::Plain(Shape::Number {
    least: 1,
    most: 65_536,
});
// The age of a flow, in milliseconds.
pub const FLOW_AGE: Kind = Kind::Plain(Shape::Number {
    least: 1,
    most: 1_000_000_000,
});
// The number of a program, or `-`.
pub const PROGRAM_OR_NONE: Kind = Kind::OrDash(Shape::Number { least: 0, most: 63 });
// The number of a file, or `-`.
pub const FILE_OR_NONE: Kind = Kind::OrDash(Shape::Number {
    least: 0,
    most: MAX_FILE,
});
// HEX20: a header, or `-`.
pub const HEADER: Kind = Kind::OrDash(Shape::HexBytes(20));

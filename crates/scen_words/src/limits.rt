//! The limits of a scenario.

/// The most bytes of its text.
pub const MAX_BYTES: usize = 67_108_864;

/// The most commands.
pub const MAX_COMMANDS: u32 = 200_000;

/// The most turns of workers among them.
pub const MAX_TURNS: u32 = 512;

/// The most names of devices.
pub const MAX_NAMES: usize = 64;

/// The most places of a file's ring.
pub const MAX_PLACES: u64 = 1_024;

/// The greatest number of a file.
pub const MAX_FILE: u64 = 319;

/// The greatest first place of a file.
pub const MAX_FIRST: u64 = 1_099_511_627_775;

/// The most room of a read, in bytes.
pub const MAX_ROOM: u64 = 131_072;

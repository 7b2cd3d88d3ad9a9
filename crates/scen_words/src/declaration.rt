//! The declarations of a scenario.

use ebpf_code::Program;

/// One declaration.
#[derive(Drop)]
pub enum Declaration {
    /// `file F CAP FIRST`: a file, the number of places of its ring, and the number of its first place.
    File {
        file: u16,
        capacity: u16,
        first: u64,
    },
    /// `region G ADDR LEN`: the next region of a guest's memory.
    Region {
        guest: u16,
        addr: u64,
        len: u64,
    },
    /// `vhost V G`: a vhost over a guest's memory.
    Vhost {
        vhost: u16,
        guest: u16,
    },
    /// `prog P HEX`: a program.
    Prog {
        program: u16,
        code: Program,
    },
    /// `flows NAME LIMIT AGE`: how many flows the device of this name remembers, and for how many milliseconds.
    Flows {
        name: u16,
        limit: u32,
        age: u64,
    },
}

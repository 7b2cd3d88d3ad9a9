//! The commands of a scenario.

ghost use Rattle.std.specs.Prelude.{◌≡◌, IfOk};
ghost use Rattle.scen_words.specs.Commands.{file_of, guest_of, is_turn, program_of, vhost_of};

use sqlite_items::Items;
use std::alloc::{AllocError, Global};
use tap_frame::Hdr;
use text_fields::SharedBytes;

/// One command. A file, a vhost, a guest or a program is its number, and a name is its number in the scenario's names.
#[derive(Debug, Drop)]
pub enum Command {
    /// `setiff F NAME HEX4`: attaches the file to the device of this name, as TUNSETIFF with these flags.
    SetIff {
        file: u16,
        name: u16,
        flags: u16,
    },
    /// `setqueue F HEX4`: attaches or detaches the file's queue, as TUNSETQUEUE with these flags.
    SetQueue {
        file: u16,
        flags: u16,
    },
    /// `close F`: closes the file.
    Close {
        file: u16,
    },
    /// `persist F B`: makes the file's device persistent or not, as TUNSETPERSIST.
    Persist {
        file: u16,
        on: bool,
    },
    /// `hdrsize F N`: sets the header size of the file's device, as TUNSETVNETHDRSZ.
    HdrSize {
        file: u16,
        size: u32,
    },
    /// `steer F P` or `steer F -`: gives the file's device a steering program, or takes it away.
    Steer {
        file: u16,
        program: Option<u16>,
    },
    /// `filter F P` or `filter F -`: gives the file's device a filter, or takes it away.
    Filter {
        file: u16,
        program: Option<u16>,
    },
    /// `tick MS`: the clock is at so many milliseconds.
    Tick {
        now: u64,
    },
    /// `resize F CAP`: gives the file's ring so many places.
    Resize {
        file: u16,
        capacity: u16,
    },
    /// `send NAME HDR HEX`: sends a frame to the device of this name; without a header the whole is Ethernet bytes.
    Send {
        name: u16,
        hdr: Option<Hdr>,
        bytes: SharedBytes,
    },
    /// `read F ROOM`: reads the next frame of the file into room for 0 to 131,072 bytes.
    Read {
        file: u16,
        room: u32,
    },
    /// `write F HEX`: writes a frame to the file.
    Write {
        file: u16,
        bytes: SharedBytes,
    },
    /// `features V HEX16`: sets the feature bits of the vhost.
    Features {
        vhost: u16,
        bits: u64,
    },
    /// `vnum V R N`: sets how many descriptors the ring has.
    VNum {
        vhost: u16,
        ring: u16,
        num: u64,
    },
    /// `vbase V R N`: sets the position at which the ring begins.
    VBase {
        vhost: u16,
        ring: u16,
        base: u64,
    },
    /// `vaddr V R DESC AVAIL USED`: sets the addresses of the ring's three parts.
    VAddr {
        vhost: u16,
        ring: u16,
        desc: u64,
        avail: u64,
        used: u64,
    },
    /// `getbase V R`: asks for the position of the ring, and stops it.
    GetBase {
        vhost: u16,
        ring: u16,
    },
    /// `backend V R F` or `backend V R -`: gives the ring this file as its backend, or none.
    Backend {
        vhost: u16,
        ring: u16,
        file: Option<u16>,
    },
    /// `rxturn V`: a turn of the receive worker.
    RxTurn {
        vhost: u16,
    },
    /// `txturn V`: a turn of the transmit worker.
    TxTurn {
        vhost: u16,
    },
    /// `poke G ADDR HEX`: writes bytes to the guest's memory.
    Poke {
        guest: u16,
        addr: u64,
        bytes: SharedBytes,
    },
    /// `peek G ADDR LEN`: reads 1 to 256 bytes of the guest's memory.
    Peek {
        guest: u16,
        addr: u64,
        len: u32,
    },
    /// `drive V R ADDR`: a driver lays the ring out at this address.
    DriveAt {
        vhost: u16,
        ring: u16,
        addr: u64,
    },
    /// `postin V R LEN LEN`: the driver makes a chain of buffers of these lengths available, to be written.
    PostIn {
        vhost: u16,
        ring: u16,
        lens: Items<u32>,
    },
    /// `postout V R HEX`: the driver makes a chain with these bytes available.
    PostOut {
        vhost: u16,
        ring: u16,
        bytes: SharedBytes,
    },
    /// `harvest V R`: the driver takes the used chains.
    Harvest {
        vhost: u16,
        ring: u16,
    },
}

impl Command {
    /// The file that it names.
    pub fn file(&self) -> Option<u16>
        ensures { result ≡ file_of self.now }
    {
        match self {
            Command::SetIff { file, .. }
            | Command::SetQueue { file, .. }
            | Command::Close { file, .. }
            | Command::Persist { file, .. }
            | Command::HdrSize { file, .. }
            | Command::Steer { file, .. }
            | Command::Filter { file, .. }
            | Command::Resize { file, .. }
            | Command::Read { file, .. }
            | Command::Write { file, .. } => Some(*file),
            Command::Backend { file, .. } => *file,
            _ => None,
        }
    }

    /// The guest that it names.
    pub fn guest(&self) -> Option<u16>
        ensures { result ≡ guest_of self.now }
    {
        match self {
            Command::Poke { guest, .. } | Command::Peek { guest, .. } => Some(*guest),
            _ => None,
        }
    }

    /// The vhost that it names.
    pub fn vhost(&self) -> Option<u16>
        ensures { result ≡ vhost_of self.now }
    {
        match self {
            Command::Features { vhost, .. }
            | Command::VNum { vhost, .. }
            | Command::VBase { vhost, .. }
            | Command::VAddr { vhost, .. }
            | Command::GetBase { vhost, .. }
            | Command::Backend { vhost, .. }
            | Command::RxTurn { vhost, .. }
            | Command::TxTurn { vhost, .. }
            | Command::DriveAt { vhost, .. }
            | Command::PostIn { vhost, .. }
            | Command::PostOut { vhost, .. }
            | Command::Harvest { vhost, .. } => Some(*vhost),
            _ => None,
        }
    }

    /// The program that it names.
    pub fn program(&self) -> Option<u16>
        ensures { result ≡ program_of self.now }
    {
        match self {
            Command::Steer { program, .. } | Command::Filter { program, .. } => *program,
            _ => None,
        }
    }

    /// Whether it is a turn of a worker.
    pub fn is_turn(&self) -> bool
        ensures { result ≡ is_turn self.now }
    {
        matches!(self, Command::RxTurn { .. } | Command::TxTurn { .. })
    }

    /// The same command once more. Bytes are shared and not copied.
    pub fn duplicate(&self, alloc: Global) -> Result<Command, AllocError>
        ensures { IfOk result (λ c. c ≡ self.now) }
    {
        Ok(match self {
            Command::SetIff { file, name, flags } => Command::SetIff {
                file: *file,
                name: *name,
                flags: *flags,
            },
            Command::SetQueue { file, flags } => Command::SetQueue {
                file: *file,
                flags: *flags,
            },
            Command::Close { file } => Command::Close { file: *file },
            Command::Persist { file, on } => Command::Persist {
                file: *file,
                on: *on,
            },
            Command::HdrSize { file, size } => Command::HdrSize {
                file: *file,
                size: *size,
            },
            Command::Steer { file, program } => Command::Steer {
                file: *file,
                program: *program,
            },
            Command::Filter { file, program } => Command::Filter {
                file: *file,
                program: *program,
            },
            Command::Tick { now } => Command::Tick { now: *now },
            Command::Resize { file, capacity } => Command::Resize {
                file: *file,
                capacity: *capacity,
            },
            Command::Send { name, hdr, bytes } => Command::Send {
                name: *name,
                hdr: *hdr,
                bytes: bytes.share()?,
            },
            Command::Read { file, room } => Command::Read {
                file: *file,
                room: *room,
            },
            Command::Write { file, bytes } => Command::Write {
                file: *file,
                bytes: bytes.share()?,
            },
            Command::Features { vhost, bits } => Command::Features {
                vhost: *vhost,
                bits: *bits,
            },
            Command::VNum { vhost, ring, num } => Command::VNum {
                vhost: *vhost,
                ring: *ring,
                num: *num,
            },
            Command::VBase { vhost, ring, base } => Command::VBase {
                vhost: *vhost,
                ring: *ring,
                base: *base,
            },
            Command::VAddr {
                vhost,
                ring,
                desc,
                avail,
                used,
            } => Command::VAddr {
                vhost: *vhost,
                ring: *ring,
                desc: *desc,
                avail: *avail,
                used: *used,
            },
            Command::GetBase { vhost, ring } => Command::GetBase {
                vhost: *vhost,
                ring: *ring,
            },
            Command::Backend { vhost, ring, file } => Command::Backend {
                vhost: *vhost,
                ring: *ring,
                file: *file,
            },
            Command::RxTurn { vhost } => Command::RxTurn { vhost: *vhost },
            Command::TxTurn { vhost } => Command::TxTurn { vhost: *vhost },
            Command::Poke { guest, addr, bytes } => Command::Poke {
                guest: *guest,
                addr: *addr,
                bytes: bytes.share()?,
            },
            Command::Peek { guest, addr, len } => Command::Peek {
                guest: *guest,
                addr: *addr,
                len: *len,
            },
            Command::DriveAt { vhost, ring, addr } => Command::DriveAt {
                vhost: *vhost,
                ring: *ring,
                addr: *addr,
            },
            Command::PostIn { vhost, ring, lens } => Command::PostIn {
                vhost: *vhost,
                ring: *ring,
                lens: Items::from_slice(alloc, lens.as_slice())?,
            },
            Command::PostOut { vhost, ring, bytes } => Command::PostOut {
                vhost: *vhost,
                ring: *ring,
                bytes: bytes.share()?,
            },
            Command::Harvest { vhost, ring } => Command::Harvest {
                vhost: *vhost,
                ring: *ring,
            },
        })
    }
}

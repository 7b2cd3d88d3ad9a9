//! Making a scenario.

ghost use Rattle.std.specs.Prelude.{◌≡◌, ◌≤◌, ◌<◌, ◌++◌, ◌∷◌, [], IfOk, OnOk, codes};
ghost use Rattle.scen_gen.specs.Generated.{attachments, attach, attached, file_of, frame_of, generated, lines, lines_at, read_line, read_of, reads, reads_at, send_line, send_of, sends, traffic};

use scen_text::{Command, Declaration, Line, Phase, Scenario, Script};
use sqlite_items::Items;
use std::alloc::{AllocError, Global};
use text_fields::{DeviceName, SharedBytes};

/// How many places a file has.
const PLACES: u16 = 256;

/// IFF_TAP, IFF_MULTI_QUEUE, IFF_NO_PI and IFF_VNET_HDR.
const FLAGS: u16 = 0x5102;

/// Room for a read.
const ROOM: u32 = 2048;

/// What stands before the source port of a frame: the Ethernet header and the IPv4 header.
const HEADERS: [u8; 34] = [
    0x02, 0, 0, 0, 0, 0x01, 0x02, 0, 0, 0, 0, 0x02, 0x08, 0, 0x45, 0, 0, 0x2e, 0, 0, 0, 0, 0x40,
    0x11, 0, 0, 0x0a, 0, 0, 0x01, 0x0a, 0, 0, 0x02,
];

/// What stands behind it: the destination port, the length and no checksum.
const DATAGRAM: [u8; 6] = [0, 0x35, 0, 0x1a, 0, 0];

// The bytes of the frame of this send.
#[tactic(auto, unfolding(crate::specs::Generated::frame_of))]
fn frame_of(alloc: Global, i: u32) -> Result<Vec<u8>, AllocError>
    ensures { IfOk result (λ bytes. bytes.items ≡ frame_of i) }
{
    let port = (1000 + i % 256) as u16;
    let mut bytes = Vec::new(alloc);
    bytes.extend_from_slice(&HEADERS)?;
    bytes.extend_from_slice(&port.to_be_bytes())?;
    bytes.extend_from_slice(&DATAGRAM)?;
    bytes.extend_from_slice(&i.to_be_bytes())?;
    bytes.extend_from_slice(&[0; 14])?;
    Ok(bytes)
}

fn file(file: u16) -> Declaration
    ensures { result ≡ file_of file }
{
    Declaration::File {
        file,
        capacity: PLACES,
        first: 0,
    }
}

fn files(alloc: Global) -> Result<Items<Declaration>, AllocError>
    ensures { IfOk result (λ files. files ≡ file_of 0 ∷ file_of 1 ∷ file_of 2 ∷ file_of 3 ∷ []) }
{
    let mut files = Items::new(alloc);
    files.push(file(0))?;
    files.push(file(1))?;
    files.push(file(2))?;
    files.push(file(3))?;
    Ok(files)
}

fn names(alloc: Global) -> Result<Items<DeviceName>, AllocError>
    ensures { IfOk result (λ names. names ≡ codes "tap0" ∷ []) }
{
    let mut names = Items::new(alloc);
    match DeviceName::of(b"tap0") {
        Some(name) => names.push(name)?,
        None => unreachable!(),
    }
    Ok(names)
}

fn attach(file: u16) -> Command
    ensures { result ≡ attach file }
{
    Command::SetIff {
        file,
        name: 0,
        flags: FLAGS,
    }
}

fn attached(file: u16) -> Line
    ensures { result ≡ attached file }
{
    Line {
        actor: 0,
        number: u32::from(file),
        command: attach(file),
    }
}

fn attach_commands(alloc: Global) -> Result<Items<Command>, AllocError>
    ensures { IfOk result (λ all. all ≡ attach 0 ∷ attach 1 ∷ attach 2 ∷ attach 3 ∷ []) }
{
    let mut all = Items::new(alloc);
    all.push(attach(0))?;
    all.push(attach(1))?;
    all.push(attach(2))?;
    all.push(attach(3))?;
    Ok(all)
}

fn attach_lines(alloc: Global) -> Result<Items<Line>, AllocError>
    ensures { IfOk result (λ all. all ≡ attached 0 ∷ attached 1 ∷ attached 2 ∷ attached 3 ∷ []) }
{
    let mut all = Items::new(alloc);
    all.push(attached(0))?;
    all.push(attached(1))?;
    all.push(attached(2))?;
    all.push(attached(3))?;
    Ok(all)
}

// The phase that attaches the files.
fn attachments(alloc: Global) -> Result<Phase, AllocError>
    ensures { IfOk result (λ phase. phase ≡ attachments) }
{
    let mut scripts = Items::new(alloc);
    scripts.push(Script {
        commands: attach_commands(alloc)?,
    })?;
    Ok(Phase {
        actors: 1,
        scripts,
        lines: attach_lines(alloc)?,
    })
}

fn send(alloc: Global, i: u32) -> Result<Command, AllocError>
    ensures { IfOk result (λ command. command ≡ send_of i) }
{
    Ok(Command::Send {
        name: 0,
        hdr: None,
        bytes: SharedBytes::new(alloc, frame_of(alloc, i)?)?,
    })
}

fn read(i: u32) -> Command
    ensures { result ≡ read_of i }
{
    Command::Read {
        file: (i / 2 % 4) as u16,
        room: ROOM,
    }
}

/// A phase while it grows: the commands of both actors, and all in the order given.
#[derive(Drop)]
struct Growing {
    sends: Items<Command>,
    reads: Items<Command>,
    lines: Items<Line>,
}

// Adds the read behind this send.
fn add_read(growing: &mut Growing, i: u32) -> Result<(), AllocError>
    requires { i < 100000 }
    ensures sends { OnOk result (growing.new.sends ≡ growing.old.sends) }
    ensures reads { OnOk result (growing.new.reads ≡ growing.old.reads ++ read_of i ∷ []) }
    ensures lines { OnOk result (growing.new.lines ≡ growing.old.lines ++ read_line i ∷ []) }
{
    growing.lines.push(Line {
        actor: 1,
        number: 5 + i + i / 2,
        command: read(i),
    })?;
    growing.reads.push(read(i))?;
    Ok(())
}

// Adds this send.
fn add_send(alloc: Global, growing: &mut Growing, i: u32) -> Result<(), AllocError>
    requires { i < 100000 }
    ensures sends { OnOk result (growing.new.sends ≡ growing.old.sends ++ send_of i ∷ []) }
    ensures reads { OnOk result (growing.new.reads ≡ growing.old.reads) }
    ensures lines { OnOk result (growing.new.lines ≡ growing.old.lines ++ send_line i ∷ []) }
{
    let send = send(alloc, i)?;
    growing.lines.push(Line {
        actor: 0,
        number: 4 + i + i / 2,
        command: send.duplicate(alloc)?,
    })?;
    growing.sends.push(send)?;
    Ok(())
}

// Adds this send, and the read behind it.
fn add(alloc: Global, growing: &mut Growing, i: u32) -> Result<(), AllocError>
    requires { i < 100000 }
    ensures sends { OnOk result (growing.new.sends ≡ growing.old.sends ++ send_of i ∷ []) }
    ensures reads { OnOk result (growing.new.reads ≡ growing.old.reads ++ reads_at i) }
    ensures lines { OnOk result (growing.new.lines ≡ growing.old.lines ++ lines_at i) }
{
    add_send(alloc, growing, i)?;
    if i % 2 == 1 {
        add_read(growing, i)?;
    }
    Ok(())
}

// So many sends, with their reads.
fn grown(alloc: Global, n: u32) -> Result<Growing, AllocError>
    requires { n ≤ 100000 }
    ensures sends { IfOk result (λ g. g.sends ≡ sends n) }
    ensures reads { IfOk result (λ g. g.reads ≡ reads n) }
    ensures lines { IfOk result (λ g. g.lines ≡ lines n) }
{
    let mut growing = Growing {
        sends: Items::new(alloc),
        reads: Items::new(alloc),
        lines: Items::new(alloc),
    };
    for i in 0..n {
        add(alloc, &mut growing, i)?;
    }
    Ok(growing)
}

// The phase that sends and reads.
fn traffic(alloc: Global, n: u32) -> Result<Phase, AllocError>
    requires { n ≤ 100000 }
    ensures { IfOk result (λ phase. phase ≡ traffic n) }
{
    let Growing {
        sends,
        reads,
        lines,
    } = grown(alloc, n)?;
    let mut scripts = Items::new(alloc);
    scripts.push(Script { commands: sends })?;
    scripts.push(Script { commands: reads })?;
    Ok(Phase {
        actors: 2,
        scripts,
        lines,
    })
}

/// The scenario with so many sends: four files on one device, and a phase of two actors, of which one sends and the
/// other reads after every second send.
pub fn generate(alloc: Global, n: u32) -> Result<Scenario, AllocError>
    requires some { 1 ≤ n }
    requires most { n ≤ 100000 }
    ensures { IfOk result (λ scenario. scenario ≡ generated n) }
{
    let mut phases = Items::new(alloc);
    phases.push(attachments(alloc)?)?;
    phases.push(traffic(alloc, n)?)?;
    Ok(Scenario {
        version: 1,
        declarations: files(alloc)?,
        names: names(alloc)?,
        phases,
    })
}

//! The lines of declarations and commands.

ghost use Rattle.std.specs.Prelude.{◌≡◌, ◌++◌, ◌∷◌, OnOk, string_bytes};
ghost use Rattle.std.specs.Fmt.{decimal};
ghost use Rattle.std.specs.List.{flat_map};
ghost use Rattle.text_fields.specs.Lines.{spaced};
ghost use Rattle.scen_words.specs.Commands.{command_word, declaration_word, name_of};
ghost use Rattle.scen_words.specs.Field.{line};
ghost use Rattle.scen_words.specs.Rows.{command_fields, command_row, declaration_fields, declaration_row};

use crate::command::Command;
use crate::declaration::Declaration;
use crate::word::{CommandWord, DeclarationWord};
use ebpf_code::encode;
use std::alloc::{AllocError, Global};
use std::fmt;
use std::fmt::Write;
use tap_frame::Hdr;
use text_fields::{DeviceName, Digits, HexDigits, LowerHex};

// The name of a number, or nothing where no name has it.
fn name_of(names: &[DeviceName], n: u16) -> &str
    ensures { result.now ≡ name_of names.now n }
{
    match names.get(n as usize) {
        Some(name) => name.as_str(),
        None => "",
    }
}

// A number or `-`.
#[derive(Clone, Copy)]
struct OrDash(Option<u16>);

impl fmt::Display for OrDash {
    ghost use Rattle.std.specs.Prelude.{Some};
    ghost use Rattle.scen_words.specs.Shown.{number_or_dash};

    ghost output = { λ n. Some (number_or_dash n.0) };

    fn fmt<W: fmt::Write>(&self, f: &mut fmt::Formatter<W>) -> fmt::Result {
        match self.0 {
            Some(n) => write!(f, "{n}"),
            None => f.write_str("-"),
        }
    }
}

// A header or `-`.
#[derive(Clone, Copy)]
struct Header(Option<Hdr>);

impl fmt::Display for Header {
    ghost use Rattle.std.specs.Prelude.{Some};
    ghost use Rattle.scen_words.specs.Shown.{header_or_dash};

    ghost output = { λ h. Some (header_or_dash h.0) };

    fn fmt<W: fmt::Write>(&self, f: &mut fmt::Formatter<W>) -> fmt::Result {
        match &self.0 {
            Some(header) => write!(f, "{}", LowerHex::new(&header.bytes)),
            None => f.write_str("-"),
        }
    }
}

// The fields behind the word of a declaration, each behind a space.
#[tactic(auto, unfolding(crate::specs::Commands::declaration_values))]
fn put_declaration_fields(
    out: &mut String,
    alloc: Global,
    names: &[DeviceName],
    declaration: &Declaration,
) -> Result<(), AllocError>
    ensures { OnOk result (string_bytes out.new ≡ string_bytes out.old
        ++ spaced (declaration_fields names.now declaration.now)) }
{
    match declaration {
        Declaration::File {
            file,
            capacity,
            first,
        } => {
            if *first == 0 {
                write!(out, " {file} {capacity}")
            } else {
                write!(out, " {file} {capacity} {first}")
            }
        }
        Declaration::Region { guest, addr, len } => write!(out, " {guest} {addr} {len}"),
        Declaration::Vhost { vhost, guest } => write!(out, " {vhost} {guest}"),
        Declaration::Prog { program, code } => {
            let bytes = encode(alloc, code)?;
            write!(out, " {program} {}", LowerHex::new(bytes.as_slice()))
        }
        Declaration::Flows { name, limit, age } => {
            let name = name_of(names, *name);
            write!(out, " {name} {limit} {age}")
        }
    }
}

// The lengths, each behind a space.
fn put_lengths(out: &mut String, lens: &[u32]) -> Result<(), AllocError>
    ensures { OnOk result (string_bytes out.new ≡ string_bytes out.old ++ flat_map (λ n. 32 ∷ decimal n) lens.now) }
{
    for len in lens {
        write!(out, " {len}")?;
    }
    Ok(())
}

// The fields behind the word of a command of the table, of a file or of the clock, each behind a space.
#[tactic(auto, unfolding(crate::specs::Commands::command_values))]
fn put_command_fields(
    out: &mut String,
    names: &[DeviceName],
    command: &Command,
) -> Result<(), AllocError>
    ensures { OnOk result (string_bytes out.new ≡ string_bytes out.old
        ++ spaced (command_fields names.now command.now)) }
{
    match command {
        Command::SetIff { file, name, flags } => {
            let name = name_of(names, *name);
            write!(out, " {file} {name} {}", four_digits(*flags))
        }
        Command::SetQueue { file, flags } => write!(out, " {file} {}", four_digits(*flags)),
        Command::Close { file } => write!(out, " {file}"),
        Command::Persist { file, on } => write!(out, " {file} {}", *on as u8),
        Command::HdrSize { file, size } => write!(out, " {file} {size}"),
        Command::Steer { file, program } => write!(out, " {file} {}", OrDash(*program)),
        Command::Filter { file, program } => write!(out, " {file} {}", OrDash(*program)),
        Command::Tick { now } => write!(out, " {now}"),
        Command::Resize { file, capacity } => write!(out, " {file} {capacity}"),
        Command::Send { name, hdr, bytes } => {
            let name = name_of(names, *name);
            write!(
                out,
                " {name} {} {}",
                Header(*hdr),
                LowerHex::new(bytes.as_slice())
            )
        }
        Command::Read { file, room } => write!(out, " {file} {room}"),
        Command::Write { file, bytes } => write!(
            out,
            " {file} {}",
            LowerHex::new(bytes.as_slice())
        ),
        Command::Features { vhost, bits } => {
            write!(out, " {vhost} {}", HexDigits::new(*bits, Digits::Sixteen))
        }
        Command::VNum { vhost, ring, num } => write!(out, " {vhost} {ring} {num}"),
        Command::VBase { vhost, ring, base } => write!(out, " {vhost} {ring} {base}"),
        Command::VAddr {
            vhost,
            ring,
            desc,
            avail,
            used,
        } => write!(out, " {vhost} {ring} {desc} {avail} {used}"),
        Command::GetBase { vhost, ring } => write!(out, " {vhost} {ring}"),
        Command::Backend { vhost, ring, file } => write!(out, " {vhost} {ring} {}", OrDash(*file)),
        Command::RxTurn { vhost } => write!(out, " {vhost}"),
        Command::TxTurn { vhost } => write!(out, " {vhost}"),
        Command::Poke { guest, addr, bytes } => {
            write!(out, " {guest} {addr} {}", LowerHex::new(bytes.as_slice()))
        }
        Command::Peek { guest, addr, len } => write!(out, " {guest} {addr} {len}"),
        Command::DriveAt { vhost, ring, addr } => write!(out, " {vhost} {ring} {addr}"),
        Command::PostIn { vhost, ring, lens } => {
            write!(out, " {vhost} {ring}")?;
            put_lengths(out, lens.as_slice())
        }
        Command::PostOut { vhost, ring, bytes } => {
            write!(out, " {vhost} {ring} {}", LowerHex::new(bytes.as_slice()))
        }
        Command::Harvest { vhost, ring } => write!(out, " {vhost} {ring}"),
    }
}

// Flags in four digits.
fn four_digits(flags: u16) -> HexDigits
    ensures number { result.number ≡ flags }
    ensures digits { result.digits ≡ Digits.Four }
{
    HexDigits::new(flags as u64, Digits::Four)
}

// The word of a declaration.
fn declaration_word(declaration: &Declaration) -> DeclarationWord
    ensures { result ≡ declaration_word declaration.now }
{
    match declaration {
        Declaration::File { .. } => DeclarationWord::File,
        Declaration::Region { .. } => DeclarationWord::Region,
        Declaration::Vhost { .. } => DeclarationWord::Vhost,
        Declaration::Prog { .. } => DeclarationWord::Prog,
        Declaration::Flows { .. } => DeclarationWord::Flows,
    }
}

// The word of a command.
fn command_word(command: &Command) -> CommandWord
    ensures { result ≡ command_word command.now }
{
    match command {
        Command::SetIff { .. } => CommandWord::SetIff,
        Command::SetQueue { .. } => CommandWord::SetQueue,
        Command::Close { .. } => CommandWord::Close,
        Command::Persist { .. } => CommandWord::Persist,
        Command::HdrSize { .. } => CommandWord::HdrSize,
        Command::Steer { .. } => CommandWord::Steer,
        Command::Filter { .. } => CommandWord::Filter,
        Command::Tick { .. } => CommandWord::Tick,
        Command::Resize { .. } => CommandWord::Resize,
        Command::Send { .. } => CommandWord::Send,
        Command::Read { .. } => CommandWord::Read,
        Command::Write { .. } => CommandWord::Write,
        Command::Features { .. } => CommandWord::Features,
        Command::VNum { .. } => CommandWord::VNum,
        Command::VBase { .. } => CommandWord::VBase,
        Command::VAddr { .. } => CommandWord::VAddr,
        Command::GetBase { .. } => CommandWord::GetBase,
        Command::Backend { .. } => CommandWord::Backend,
        Command::RxTurn { .. } => CommandWord::RxTurn,
        Command::TxTurn { .. } => CommandWord::TxTurn,
        Command::Poke { .. } => CommandWord::Poke,
        Command::Peek { .. } => CommandWord::Peek,
        Command::DriveAt { .. } => CommandWord::Drive,
        Command::PostIn { .. } => CommandWord::PostIn,
        Command::PostOut { .. } => CommandWord::PostOut,
        Command::Harvest { .. } => CommandWord::Harvest,
    }
}

/// Adds the line of a declaration: its word, and the fields behind it.
pub fn put_declaration(
    out: &mut String,
    alloc: Global,
    names: &[DeviceName],
    declaration: &Declaration,
) -> Result<(), AllocError>
    ensures { OnOk result (string_bytes out.new ≡ string_bytes out.old
        ++ line (declaration_row names.now declaration.now)) }
{
    out.push_str(declaration_word(declaration).spelling())?;
    put_declaration_fields(out, alloc, names, declaration)?;
    out.push('\n')?;
    Ok(())
}

/// Adds the line of a command outside a block: its word, and the fields behind it.
pub fn put_command(
    out: &mut String,
    names: &[DeviceName],
    command: &Command,
) -> Result<(), AllocError>
    ensures { OnOk result (string_bytes out.new ≡ string_bytes out.old
        ++ line (command_row names.now command.now)) }
{
    out.push_str(command_word(command).spelling())?;
    put_command_fields(out, names, command)?;
    out.push('\n')?;
    Ok(())
}

//! The command that a word and its values are.

ghost use Rattle.std.specs.Prelude.{◌≡◌, map, IfErr, IfOk, None, OnOk, Some};
ghost use Rattle.std.specs.Option.{option_copied};
ghost use Rattle.text_fields.specs.declared.value.Value.TheVariants as value;
ghost use Rattle.std.specs.Option.{option_map};
ghost use Rattle.ebpf_code.specs.FirstFault.{first_fault};
ghost use Rattle.tap_ground.specs.Errors.{IfFault};
ghost use Rattle.scen_words.specs.declared.word.DeclarationWord.TheVariants as declaration;
ghost use Rattle.scen_words.specs.Commands.{bytes_at, command_of, commanded_name, declaration_of, declared_name, flag_at, header_at, header_in, length_in, lengths_from, name_at, option_at, u16_at, u32_at, u64_at};

use crate::command::Command;
use crate::declaration::Declaration;
use crate::word::{CommandWord, DeclarationWord};
use ebpf_code::{CodeFault, accept, first_fault_laws};
use sqlite_items::Items;
use std::alloc::{AllocError, Global};
use tap_frame::Hdr;
use tap_ground::OrMemory;
use text_fields::{DeviceName, SharedBytes, Value};

/// The number in a field, whole.
pub fn u64_at(values: &[Value], i: usize) -> u64
    ensures { result ≡ u64_at values.now i }
{
    match values.get(i) {
        Some(Value::Number(n)) => *n,
        _ => 0,
    }
}

/// The number in a field, as 32 bits.
pub fn u32_at(values: &[Value], i: usize) -> u32
    ensures { result ≡ u32_at values.now i }
{
    (u64_at(values, i) % (1 << 32)) as u32
}

/// The number in a field, as 16 bits.
pub fn u16_at(values: &[Value], i: usize) -> u16
    ensures { result ≡ u16_at values.now i }
{
    (u64_at(values, i) % (1 << 16)) as u16
}

fn name_at(values: &[Value], i: usize) -> Option<&DeviceName>
    ensures { option_copied result ≡ name_at values.now i }
{
    match values.get(i) {
        Some(Value::Name(name)) => Some(name),
        _ => None,
    }
}

/// The name in a declaration.
pub fn declared_name(word: DeclarationWord, values: &[Value]) -> Option<&DeviceName>
    ensures { option_copied result ≡ declared_name word values.now }
{
    match word {
        DeclarationWord::Flows => name_at(values, 0),
        _ => None,
    }
}

/// The name in a command.
pub fn commanded_name(word: CommandWord, values: &[Value]) -> Option<&DeviceName>
    ensures { option_copied result ≡ commanded_name word values.now }
{
    match word {
        CommandWord::SetIff => name_at(values, 1),
        CommandWord::Send => name_at(values, 0),
        _ => None,
    }
}

fn option_at(values: &[Value], i: usize) -> Option<u16>
    ensures { result ≡ option_at values.now i }
{
    match values.get(i) {
        Some(Value::Number(n)) => Some((*n % (1 << 16)) as u16),
        _ => None,
    }
}

fn flag_at(values: &[Value], i: usize) -> bool
    ensures { result ≡ flag_at values.now i }
{
    u64_at(values, i) == 1
}

/// The bytes in a field, which are shared and not copied.
pub fn bytes_at(alloc: Global, values: &[Value], i: usize) -> Result<SharedBytes, AllocError>
    ensures { IfOk result (λ b. b ≡ bytes_at values.now i) }
{
    match values.get(i) {
        Some(Value::Bytes(bytes)) => bytes.share(),
        _ => SharedBytes::new(alloc, Vec::new(alloc)),
    }
}

fn header_of(bytes: &[u8]) -> Option<Hdr>
    ensures { result ≡ header_in (Some (value.Bytes bytes.now)) }
{
    match <[u8; 10]>::try_from(bytes) {
        Ok(bytes) => Some(Hdr { bytes }),
        Err(_) => None,
    }
}

fn header_at(values: &[Value], i: usize) -> Option<Hdr>
    ensures { result ≡ header_at values.now i }
{
    match values.get(i) {
        Some(Value::Bytes(bytes)) => header_of(bytes.as_slice()),
        _ => None,
    }
}

fn length_in(value: &Value) -> u32
    ensures { result ≡ length_in value.now }
{
    match value {
        Value::Number(n) => (*n % (1 << 32)) as u32,
        _ => 0,
    }
}

fn lengths_in(alloc: Global, values: &[Value]) -> Result<Items<u32>, AllocError>
    ensures { IfOk result (λ lens. lens ≡ map length_in values.now) }
{
    Ok(Items::from_vec(values.iter().map(length_in).collect(alloc)?))
}

fn lengths_after(alloc: Global, values: &[Value]) -> Result<Items<u32>, AllocError>
    ensures { IfOk result (λ lens. lens ≡ lengths_from 2 values.now) }
{
    match values {
        [_, _, lens @ ..] => lengths_in(alloc, lens),
        _ => Ok(Items::new(alloc)),
    }
}

/// `file F CAP FIRST`.
#[tactic(auto, unfolding(crate::specs::Commands::declaration_of))]
pub fn file(values: &[Value]) -> Declaration
    ensures { result ≡ declaration_of 0 declaration.File values.now }
{
    Declaration::File {
        file: u16_at(values, 0),
        capacity: u16_at(values, 1),
        first: u64_at(values, 2),
    }
}

/// `region G ADDR LEN`.
#[tactic(auto, unfolding(crate::specs::Commands::declaration_of))]
pub fn region(values: &[Value]) -> Declaration
    ensures { result ≡ declaration_of 0 declaration.Region values.now }
{
    Declaration::Region {
        guest: u16_at(values, 0),
        addr: u64_at(values, 1),
        len: u64_at(values, 2),
    }
}

/// `vhost V G`.
#[tactic(auto, unfolding(crate::specs::Commands::declaration_of))]
pub fn vhost(values: &[Value]) -> Declaration
    ensures { result ≡ declaration_of 0 declaration.Vhost values.now }
{
    Declaration::Vhost {
        vhost: u16_at(values, 0),
        guest: u16_at(values, 1),
    }
}

/// `prog P HEX`, or the first fault of its bytes.
#[tactic(auto, unfolding(crate::specs::Commands::declaration_of))]
pub fn program(alloc: Global, values: &[Value]) -> Result<Declaration, OrMemory<CodeFault>>
    ensures accepted { IfOk result (λ d. d ≡ declaration_of 0 declaration.Prog values.now) }
    ensures sound { OnOk result (first_fault (bytes_at values.now 1) ≡ None) }
    ensures refused { IfErr result (IfFault (λ fault. first_fault (bytes_at values.now 1) ≡ Some fault)) }
{
    first_fault_laws();
    let bytes = bytes_at(alloc, values, 1)?;
    let code = accept(alloc, bytes.as_slice())?;
    Ok(Declaration::Prog {
        program: u16_at(values, 0),
        code,
    })
}

/// `flows NAME LIMIT AGE`, with the number of the name.
#[tactic(auto, unfolding(crate::specs::Commands::declaration_of))]
pub fn flows(name: u16, values: &[Value]) -> Declaration
    ensures { result ≡ declaration_of name declaration.Flows values.now }
{
    Declaration::Flows {
        name,
        limit: u32_at(values, 1),
        age: u64_at(values, 2),
    }
}

/// The command that a word and its values are, with the number of the name in it.
#[tactic(auto, unfolding(crate::specs::Commands::command_of))]
pub fn command_of(
    alloc: Global,
    name: u16,
    word: CommandWord,
    values: &[Value],
) -> Result<Command, AllocError>
    ensures { IfOk result (λ c. c ≡ command_of name word values.now) }
{
    Ok(match word {
        CommandWord::SetIff => Command::SetIff {
            file: u16_at(values, 0),
            name,
            flags: u16_at(values, 2),
        },
        CommandWord::SetQueue => Command::SetQueue {
            file: u16_at(values, 0),
            flags: u16_at(values, 1),
        },
        CommandWord::Close => Command::Close {
            file: u16_at(values, 0),
        },
        CommandWord::Persist => Command::Persist {
            file: u16_at(values, 0),
            on: flag_at(values, 1),
        },
        CommandWord::HdrSize => Command::HdrSize {
            file: u16_at(values, 0),
            size: u32_at(values, 1),
        },
        CommandWord::Steer => Command::Steer {
            file: u16_at(values, 0),
            program: option_at(values, 1),
        },
        CommandWord::Filter => Command::Filter {
            file: u16_at(values, 0),
            program: option_at(values, 1),
        },
        CommandWord::Tick => Command::Tick {
            now: u64_at(values, 0),
        },
        CommandWord::Resize => Command::Resize {
            file: u16_at(values, 0),
            capacity: u16_at(values, 1),
        },
        CommandWord::Send => Command::Send {
            name,
            hdr: header_at(values, 1),
            bytes: bytes_at(alloc, values, 2)?,
        },
        CommandWord::Read => Command::Read {
            file: u16_at(values, 0),
            room: u32_at(values, 1),
        },
        CommandWord::Write => Command::Write {
            file: u16_at(values, 0),
            bytes: bytes_at(alloc, values, 1)?,
        },
        CommandWord::Features => Command::Features {
            vhost: u16_at(values, 0),
            bits: u64_at(values, 1),
        },
        CommandWord::VNum => Command::VNum {
            vhost: u16_at(values, 0),
            ring: u16_at(values, 1),
            num: u64_at(values, 2),
        },
        CommandWord::VBase => Command::VBase {
            vhost: u16_at(values, 0),
            ring: u16_at(values, 1),
            base: u64_at(values, 2),
        },
        CommandWord::VAddr => Command::VAddr {
            vhost: u16_at(values, 0),
            ring: u16_at(values, 1),
            desc: u64_at(values, 2),
            avail: u64_at(values, 3),
            used: u64_at(values, 4),
        },
        CommandWord::GetBase => Command::GetBase {
            vhost: u16_at(values, 0),
            ring: u16_at(values, 1),
        },
        CommandWord::Backend => Command::Backend {
            vhost: u16_at(values, 0),
            ring: u16_at(values, 1),
            file: option_at(values, 2),
        },
        CommandWord::RxTurn => Command::RxTurn {
            vhost: u16_at(values, 0),
        },
        CommandWord::TxTurn => Command::TxTurn {
            vhost: u16_at(values, 0),
        },
        CommandWord::Poke => Command::Poke {
            guest: u16_at(values, 0),
            addr: u64_at(values, 1),
            bytes: bytes_at(alloc, values, 2)?,
        },
        CommandWord::Peek => Command::Peek {
            guest: u16_at(values, 0),
            addr: u64_at(values, 1),
            len: u32_at(values, 2),
        },
        CommandWord::Drive => Command::DriveAt {
            vhost: u16_at(values, 0),
            ring: u16_at(values, 1),
            addr: u64_at(values, 2),
        },
        CommandWord::PostIn => Command::PostIn {
            vhost: u16_at(values, 0),
            ring: u16_at(values, 1),
            lens: lengths_after(alloc, values)?,
        },
        CommandWord::PostOut => Command::PostOut {
            vhost: u16_at(values, 0),
            ring: u16_at(values, 1),
            bytes: bytes_at(alloc, values, 2)?,
        },
        CommandWord::Harvest => Command::Harvest {
            vhost: u16_at(values, 0),
            ring: u16_at(values, 1),
        },
    })
}

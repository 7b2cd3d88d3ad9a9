//! The operation of a command.

ghost use Rattle.std.specs.Prelude.{◌≡◌, ◌≤◌, fold, length};
ghost use Rattle.core_shared.specs.Asking.{setup};
ghost use Rattle.tap_world.specs.Setup as word;
ghost use Rattle.tap_world.specs.Setup.{setup_of};
ghost use Rattle.core_table.specs.Programs.{programs_in};

use core_shared::Asked;
use scen_words::{Command, Declaration};
use tap_steer::Op;

/// The operation of a command on the table of queues, if it has one.
pub fn op_of(asked: &Asked<'_>) -> Option<Op>
    requires { length (setup asked.now).programs ≤ 65535 }
    ensures { result ≡ word.op_of (setup asked.now) asked.now.command }
{
    match asked.command() {
        Command::SetIff { file, name, flags } => Some(Op::SetIff {
            file: *file,
            device: *name,
            flags: *flags,
        }),
        Command::SetQueue { file, flags } => Some(Op::SetQueue {
            file: *file,
            flags: *flags,
        }),
        Command::Close { file } => Some(Op::Shut { file: *file }),
        Command::Persist { file, on } => Some(Op::Persist {
            file: *file,
            on: *on,
        }),
        Command::HdrSize { file, size } => Some(Op::HdrSize {
            file: *file,
            size: *size,
        }),
        Command::Steer { file, program } => Some(Op::Steering {
            file: *file,
            program: place_of(asked, *program),
        }),
        Command::Filter { file, program } => Some(Op::Filter {
            file: *file,
            program: place_of(asked, *program),
        }),
        Command::Tick { now } => Some(Op::Tick { now: *now }),
        Command::Resize { file, capacity } => Some(Op::Resize {
            file: *file,
            capacity: *capacity,
        }),
        Command::Send { .. }
        | Command::Read { .. }
        | Command::Write { .. }
        | Command::Features { .. }
        | Command::VNum { .. }
        | Command::VBase { .. }
        | Command::VAddr { .. }
        | Command::GetBase { .. }
        | Command::Backend { .. }
        | Command::RxTurn { .. }
        | Command::TxTurn { .. }
        | Command::Poke { .. }
        | Command::Peek { .. }
        | Command::DriveAt { .. }
        | Command::PostIn { .. }
        | Command::PostOut { .. }
        | Command::Harvest { .. } => None,
    }
}

// The place of a program among the declared ones, where one is named.
fn place_of(asked: &Asked<'_>, program: Option<u16>) -> Option<u16>
    requires { length (setup asked.now).programs ≤ 65535 }
    ensures { result ≡ word.place_of (setup asked.now) program }
{
    match program {
        Some(number) => Some(place_among(number, asked.scenario().declarations.as_slice())),
        None => None,
    }
}

// How many programs are declared before the first of this number.
fn place_among(number: u16, declarations: &[Declaration]) -> u16
    requires { length (programs_in declarations.now) ≤ 65535 }
    ensures { result ≡ word.place_among number (programs_in declarations.now) }
{
    let mut place = 0;
    for declaration in declarations {
        if let Declaration::Prog { program, code: _ } = declaration {
            if *program == number {
                return place;
            }
            place += 1;
        }
    }
    place
}

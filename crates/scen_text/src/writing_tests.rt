//! A scenario that is printed.

use crate::{Command, Declaration, Line, Phase, Scenario, Script, print_scenario};
use sqlite_items::Items;
use std::alloc::{AllocError, Global};
use std::test::Fail;
use text_fields::{DeviceName, SharedBytes};

// A line of an actor with this command.
fn line(actor: u16, number: u32, command: Command) -> Line {
    Line {
        actor,
        number,
        command,
    }
}

// A phase of so many actors with these two lines; nothing that is printed stands in its scripts.
fn phase(alloc: Global, actors: u16, first: Line, second: Line) -> Result<Phase, AllocError> {
    let mut lines = Items::new(alloc);
    lines.push(first)?;
    lines.push(second)?;
    let scripts: Items<Script> = Items::new(alloc);
    Ok(Phase {
        actors,
        scripts,
        lines,
    })
}

#[test]
fn phases_are_printed(rt: HostRuntime) -> Result<(), Fail> {
    let alloc = rt.alloc();
    let mut declarations = Items::new(alloc);
    declarations.push(Declaration::File {
        file: 0,
        capacity: 8,
        first: 0,
    })?;
    let mut names = Items::new(alloc);
    names.push(DeviceName::of(b"tap0").ok_or("a name")?)?;
    let bytes = SharedBytes::new(alloc, [0, 255].to_vec(alloc)?)?;
    let send = Command::Send {
        name: 0,
        hdr: None,
        bytes: bytes.share()?,
    };
    let attach = Command::SetIff {
        file: 0,
        name: 0,
        flags: 0x1102,
    };
    let read = Command::Read { file: 0, room: 64 };
    let mut phases = Items::new(alloc);
    phases.push(phase(alloc, 1, line(0, 0, attach), line(0, 1, send))?)?;
    phases.push(phase(
        alloc,
        2,
        line(0, 2, read),
        line(1, 3, Command::Tick { now: 5 }),
    )?)?;
    let scenario = Scenario {
        version: 1,
        declarations,
        names,
        phases,
    };
    assert_eq!(rt;
        print_scenario(alloc, &scenario)?.as_str(),
        "tapscen 1\nfile 0 8\nsetiff 0 tap0 1102\n\
        send tap0 - 00ff\nphase 2\n@0 read 0 64\n@1 tick 5\nend\n"
    );
    Ok(())
}

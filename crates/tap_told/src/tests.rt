//! A small world is told.
ghost use Rattle.std.specs.Prelude.{◌≤◌, ◌<◌, IfOk, length};

use crate::project;
use scen_text::{Command, Line, Phase, Scenario};
use sqlite_items::Items;
use std::alloc::{AllocError, Global};
use std::process::Abort;
use std::test::Fail;
use tap_frame::Name;
use tap_lines::{FileSide, Files};
use tap_steer::Op;
use tap_trace::{Answer, AnswerLine};
use tap_world::{Published, Said};
use text_fields::DeviceName;

const NAME: Name = Name {
    actor: 0,
    turn: 1,
    part: 0,
};

const OPS: [Published; 1] = [Published {
    phase: 0,
    actor: 0,
    command: 0,
    op: Op::SetIff {
        file: 0,
        device: 0,
        flags: 0x1102,
    },
}];

// A phase of one actor, with `setiff 0 tap0 1102`.
fn one_phase(rt: &impl Abort, alloc: Global) -> Result<Scenario, AllocError>
    ensures { IfOk result (λ s. 0 < length s.names) }
{
    let name = DeviceName::of(b"tap0").expect(rt, "a name");
    let line = Line {
        actor: 0,
        number: 0,
        command: Command::SetIff {
            file: 0,
            name: 0,
            flags: 0x1102,
        },
    };
    let phase = Phase {
        actors: 1,
        scripts: Items::new(alloc),
        lines: Items::from_vec(vec![in alloc; line]?),
    };
    Ok(Scenario {
        version: 1,
        declarations: Items::new(alloc),
        names: Items::from_vec(vec![in alloc; name]?),
        phases: Items::from_vec(vec![in alloc; phase]?),
    })
}

// A file from place 7 on, with one entry.
fn one_file(alloc: Global) -> Result<Files, AllocError>
    ensures { IfOk result (λ files. length files ≤ 1) }
{
    let mut side = FileSide::new(alloc, 7, 2);
    side.reopen();
    if let Err(error) = side.claim(0, NAME, 1, 60) {
        side.abandon();
        return Err(error);
    }
    let mut files = Files::new(alloc);
    if let Err(error) = files.push(Some(side)) {
        files.abandon();
        return Err(error);
    }
    Ok(files)
}

#[test]
fn a_world_is_told(rt: HostRuntime) -> Result<(), Fail> {
    let alloc = rt.alloc();
    let scenario = one_phase(&rt, alloc)?;
    let answer = AnswerLine {
        actor: 0,
        command: 0,
        seen: 1,
        answer: Answer::Version(1),
    };
    let said = vec![in alloc;
        Said {
            phase: 0,
            line: answer
        },
    ]?;
    let files = one_file(alloc)?;
    let trace = project(alloc, &scenario, &OPS, said, files, Vec::new(alloc), &[])?;
    assert!(rt;
        matches!(trace.phases.as_slice(), [part] if part.ops.len() == 1 && part.answers.len() == 1)
    );
    assert!(rt; matches!(trace.files.as_slice(), [part] if part.claimed == 8));
    Ok(())
}

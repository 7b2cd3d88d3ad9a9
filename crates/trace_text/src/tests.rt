//! A small trace and its text.

use crate::print_trace;
use sqlite_items::Items;
use std::alloc::Global;
use std::test::Fail;
use tap_trace::{
    Answer, AnswerLine, ChainText, GuestPart, Kind, Name, PhasePart, PositionList, RingPart,
    StepLine, Trace, TurnText,
};

const NAME: Name = Name {
    actor: 1,
    turn: 7,
    part: 0,
};

const TEXT: &str = "taptrace 1\nphase 0 2\nans 1 7 3 turn 1 26 idle\ngot 1.7.0 14 0000beef\n\
guest 2\nstep 1 7 copy 4 1 0 1.7.0\nring 4 1\nbase 0\nused 0 5 0\nend\n";

fn phase(alloc: Global) -> Result<PhasePart, Fail> {
    let mut chains = Items::new(alloc);
    chains.push(ChainText::Got {
        name: NAME,
        len: 14,
        fnv: 0xbeef,
    })?;
    let mut answers = Items::new(alloc);
    answers.push(AnswerLine {
        actor: 1,
        command: 7,
        seen: 3,
        answer: Answer::Turn {
            packets: 1,
            bytes: 26,
            end: TurnText::Idle,
            chains,
        },
    })?;
    Ok(PhasePart {
        actors: 2,
        ops: Items::new(alloc),
        answers,
    })
}

fn guest(alloc: Global) -> Result<GuestPart, Fail> {
    let mut steps = Items::new(alloc);
    steps.push(StepLine {
        actor: 1,
        command: 7,
        kind: Kind::Copy {
            vhost: 4,
            ring: 1,
            position: 0,
            name: Some(NAME),
        },
    })?;
    Ok(GuestPart { guest: 2, steps })
}

fn ring(alloc: Global) -> Result<RingPart, Fail> {
    let mut used = Items::new(alloc);
    used.push((0, 5, 0))?;
    let mut lists = Items::new(alloc);
    lists.push(PositionList { base: 0, used })?;
    Ok(RingPart {
        vhost: 4,
        ring: 1,
        lists,
    })
}

#[test]
fn a_trace_is_printed(rt: HostRuntime) -> Result<(), Fail> {
    let mut trace = Trace {
        phases: Items::new(rt.alloc()),
        files: Items::new(rt.alloc()),
        guests: Items::new(rt.alloc()),
        rings: Items::new(rt.alloc()),
    };
    trace.phases.push(phase(rt.alloc())?)?;
    trace.guests.push(guest(rt.alloc())?)?;
    trace.rings.push(ring(rt.alloc())?)?;
    let text = print_trace(rt.alloc(), &trace)?;
    assert_eq!(rt; text.as_str(), TEXT);
    Ok(())
}

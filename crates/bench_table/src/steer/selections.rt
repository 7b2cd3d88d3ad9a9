//! Times selections: by flows, by shares of hashes, and by a program.

use crate::nanoseconds;
use crate::steer::tables::{act, attach_all, table_of};
use anyhow::Result;
use ebpf_code::accept;
use std::rt::Clock;
use std::time::Instant;
use tap_flow_key::flow_hash;
use tap_steer::{Op, Select, Steer};

/// How many selections are timed.
const CALLS: u32 = 200_000;

/// How many flows are learnt.
const FLOWS: u32 = 4096;

/// The bytes of an IPv4 frame with ports.
const FRAME: [u8; 60] = [
    2, 0, 0, 0, 0, 1, 2, 0, 0, 0, 0, 2, 8, 0, 69, 0, 0, 46, 0, 0, 0, 0, 64, 17, 0, 0, 10, 0, 0, 1,
    10, 0, 0, 2, 15, 160, 0, 80, 0, 0, 0, 0, 0, 0, 0, 0, 0, 0, 0, 0, 0, 0, 0, 0, 0, 0, 0, 0, 0, 0,
];

/// Twenty slots: eighteen that count, a load of the frame's length into R0, and the end.
const STEPS: u8 = 18;

/// The frame of a number.
fn frame_of(number: u32) -> [u8; 60] {
    let mut frame = FRAME;
    let bytes = (number % FLOWS).to_be_bytes();
    frame[32] = bytes[2];
    frame[33] = bytes[3];
    frame
}

/// How many of the frames get a queue.
fn select_all(steer: &Steer) -> u32 {
    let mut selected: u32 = 0;
    for call in 0..CALLS {
        if let Select::Row { .. } = steer.select(0, &frame_of(call)) {
            selected = selected.wrapping_add(1);
        }
    }
    selected
}

fn timed_selections<R: Print + Clock>(
    rt: &R,
    steer: &Steer,
    label: &str,
    timed: bool,
) -> Result<()> {
    let start = Instant::now(rt)?;
    let selected = select_all(steer);
    let time = start.elapsed(rt)?;
    println!(rt; "{label}: {selected} selected")?;
    if timed {
        let one = nanoseconds(time, CALLS);
        println!(rt; "{label}: {one:.1} ns")?;
    }
    Ok(())
}

/// Selects among four queues in three ways.
pub fn measure<R: Print + Clock + AllocGlobal>(rt: &R, timed: bool) -> Result<()> {
    let mut bytes = Vec::new(rt.alloc());
    bytes.extend_from_slice(&[0xb7, 0, 0, 0, 0, 0, 0, 0])?;
    for _ in 0..STEPS {
        bytes.extend_from_slice(&[0x07, 0, 0, 0, 3, 0, 0, 0])?;
    }
    bytes.extend_from_slice(&[0x95, 0, 0, 0, 0, 0, 0, 0])?;
    let mut programs = Vec::new(rt.alloc());
    if let Ok(program) = accept(rt.alloc(), &bytes) {
        programs.push(program)?;
    }
    let mut steer = table_of(rt.alloc(), programs, 8)?;
    let attached = attach_all(&mut steer, 0, 4, 0);
    println!(rt; "{attached} attached")?;
    timed_selections(rt, &steer, "by share", timed)?;
    for number in 0..FLOWS {
        let hash = flow_hash(&frame_of(number));
        let _ = act(&mut steer, &Op::Learn { file: 1, hash });
    }
    timed_selections(rt, &steer, "by flow", timed)?;
    let steering = Op::Steering {
        file: 0,
        program: Some(0),
    };
    let steered = act(&mut steer, &steering);
    println!(rt; "steered: {steered}")?;
    timed_selections(rt, &steer, "by program", timed)?;
    Ok(())
}

//! Transmit turns over a queue and a memory, by a caller that knows nothing between two steps but what it tests.
use super::*;
use guest_mem::{Memory, Region};
use std::alloc::{AllocError, Global};
use std::test::Fail;
use tap_frame::{BadFrame, Name};
use tap_ledger::{Act, HostIn, MemHost};
use vhost_queue::Vq;
use vring_split::{Desc, Layout, RingFault, le16_bytes_of};
use vring_turns::{End, TurnEnd};
use vring_walk::is_good;

const NAME: Name = Name {
    actor: 0,
    turn: 9,
    part: 0,
};

// 12 zero bytes, and a frame of 14.
const CHAIN: [u8; 26] = [
    0, 0, 0, 0, 0, 0, 0, 0, 0, 0, 0, 0, 2, 0, 0, 0, 0, 1, 2, 0, 0, 0, 0, 2, 8, 0,
];

// What is known of these is gone after it.
fn forget(_worker: &mut TxWorker, _vq: &mut Vq, _mem: &mut Memory, _host: &mut MemHost) {}

// One step, where the tests allow it.
fn tested_step(
    worker: &mut TxWorker,
    vq: &mut Vq,
    mem: &mut Memory,
    host: &mut MemHost,
) -> Option<TxStep> {
    if is_good(mem, &vq.layout()) && worker.fits(vq) && worker.lies_in(mem) && host.room() > 0 {
        Some(worker.step(vq, mem, host))
    } else {
        None
    }
}

// A whole turn: its events, and what it reports.
fn turn(
    worker: &mut TxWorker,
    vq: &mut Vq,
    mem: &mut Memory,
    host: &mut MemHost,
    acts: &mut Vec<Act>,
) -> Result<Option<TurnEnd>, AllocError> {
    for _ in 0..2000 {
        forget(worker, vq, mem, host);
        match tested_step(worker, vq, mem, host) {
            Some(TxStep::More(act)) => acts.push(act)?,
            Some(TxStep::Ended { act, turn }) => {
                if let Some(act) = act {
                    acts.push(act)?;
                }
                return Ok(Some(turn));
            }
            None => return Ok(None),
        }
    }
    Ok(None)
}

// A turn from its beginning, where one may begin: what it reports, and how many frames were given.
fn run(
    alloc: Global,
    vq: &mut Vq,
    mem: &mut Memory,
    acts: &mut Vec<Act>,
) -> Result<(Option<TurnEnd>, usize), AllocError> {
    if !vq.is_idle() || vq.stopped().is_some() {
        return Ok((None, 0));
    }
    let mut worker = TxWorker::begin(alloc, vq, 12, NAME)?;
    match MemHost::new(alloc, 1000) {
        Ok(mut host) => {
            let ended = turn(&mut worker, vq, mem, &mut host, acts);
            let given = host.given().len();
            worker.abandon();
            host.abandon();
            Ok((ended?, given))
        }
        Err(error) => {
            worker.abandon();
            Err(error)
        }
    }
}

fn put(mem: &mut Memory, at: u64, bytes: &[u8]) {
    let _ = mem.write(at, bytes);
}

fn put_desc(mem: &mut Memory, index: u64, len: u32, flags: u16) {
    let desc = Desc {
        addr: 32_768,
        len,
        flags,
        next: 0,
    };
    put(mem, index.saturating_mul(16), &desc.bytes());
}

fn put_entry(mem: &mut Memory, avail: u64, place: u16, head: u16) {
    let at = avail.saturating_add(4 + 2 * u64::from(place));
    put(mem, at, &le16_bytes_of(head));
}

// A ring with its table at 0, in a memory where each descriptor has 26 good bytes, and its first entries.
fn ring(alloc: Global, layout: Layout, index: u16) -> Result<(Vq, Memory), Fail> {
    let regions = [Region {
        addr: 0,
        len: 65_536,
    }];
    let mut mem = Memory::new(alloc, &regions)?;
    put(&mut mem, 32_768, &CHAIN);
    put(
        &mut mem,
        layout.avail.saturating_add(2),
        &le16_bytes_of(index),
    );
    for i in 0..index {
        put_desc(&mut mem, u64::from(i), 26, 0);
        put_entry(&mut mem, layout.avail, i, i);
    }
    let mut vq = Vq::new(alloc, false)?;
    if is_good(&mem, &layout) && vq.is_idle() {
        vq.set_layout(layout);
    }
    Ok((vq, mem))
}

fn layout_of(num: u16, avail: u64, used: u64) -> Layout {
    Layout {
        num,
        desc: 0,
        avail,
        used,
        indirect: true,
        event: true,
        rx: false,
    }
}

fn field(mem: &Memory, at: u64) -> u16 {
    let mut bytes = [0u8; 2];
    let _ = mem.read(at, &mut bytes);
    u16::from_le_bytes(bytes)
}

fn report(packets: u32, bytes: u64, end: End) -> Option<TurnEnd> {
    Some(TurnEnd {
        packets,
        bytes,
        end,
    })
}

// One chain is sent and published with length 0; then there is none.
#[test]
fn one_chain_is_sent(rt: HostRuntime) -> Result<(), Fail> {
    let (mut vq, mut mem) = ring(rt.alloc(), layout_of(4, 64, 80), 1)?;
    let mut acts = Vec::new(rt.alloc());
    let first = run(rt.alloc(), &mut vq, &mut mem, &mut acts)?;
    let second = run(rt.alloc(), &mut vq, &mut mem, &mut acts)?;
    assert_eq!(rt; first, (report(1, 26, End::Idle), 1));
    assert_eq!(rt; second, (report(0, 0, End::Idle), 0));
    assert_eq!(rt;
        (
            field(&mem, 82),
            field(&mem, 84),
            field(&mem, 88),
            field(&mem, 116)
        ),
        (1, 0, 0, 1)
    );
    assert_eq!(rt;
        acts.as_slice(),
        [
            Act::Notices {
                on: false,
                wrote: false
            },
            Act::Fetch {
                position: 0,
                head: 0
            },
            Act::Copy {
                position: 0,
                name: NAME
            },
            Act::Given { name: NAME },
            Act::Nothing,
            Act::Notices {
                on: true,
                wrote: true
            },
            Act::Nothing,
            Act::Publish {
                count: 1,
                call: true
            },
            Act::Notices {
                on: false,
                wrote: false
            },
            Act::Nothing,
            Act::Notices {
                on: true,
                wrote: true
            },
            Act::Nothing,
        ]
        .as_slice()
    );
    Ok(())
}

// Three good chains, one of them too short for a frame, and one that the device would write.
#[test]
fn a_fault_publishes_what_is_done(rt: HostRuntime) -> Result<(), Fail> {
    let (mut vq, mut mem) = ring(rt.alloc(), layout_of(4, 64, 80), 4)?;
    put_desc(&mut mem, 1, 25, 0);
    put_desc(&mut mem, 3, 26, 2);
    let mut acts = Vec::new(rt.alloc());
    let ended = run(rt.alloc(), &mut vq, &mut mem, &mut acts)?;
    assert_eq!(rt;
        ended,
        (report(3, 77, End::Stopped(RingFault::Direction)), 2)
    );
    assert_eq!(rt; (field(&mem, 82), field(&mem, 116)), (3, 0));
    assert_eq!(rt; vq.stopped(), Some(RingFault::Direction));
    assert!(rt;
        acts.contains(&Act::Refused {
            position: 1,
            bad: BadFrame::ShortEther
        })
    );
    assert!(rt; acts.contains(&Act::Halt { fault: 10 }));
    Ok(())
}

// 300 chains take two turns.
#[test]
fn many_chains_take_two_turns(rt: HostRuntime) -> Result<(), Fail> {
    let (mut vq, mut mem) = ring(rt.alloc(), layout_of(512, 8192, 9222), 300)?;
    let mut acts = Vec::new(rt.alloc());
    let first = run(rt.alloc(), &mut vq, &mut mem, &mut acts)?;
    let second = run(rt.alloc(), &mut vq, &mut mem, &mut acts)?;
    assert_eq!(rt; first, (report(256, 6656, End::Again), 256));
    assert_eq!(rt; second, (report(44, 1144, End::Idle), 44));
    assert_eq!(rt; field(&mem, 9224), 300);
    Ok(())
}

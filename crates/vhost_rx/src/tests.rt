//! Receive turns over a queue and a memory, by a caller that knows nothing between two steps but what it tests.
use super::*;
use guest_mem::{Memory, Region};
use std::alloc::{AllocError, Global};
use std::test::Fail;
use tap_frame::{Name, Shape, read_frame};
use tap_ledger::{Cause, Fate, FrameQueue, MemQueue};
use vhost_queue::Vq;
use vring_split::{Desc, Layout, RingFault, le16_bytes_of};
use vring_turns::{End, TurnEnd};
use vring_walk::is_good;

const NAME: Name = Name {
    actor: 0,
    turn: 3,
    part: 0,
};

const RING: Layout = Layout {
    num: 4,
    desc: 0,
    avail: 64,
    used: 80,
    indirect: true,
    event: true,
    rx: true,
};

// A frame of 60 bytes.
const FRAME: [u8; 60] = [
    2, 0, 0, 0, 0, 1, 2, 0, 0, 0, 0, 2, 8, 0, 1, 2, 3, 4, 5, 6, 7, 8, 9, 10, 11, 12, 13, 14, 15,
    16, 17, 18, 19, 20, 21, 22, 23, 24, 25, 26, 27, 28, 29, 30, 31, 32, 33, 34, 35, 36, 37, 38, 39,
    40, 41, 42, 43, 44, 45, 46,
];

// What is known of these is gone after it.
fn forget(_worker: &mut RxWorker, _vq: &mut Vq, _q: &mut MemQueue, _mem: &mut Memory) {}

// One step, where the tests allow it.
fn tested_step(
    worker: &mut RxWorker,
    vq: &mut Vq,
    q: &mut MemQueue,
    mem: &mut Memory,
) -> Option<RxStep> {
    if is_good(mem, &vq.layout())
        && worker.fits(vq)
        && worker.lies_in(mem)
        && q.in_hand() == worker.in_hand()
    {
        Some(worker.step(vq, q, mem))
    } else {
        None
    }
}

// A whole turn: what it reports.
fn turn(worker: &mut RxWorker, vq: &mut Vq, q: &mut MemQueue, mem: &mut Memory) -> Option<TurnEnd> {
    for _ in 0..2000 {
        forget(worker, vq, q, mem);
        match tested_step(worker, vq, q, mem) {
            Some(RxStep::More(_)) => {}
            Some(RxStep::Ended { act: _, turn }) => return Some(turn),
            None => return None,
        }
    }
    None
}

// One frame comes.
fn push_frame(alloc: Global, q: &mut MemQueue) -> Result<(), AllocError> {
    let plain = Shape {
        pi: false,
        hdr: None,
    };
    match read_frame(alloc, plain, NAME, &FRAME) {
        Ok(frame) => q.push(frame),
        Err(_) => Ok(()),
    }
}

// A turn with one frame: what it reports, and the fate of the frame, if it is out.
fn run(
    alloc: Global,
    vq: &mut Vq,
    mem: &mut Memory,
    mergeable: bool,
) -> Result<(Option<TurnEnd>, Option<Fate>), AllocError> {
    if !vq.is_idle() || vq.stopped().is_some() {
        return Ok((None, None));
    }
    let mut worker = RxWorker::begin(alloc, vq, mergeable, 12)?;
    let mut q = MemQueue::new(alloc, 0, Vec::new(alloc), 1);
    let pushed = push_frame(alloc, &mut q);
    let ended = turn(&mut worker, vq, &mut q, mem);
    let fate = q.out().first().map(|out| out.fate);
    worker.abandon();
    q.abandon();
    pushed?;
    Ok((ended, fate))
}

fn put(mem: &mut Memory, at: u64, bytes: &[u8]) {
    let _ = mem.write(at, bytes);
}

fn field(mem: &Memory, at: u64) -> u16 {
    let mut bytes = [0u8; 2];
    let _ = mem.read(at, &mut bytes);
    u16::from_le_bytes(bytes)
}

// The ring of four entries in a memory, with as many chains as there are descriptors: each has an address, a
// length and flags.
fn ring(alloc: Global, descs: &[(u64, u32, u16)]) -> Result<(Vq, Memory), Fail> {
    let regions = [Region {
        addr: 0,
        len: 65_536,
    }];
    let mut mem = Memory::new(alloc, &regions)?;
    let mut index = 0u16;
    for &(addr, len, flags) in descs {
        let desc = Desc {
            addr,
            len,
            flags,
            next: 0,
        };
        put(&mut mem, 16 * u64::from(index), &desc.bytes());
        put(&mut mem, 68 + 2 * u64::from(index), &le16_bytes_of(index));
        index = index.wrapping_add(1);
    }
    put(&mut mem, 66, &le16_bytes_of(index));
    let mut vq = Vq::new(alloc, true)?;
    let layout = RING;
    if is_good(&mem, &layout) && vq.is_idle() {
        vq.set_layout(layout);
    }
    Ok((vq, mem))
}

fn report(packets: u32, bytes: u64, end: End) -> Option<TurnEnd> {
    Some(TurnEnd {
        packets,
        bytes,
        end,
    })
}

// A frame goes into two chains: num_buffers is 2, and they are done with 40 and 32 bytes.
#[test]
fn two_chains_take_a_frame(rt: HostRuntime) -> Result<(), Fail> {
    let (mut vq, mut mem) = ring(rt.alloc(), &[(4096, 40, 2), (8192, 40, 2)])?;
    let ended = run(rt.alloc(), &mut vq, &mut mem, true)?;
    assert_eq!(rt; ended, (report(1, 72, End::Idle), Some(Fate::Guest)));
    assert_eq!(rt; vq.journal(), [(0, 0, 40), (1, 1, 32)].as_slice());
    assert_eq!(rt;
        (
            field(&mem, 82),
            field(&mem, 88),
            field(&mem, 96),
            field(&mem, 4106)
        ),
        (2, 40, 32, 2)
    );
    let mut front = [0u8; 28];
    mem.read(4108, &mut front).map_err(|_| "inside")?;
    let mut rest = [0u8; 32];
    mem.read(8192, &mut rest).map_err(|_| "inside")?;
    assert_eq!(rt; front.as_slice(), &FRAME[..28]);
    assert_eq!(rt; rest.as_slice(), &FRAME[28..]);
    Ok(())
}

// Turns that hand nothing to the guest: with one chain that is too short, with none, without mergeable buffers,
// and with a table of 24 bytes.
#[test]
fn nothing_is_published(rt: HostRuntime) -> Result<(), Fail> {
    let overrun = Fate::Discarded(Cause::Overrun {
        need: 72,
        quota: 1,
        had: 40,
    });
    let rows: [(bool, &[(u64, u32, u16)], Option<TurnEnd>, Option<Fate>); 4] = [
        (
            true,
            &[(4096, 40, 2)],
            report(0, 0, End::Short { need: 72, had: 40 }),
            None,
        ),
        (
            true,
            &[],
            report(0, 0, End::Short { need: 72, had: 0 }),
            None,
        ),
        (
            false,
            &[(4096, 40, 2)],
            report(1, 0, End::Idle),
            Some(overrun),
        ),
        (
            true,
            &[(4096, 24, 4)],
            report(0, 0, End::Stopped(RingFault::IndirectLength)),
            None,
        ),
    ];
    for (mergeable, descs, ended, fate) in rows {
        let (mut vq, mut mem) = ring(rt.alloc(), descs)?;
        assert_eq!(rt;
            run(rt.alloc(), &mut vq, &mut mem, mergeable)?,
            (ended, fate)
        );
        assert_eq!(rt;
            (field(&mem, 82), vq.position(), vq.journal().len()),
            (0, 0, 0)
        );
    }
    Ok(())
}

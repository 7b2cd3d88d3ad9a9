//! A queue and a host in memory, through their traits, and the counters.

use crate::{Cause, Counters, Fate, FrameQueue, Hand, HostIn, MemHost, MemQueue, OutFrame};
use std::alloc::Global;
use std::test::Fail;
use tap_frame::{BadFrame, Frame, Name, Shape, read_frame};

// A frame of 14 bytes with this number.
fn frame_of(alloc: Global, turn: u32) -> Result<Frame, BadFrame> {
    let shape = Shape {
        pi: false,
        hdr: None,
    };
    let name = Name {
        actor: 1,
        turn,
        part: 0,
    };
    read_frame(alloc, shape, name, &[7; 14])
}

const TOO_LONG: Fate = Fate::Discarded(Cause::Overrun {
    need: 26,
    quota: 1,
    had: 12,
});

// What is done with a frame in hand.
#[derive(Clone, Copy)]
enum Deed {
    PutBack,
    Receive,
    Discard,
}

// What came of a turn.
#[derive(Clone, Copy, Debug, PartialEq, Eq)]
enum Seen {
    Frame(u32),
    NotReady(u64),
    Off,
    NoMemory,
    Busy,
}

// Takes a frame in hand from any queue, and does one thing with it.
fn turn<Q: FrameQueue>(queue: &mut Q, deed: Deed) -> Seen {
    if queue.in_hand().is_some() {
        return Seen::Busy;
    }
    match queue.hand() {
        Hand::Got(frame) => {
            let number = frame.name().turn;
            match deed {
                Deed::PutBack => queue.put_back(frame),
                Deed::Receive => queue.finish(frame, Fate::Guest),
                Deed::Discard => queue.finish(frame, TOO_LONG),
            }
            Seen::Frame(number)
        }
        Hand::NotReady { place } => Seen::NotReady(place),
        Hand::Off => Seen::Off,
        Hand::NoMemory => Seen::NoMemory,
    }
}

// Gives a frame to any host, or spends it where that has no room.
fn give<H: HostIn>(host: &mut H, frame: Frame) -> bool {
    if host.room() == 0 {
        let _ = frame.end();
        return false;
    }
    host.give(frame);
    true
}

#[test]
fn queue_hands_frames_out(rt: HostRuntime) -> Result<(), Fail> {
    let unready = Vec::from_slice(rt.alloc(), &[0, 3])?;
    let mut queue = MemQueue::new(rt.alloc(), 40, unready, 2);
    let mut pushed = true;
    for number in 1..5 {
        match frame_of(rt.alloc(), number) {
            Ok(frame) => pushed &= queue.push(frame).is_ok(),
            Err(_) => pushed = false,
        }
    }
    let first = [
        turn(&mut queue, Deed::Receive),
        turn(&mut queue, Deed::PutBack),
        turn(&mut queue, Deed::Receive),
        turn(&mut queue, Deed::Discard),
        turn(&mut queue, Deed::Receive),
    ];
    queue.set_off(true);
    let off = turn(&mut queue, Deed::Receive);
    queue.set_off(false);
    let last = [
        turn(&mut queue, Deed::Receive),
        turn(&mut queue, Deed::Receive),
    ];
    let out = Vec::from_slice(rt.alloc(), queue.out());
    queue.abandon();
    assert!(rt; pushed);
    assert_eq!(rt;
        first,
        [
            Seen::NotReady(40),
            Seen::Frame(1),
            Seen::Frame(1),
            Seen::Frame(2),
            Seen::Frame(3)
        ]
    );
    assert_eq!(rt; off, Seen::Off);
    assert_eq!(rt; last, [Seen::Frame(4), Seen::NotReady(44)]);
    let out = out?;
    for (k, want) in [Fate::Guest, TOO_LONG, Fate::Guest, Fate::Guest]
        .iter()
        .enumerate()
    {
        let got = out.get(k).copied().ok_or("a frame that is out")?;
        let name = Name {
            actor: 1,
            turn: k as u32 + 1,
            part: 0,
        };
        assert_eq!(rt;
            got,
            OutFrame {
                name,
                len: 14,
                fate: *want
            }
        );
    }
    Ok(())
}

#[test]
fn host_keeps_frames(rt: HostRuntime) -> Result<(), Fail> {
    let mut host = MemHost::new(rt.alloc(), 2)?;
    let mut given = [false; 3];
    for (k, was_given) in given.iter_mut().enumerate() {
        if let Ok(frame) = frame_of(rt.alloc(), k as u32) {
            *was_given = give(&mut host, frame);
        }
    }
    let count = host.given().len();
    let last = host.given().last().map(|frame| frame.name().turn);
    host.abandon();
    assert_eq!(rt; given, [true, true, false]);
    assert_eq!(rt; count, 2);
    assert_eq!(rt; last, Some(1));
    Ok(())
}

#[test]
fn counts_fates(rt: HostRuntime) -> Result<(), Fail> {
    let full = Cause::Full {
        claimed: 5,
        freed: 1,
    };
    let mut counters = Counters::new();
    counters.count(&Fate::Waiting, 60);
    counters.count(&Fate::Discarded(full), 14);
    counters.count(&Fate::Discarded(Cause::Spent { claimed: 9 }), 0);
    counters.count(&Fate::Discarded(full), 100);
    counters.count(&Fate::Host, 1);
    assert_eq!(rt;
        (
            counters.accepted,
            counters.waiting,
            counters.host,
            counters.bytes
        ),
        (5, 1, 1, 175)
    );
    assert_eq!(rt; counters.by_cause, [0, 0, 0, 0, 2, 0, 0, 0, 1]);
    assert_eq!(rt; (counters.read, counters.guest), (0, 0));
    Ok(())
}

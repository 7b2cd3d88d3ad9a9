//! A ring in one hand.

ghost use Rattle.std.specs.Prelude.{◌≡◌};

mod threads;

use crate::{Consumer, Ended, NotReady, Parts, Producer, PutBack, StaysShut, TapRing, Why};
use std::alloc::Global;
use std::test::Fail;
use tap_frame::{BadFrame, Frame, Name, Shape, read_frame};

// A frame of 14 bytes under this name.
fn frame_of(alloc: Global, actor: u16, turn: u32) -> Result<Frame, BadFrame> {
    let shape = Shape {
        pi: false,
        hdr: None,
    };
    let name = Name {
        actor,
        turn,
        part: 0,
    };
    read_frame(alloc, shape, name, &[7; 14])
}

// What came of a put.
#[derive(Clone, Copy, Debug, PartialEq, Eq)]
enum Outcome {
    At(u64),
    Back(Why),
    NoFrame,
}

// Puts a frame, or ends it where it comes back.
fn put(alloc: Global, ring: &TapRing, p: &mut Producer, epoch: u16, turn: u32) -> Outcome
    requires { p.old.ring ≡ ring.now.ring }
    ensures { p.new.ring ≡ p.old.ring }
{
    let Ok(frame) = frame_of(alloc, 0, turn) else {
        return Outcome::NoFrame;
    };
    match ring.try_put(p, epoch, frame) {
        Ok(place) => Outcome::At(place),
        Err(
            PutBack {
                frame,
                why,
                resizes: _,
            },
        ) => {
            let _ = frame.end();
            Outcome::Back(why)
        }
    }
}

// The number of the frame that is taken.
fn take(ring: &TapRing, c: &mut Consumer) -> Result<u32, NotReady>
    requires { c.old.ring ≡ ring.now.ring }
    ensures { c.new.ring ≡ c.old.ring }
{
    match ring.take(c) {
        Ok(frame) => Ok(frame.end().turn),
        Err(e) => Err(e),
    }
}

// The claimed, freed and lifted counts and the number of frames that are left.
fn end(ended: Ended) -> (u64, u64, u64, usize) {
    let counts = (ended.claimed, ended.freed, ended.lifted, ended.left.len());
    ended.abandon();
    counts
}

const FULL: Why = Why::Full {
    claimed: 2,
    freed: 0,
};

const SHUT: Why = Why::Gone {
    found: 1,
    shut: true,
};

const UNDRAINED: StaysShut = StaysShut::NotDrained {
    claimed: 3,
    freed: 1,
};

const REOPENED: Why = Why::Gone {
    found: 2,
    shut: false,
};

#[test]
fn a_ring_from_its_start_to_its_end(rt: HostRuntime) -> Result<(), Fail> {
    let Parts {
        ring,
        mut producers,
        consumer: mut c,
        keeper: mut k,
    } = TapRing::new(rt.alloc(), 2, 2, 0, 1)?;
    let Some(mut p) = producers.pop() else {
        panic!(rt; "no producer")
    };
    let a = rt.alloc();
    let Ok(1) = ring.reopen(&mut k, &c) else {
        panic!(rt; "not reopened")
    };
    assert_eq!(rt; put(a, &ring, &mut p, 1, 10), Outcome::At(0));
    assert_eq!(rt; put(a, &ring, &mut p, 1, 11), Outcome::At(1));
    assert_eq!(rt; put(a, &ring, &mut p, 1, 12), Outcome::Back(FULL));
    assert_eq!(rt; take(&ring, &mut c), Ok(10));
    assert_eq!(rt; put(a, &ring, &mut p, 1, 13), Outcome::At(2));
    assert_eq!(rt; ring.shut(&mut k), 3);
    assert_eq!(rt; put(a, &ring, &mut p, 1, 14), Outcome::Back(SHUT));
    assert_eq!(rt; ring.reopen(&mut k, &c), Err(UNDRAINED));
    assert_eq!(rt; take(&ring, &mut c), Ok(11));
    assert_eq!(rt; take(&ring, &mut c), Ok(13));
    assert_eq!(rt; take(&ring, &mut c), Err(NotReady { place: 3 }));
    assert_eq!(rt; ring.reopen(&mut k, &c), Ok(2));
    assert_eq!(rt; put(a, &ring, &mut p, 1, 15), Outcome::Back(REOPENED));
    assert_eq!(rt; put(a, &ring, &mut p, 2, 16), Outcome::At(3));
    producers.push_reserved(p);
    assert_eq!(rt; end(ring.finish(producers, c, k)), (4, 3, 3, 1));
    Ok(())
}

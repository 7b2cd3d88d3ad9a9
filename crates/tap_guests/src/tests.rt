//! Each call that takes memory, once.
ghost use Rattle.std.specs.Prelude.{◌≡◌};
ghost use Rattle.tap_guests.specs.Side.{new_side};
ghost use Rattle.tap_guests.specs.Within.{IsIn};

use super::*;
use guest_mem::{Memory, Region};
use scen_words::Command;
use std::alloc::{AllocError, Global};
use std::process::Abort;
use std::test::Fail;
use tap_trace::{Answer, Kind};

const REGIONS: [Region; 1] = [Region {
    addr: 0,
    len: 16384,
}];

// The ring that receives gets four descriptors and begins at position 5.
fn set_up(rt: &impl Abort, side: &mut VhostSide) -> Result<(), AllocError>
    requires { side.old ≡ new_side 1 }
{
    let num = side.set_num(2, 0, 4)?;
    assert!(rt; matches!(&num.answer, Answer::Done));
    assert_eq!(rt; num.step, Some(Kind::Num { vhost: 2, ring: 0 }));
    let base = side.set_base(2, 0, 5)?;
    assert!(rt; matches!(&base.answer, Answer::Done));
    let none = side.set_base(2, 2, 5)?;
    assert!(rt; matches!(&none.answer, Answer::Vhost(_)));
    assert_eq!(rt; none.step, None);
    Ok(())
}

// A driver that has one descriptor makes a chain of it available, and takes it back.
fn drive(
    rt: &impl Abort,
    alloc: Global,
    side: &mut VhostSide,
    mem: &mut Memory,
) -> Result<(), AllocError>
    requires { IsIn mem.old.regions side.old }
{
    assert!(rt; matches!(&side.post_out(2, 1, &[7], mem)?.answer, Answer::NoDriver));
    assert!(rt; matches!(&side.drive(alloc, 2, 1, 8, mem)?.answer, Answer::Drive(_)));
    assert!(rt; matches!(&side.drive(alloc, 2, 1, 0, mem)?.answer, Answer::Done));
    assert!(rt; matches!(&side.post_in(2, 1, &[1; 2], mem)?.answer, Answer::Drive(_)));
    let posted = side.post_out(2, 1, &[7], mem)?;
    assert!(rt; matches!(&posted.answer, Answer::Posted(0)));
    assert_eq!(rt; posted.step, Some(Kind::Post { vhost: 2, ring: 1 }));
    let found = side.harvest(2, 1, mem)?;
    assert!(rt; matches!(&found.answer, Answer::Harvested(chains) if chains.is_empty()));
    let harvest = Command::Harvest { vhost: 2, ring: 1 };
    assert!(rt; side.call(alloc, &harvest, mem)?.is_some());
    Ok(())
}

#[test]
fn calls_answer(rt: HostRuntime) -> Result<(), Fail> {
    let mut mem = Memory::new(rt.alloc(), &REGIONS)?;
    let mut side = VhostSide::new(rt.alloc(), 1)?;
    let made = set_up(&rt, &mut side);
    side.abandon();
    made?;
    let mut side = VhostSide::new(rt.alloc(), 1)?;
    let made = drive(&rt, rt.alloc(), &mut side, &mut mem);
    side.abandon();
    Ok(made?)
}

#[test]
fn bytes_are_poked_and_peeked(rt: HostRuntime) -> Result<(), Fail> {
    let mut guest = GuestMem::new(rt.alloc(), &REGIONS)?;
    assert!(rt; matches!(guest.poke(16_383, &[1, 2]), Answer::Fault { addr: 16_384 }));
    assert!(rt; matches!(guest.poke(16_382, &[1, 2]), Answer::Done));
    let peeked = guest.peek(rt.alloc(), 16_381, 3)?;
    assert!(rt;
        matches!(&peeked, Answer::Peeked(bytes) if bytes.as_slice() == [0, 1, 2].as_slice())
    );
    guest.tell(3, 9, Some(Kind::Poke))?;
    guest.tell(3, 9, None)?;
    assert_eq!(rt; guest.steps().len(), 1);
    Ok(())
}

//! The calls that take memory.

use crate::{FileSide, Files};
use std::test::Fail;
use tap_frame::Name;

/// The frame of the tests.
const NAME: Name = Name {
    actor: 1,
    turn: 2,
    part: 0,
};

#[test]
fn a_file_is_added(rt: HostRuntime) -> Result<(), Fail> {
    let mut files = Files::new(rt.alloc());
    let side = FileSide::new(rt.alloc(), 7, 2);
    let added = files.push(Some(side));
    let has = files.has(0);
    files.abandon();
    added?;
    assert!(rt; has);
    Ok(())
}

#[test]
fn a_place_is_claimed(rt: HostRuntime) -> Result<(), Fail> {
    let mut side = FileSide::new(rt.alloc(), 7, 2);
    side.reopen();
    let place = side.claim(1, NAME, 1, 60);
    side.abandon();
    assert!(rt; place? == 7);
    Ok(())
}

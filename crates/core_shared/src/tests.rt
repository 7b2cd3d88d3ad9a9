//! The calls that take memory.

use crate::{Guests, Vhosts};
use std::test::Fail;
use tap_guests::VhostSide;

#[test]
fn a_number_without_a_guest_is_added(rt: HostRuntime) -> Result<(), Fail> {
    let mut guests = Guests::new(rt.alloc());
    guests.push(None)?;
    assert!(rt; guests.items().len() == 1);
    Ok(())
}

#[test]
fn a_vhost_is_added(rt: HostRuntime) -> Result<(), Fail> {
    let side = VhostSide::new(rt.alloc(), 3)?;
    let mut vhosts = Vhosts::new(rt.alloc());
    let added = vhosts.push(Some(side));
    let found = vhosts.get(0).is_some();
    vhosts.abandon();
    added?;
    assert!(rt; found);
    Ok(())
}

use super::*;
use std::test::Fail;

const FIRST_TO_SECOND: [u8; 14] = [2, 0, 0, 0, 0, 2, 2, 0, 0, 0, 0, 1, 8, 0];

const SECOND_TO_FIRST: [u8; 14] = [2, 0, 0, 0, 0, 1, 2, 0, 0, 0, 0, 2, 8, 0];

// Two stations find each other, until the first is old.
#[test]
fn answers(rt: HostRuntime) -> Result<(), Fail> {
    let mut bridge = Bridge::new(rt.alloc());
    let first = bridge.frame(0, &FIRST_TO_SECOND, 0, &[0, 1, 2])?;
    let second = bridge.frame(1, &SECOND_TO_FIRST, 299_999, &[0, 1, 2])?;
    let third = bridge.frame(1, &SECOND_TO_FIRST, 300_000, &[1, 2])?;
    assert_eq!(rt; first.as_slice(), [1, 2].as_slice());
    assert_eq!(rt; second.as_slice(), [0].as_slice());
    assert_eq!(rt; third.as_slice(), [2].as_slice());
    assert_eq!(rt; bridge.len(), 1);
    Ok(())
}

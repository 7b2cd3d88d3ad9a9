use super::*;
use ebpf_code::Program;
use std::alloc::{AllocError, Global};
use std::test::Fail;

/// A tap with several queues and no packet information.
const FLAGS: u16 = 0x1102;

// A table of so many files of capacity 4, whose devices keep 16 flows for a second.
fn table_of(alloc: Global, programs: Vec<Program>, files: usize) -> Result<Steer, AllocError> {
    let flows = Vec::from_slice(alloc, &[(16, 1000); NAMES])?;
    Steer::new(alloc, programs, vec![in alloc; 4; files]?, flows)
}

// A file is attached to device 0.
fn joins(file: u16, flags: u16) -> Op {
    Op::SetIff {
        file,
        device: 0,
        flags,
    }
}

// Whether an operation is refused as told; it is done where it isn't refused.
fn is_as_told(steer: &mut Steer, op: &Op, refusal: Option<TapErr>) -> bool {
    if !steer.is_named(op) {
        return false;
    }
    let found = steer.refuse(op);
    if found.is_none() {
        steer.apply(op);
    }
    found == refusal
}

// 257 queues, 17 devices and 128 resizes are one too many.
#[test]
fn limits(rt: HostRuntime) -> Result<(), Fail> {
    let mut steer = table_of(rt.alloc(), Vec::new(rt.alloc()), 300)?;
    for file in 0..256 {
        assert!(rt; is_as_told(&mut steer, &joins(file, FLAGS), None));
    }
    let full = Some(TapErr::E2BIG(TooBig::Queues));
    assert!(rt; is_as_told(&mut steer, &joins(256, FLAGS), full));
    for device in 1..16 {
        assert!(rt;
            is_as_told(
                &mut steer,
                &Op::SetIff {
                    file: 256 + device,
                    device,
                    flags: FLAGS
                },
                None
            )
        );
    }
    let many = Some(TapErr::ENFILE);
    assert!(rt;
        is_as_told(
            &mut steer,
            &Op::SetIff {
                file: 256,
                device: 16,
                flags: FLAGS
            },
            many
        )
    );
    for _ in 0..127 {
        assert!(rt;
            is_as_told(
                &mut steer,
                &Op::Resize {
                    file: 0,
                    capacity: 9
                },
                None
            )
        );
    }
    let spent = Some(TapErr::E2BIG(TooBig::Resizes));
    assert!(rt;
        is_as_told(
            &mut steer,
            &Op::Resize {
                file: 0,
                capacity: 9
            },
            spent
        )
    );
    assert_eq!(rt; scaled(0xffff_ffff, 3), 2);
    Ok(())
}

use super::*;
use std::test::Fail;

// Attach three files and detach the first: the last moves to its place. Attached again, the file
// stands last, and nothing moves when it goes.
#[test]
fn attaches_and_detaches(rt: HostRuntime) -> Result<(), Fail> {
    let mut queues = Queues::new(rt.alloc())?;
    assert!(rt; queues.is_empty());
    for file in 0..3 {
        assert!(rt; !queues.is_full() && !queues.contains(file));
        assert_eq!(rt; queues.attach(file, 1), file);
    }
    assert!(rt; queues.contains(0));
    assert_eq!(rt;
        queues.detach(0),
        Moved {
            hole: 0,
            moved: Some(2)
        }
    );
    assert_eq!(rt; queues.at(0), Some(Row { file: 2, epoch: 1 }));
    assert_eq!(rt; queues.at(1), Some(Row { file: 1, epoch: 1 }));
    assert_eq!(rt; queues.at(2), None);
    assert_eq!(rt; (queues.index_of(2), queues.index_of(0)), (Some(0), None));
    assert!(rt; !queues.is_full() && !queues.contains(0));
    assert_eq!(rt; queues.attach(0, 2), 2);
    assert_eq!(rt; queues.at(2), Some(Row { file: 0, epoch: 2 }));
    assert!(rt; queues.contains(0));
    assert_eq!(rt;
        queues.detach(0),
        Moved {
            hole: 2,
            moved: None
        }
    );
    assert_eq!(rt; queues.len(), 2);
    Ok(())
}

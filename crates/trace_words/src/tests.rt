//! Lines that say something.

use crate::said_of;
use std::alloc::Global;
use std::test::Fail;

const GOOD: [&str; 24] = [
    "taptrace 1",
    "op 1 0 setiff 0 tap0 5102",
    "op 2 1 hdrsize 0 12",
    "op 4 2 learn 0 3a34b7c4",
    "op 5 3 back 0 tx -",
    "ans 0 0 1 ok 1",
    "ans 0 1 1 host 14 0000beef",
    "ans 0 1 1 harvest 3:14 0:0",
    "ans 0 4 4 turn 1 26 short 100 60",
    "ans 0 4 4 bad 6",
    "ans 0 4 4 placed 0 5 1 60",
    "ans 0 4 4 drop Gone 0 1 2 1",
    "ans 0 4 4 read 0.4.0 5 ",
    "ans 0 4 4 err EINVAL 10",
    "ans 0 4 4 err EBUSY Backed",
    "ans 0 4 4 verr EHDR 12 10",
    "ans 0 4 4 derr Full 2 1",
    "resize 5 5 1",
    "got 1.7.0 14 0000beef",
    "file 0 5 5",
    "line 0 1 1.7.0 14 overrun 60 1 40",
    "step 1 7 copy 4 1 0 -",
    "used 0 5 0",
    "end",
];

fn says(alloc: Global, line: &str) -> Result<bool, Fail> {
    let said = said_of(alloc, line.as_bytes())?;
    Ok(said.is_some())
}

#[test]
fn lines_say_something(rt: HostRuntime) -> Result<(), Fail> {
    for line in GOOD {
        assert!(rt; says(rt.alloc(), line)?, "{line}");
    }
    Ok(())
}

//! The text of a scenario that is made.

use crate::generate;
use scen_text::print_scenario;
use std::test::Fail;

/// Three sends, of which the second is followed by a read.
const THREE: &str = "tapscen 1\nfile 0 256\nfile 1 256\nfile 2 256\nfile 3 256\n\
    setiff 0 tap0 5102\nsetiff 1 tap0 5102\nsetiff 2 tap0 5102\nsetiff 3 tap0 5102\nphase 2\n\
    @0 send tap0 - 02000000000102000000000208004500002e00000000401100000a0000010a000002\
    03e80035001a0000000000000000000000000000000000000000\n\
    @0 send tap0 - 02000000000102000000000208004500002e00000000401100000a0000010a000002\
    03e90035001a0000000000010000000000000000000000000000\n\
    @1 read 0 2048\n\
    @0 send tap0 - 02000000000102000000000208004500002e00000000401100000a0000010a000002\
    03ea0035001a0000000000020000000000000000000000000000\nend\n";

#[test]
fn three_sends_are_printed(rt: HostRuntime) -> Result<(), Fail> {
    let scenario = generate(rt.alloc(), 3)?;
    assert_eq!(rt; print_scenario(rt.alloc(), &scenario)?.as_str(), THREE);
    Ok(())
}

//! A scenario of each declaration, opened.

use crate::open;
use scen_text::read_scenario;
use std::test::Fail;

/// A file past another one that isn't there, a guest of two regions, a vhost, a program, and the flows of a name.
const TEXT: &str = "tapscen 2\nfile 2 4 7\nregion 0 0 4096\nregion 0 8192 4096\nvhost 1 0\nprog 0 \
                    b7000000050000009500000000000000\nflows tap0 16 1000\n";

#[test]
fn a_scenario_is_opened(rt: HostRuntime) -> Result<(), Fail> {
    let scenario = read_scenario(rt.alloc(), TEXT.as_bytes())?;
    scen_laid::read_is_laid();
    let shared = open(rt.alloc(), &scenario)?;
    let has_file = shared.files.has(2) & !shared.files.has(1);
    let counts = (shared.guests.items().len(), shared.vhosts.sides().len());
    let newest = shared.ops.newest();
    shared.abandon();
    assert!(rt; has_file);
    assert!(rt; counts == (1, 2));
    assert!(rt; newest == 0);
    Ok(())
}

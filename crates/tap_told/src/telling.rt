//! The whole trace.

ghost use Rattle.std.specs.Prelude.{◌≡◌, IfOk};
ghost use Rattle.tap_lines.specs.Files.{files_of};
ghost use Rattle.tap_world.specs.Project.{project};
ghost use Rattle.tap_world.specs.Setup.{setup_of};
ghost use Rattle.tap_told.specs.Needs.{CanBeTold, vhosts_of};
ghost use Rattle.tap_told.specs.Told.{told_world};

use crate::files::file_parts;
use crate::guests::guest_parts;
use crate::phases::phase_parts;
use crate::rings::ring_parts;
use scen_text::Scenario;
use std::alloc::{AllocError, Global};
use tap_guests::{GuestMem, VhostSide};
use tap_lines::Files;
use tap_trace::Trace;
use tap_world::{Published, Said};

/// The trace of a run of a scenario, read off the parts of the world that it ended in: the operations in the order of
/// their versions, the answers in the order given, and files, guests and vhosts by number.
///
/// Frames that files still have are ended, also where memory runs out, which is the only error.
pub fn project(
    alloc: Global,
    scenario: &Scenario,
    ops: &[Published],
    said: Vec<Said>,
    files: Files,
    guests: Vec<Option<GuestMem>>,
    vhosts: &[Option<VhostSide>],
) -> Result<Trace, AllocError>
    requires { CanBeTold scenario.now ops.now files guests.items vhosts.now }
    ensures { IfOk result (λ trace. trace ≡ project (setup_of scenario.now)
        (told_world ops.now said.items (files_of files) guests.items (vhosts_of vhosts.now))) }
{
    let file_parts = file_parts(alloc, files.sides());
    files.abandon();
    Ok(Trace {
        phases: phase_parts(alloc, scenario, ops, said)?,
        files: file_parts?,
        guests: guest_parts(alloc, guests)?,
        rings: ring_parts(alloc, vhosts)?,
    })
}

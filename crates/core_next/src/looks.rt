//! The file and the vhost of a number.

ghost use Rattle.std.specs.Prelude.{◌≡◌, option_map};
ghost use Rattle.core_shared.specs.Worlds.{vhosts_of};
ghost use Rattle.tap_lines.specs.Files.{files_of};
ghost use Rattle.tap_world.specs.ByNumber.{at};

use core_shared::Shared;
use tap_guests::VhostSide;
use tap_lines::FileSide;

// The file of a number, if there is one.
pub(crate) fn file_in(shared: &Shared, file: u16) -> Option<&FileSide>
    ensures { option_map (λ side. side.now.file) result ≡ at (files_of shared.now.files) file }
{
    if shared.files.has(file) {
        Some(shared.files.side(file))
    } else {
        None
    }
}

// The vhost of a number, if there is one.
pub(crate) fn vhost_in(shared: &Shared, vhost: u16) -> Option<&VhostSide>
    ensures { option_map (λ side. side.now.vhost) result ≡ at (vhosts_of shared.now.vhosts) vhost }
{
    shared.vhosts.get(vhost)
}

//! Whether a range of addresses has bytes, told by the stretch in which the last one was found.
ghost use Rattle.std.specs.Prelude.{◌≡◌, ◌+◌, nat_le, IsTrue};
ghost use Rattle.guest_mem.specs.Memory.{is_in, covers};
ghost use Rattle.vring_walk.specs.Stretch.{TellsRanges};

use guest_mem::{Memory, Region, range_laws};

/// Whether an address is in a region.
#[inline]
fn is_in(addr: u64, region: &Region) -> bool
    ensures { result ≡ is_in addr region.now }
{
    region.addr <= addr && addr - region.addr < region.len
}

/// Whether a range that starts in a region ends in it.
#[inline]
fn ends_in(addr: u64, len: u64, region: &Region) -> bool
    requires { IsTrue (is_in addr region.now) }
    ensures { result ≡ nat_le (addr + len) (region.now.addr + region.now.len) }
{
    len <= region.len - (addr - region.addr)
}

/// Whether each of the `len` addresses from `addr` on has a byte. `near` is where the last range was
/// found; where this one starts elsewhere, it becomes the stretch around its start.
#[inline]
pub fn covers_near(mem: &Memory, near: &mut Region, addr: u64, len: u64) -> bool
    requires { TellsRanges mem.now.regions near.old }
    ensures covered { result ≡ covers mem.now.regions addr len }
    ensures tells { TellsRanges mem.now.regions near.new }
{
    if is_in(addr, near) {
        return ends_in(addr, len, near);
    }
    range_laws();
    match mem.stretch_around(addr) {
        Some(stretch) => {
            *near = stretch;
            ends_in(addr, len, near)
        }
        None => len == 0,
    }
}

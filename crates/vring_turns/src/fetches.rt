//! What a fetch tells, and where its segments lie.
ghost use Rattle.std.specs.Prelude.{◌≡◌, ◌↔◌, IsTrue, All};
ghost use Rattle.guest_mem.specs.Memory.{covers};
ghost use Rattle.vring_turns.specs.Ring.{told_of as told};

use guest_mem::Memory;
use tap_ledger::Act;
use vring_walk::{Fetched, Segment};

/// What a fetch at a position tells.
pub fn told_of(position: u16, found: Fetched) -> Act
    ensures { result ≡ told position found }
{
    match found {
        Fetched::Chain { head } => Act::Fetch { position, head },
        Fetched::Nothing => Act::Nothing,
        Fetched::Crowded => Act::Crowded,
        Fetched::Bad(fault) => Act::Halt {
            fault: fault.number(),
        },
    }
}

/// Whether segments lie in a memory.
pub fn lie_in(mem: &Memory, segments: &[Segment]) -> bool
    ensures { IsTrue result ↔ All (λ s. IsTrue (covers mem.now.regions s.addr s.len)) segments.now }
{
    segments
        .iter()
        .all(|segment| mem.covers(segment.addr, u64::from(segment.len)))
}

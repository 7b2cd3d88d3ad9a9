//! What a path and a fetch can be, as contracts of functions that do nothing.
ghost use Rattle.vring_walk.specs.Laws.{OneAnswer, FetchesAsFunction, EmptyIsNotCrowded, NoLongPath, ChainsAreUsable, LaidElsewhere, FrontIsGathered, FirstAreCounted};
ghost use Rattle.vring_walk.specs.Examples.{HostileRings, IndexWraps};

use guest_mem::write_laws;

/// A memory, a layout, a position and a room determine what a fetch answers and what it makes of the
/// room, so that each answer comes exactly where `Fetches` says so; and the function `fetched` gives
/// it.
pub fn one_answer()
    ensures one { OneAnswer }
    ensures as_function { FetchesAsFunction }
{}

/// Where all 1,024 places of a room are left, no fetch finds too few of them.
pub fn empty_is_not_crowded()
    ensures { EmptyIsNotCrowded }
{}

/// A path has no more descriptors before any of its places than the queue size and 1,024, so that a
/// fetch looks at no more than the queue size and 1,025.
pub fn no_long_path()
    ensures { NoLongPath }
{}

/// The segments of a chain are few, lie in the memory, and go the ring's way.
pub fn chains_are_usable()
    ensures { ChainsAreUsable }
{}

/// The function on worked examples: hostile rings, and an index that wraps.
pub fn worked_examples()
    ensures hostile { HostileRings }
    ensures wraps { IndexWraps }
{}

/// Bytes that are laid over segments leave all other bytes; the first bytes of segments are the front of
/// all their bytes, and as many as were asked for or as there are.
pub fn spread_laws()
    ensures elsewhere { LaidElsewhere }
    ensures front { FrontIsGathered }
    ensures count { FirstAreCounted }
{
    write_laws();
}

//! What ties the definitions together, as contracts of functions that do nothing.
ghost use Rattle.vring_packed.specs.Examples.{RingsAreFetched, WrapIsOff, ChainPastTheEnd, HostileRings, EarlierRuleIsTold, LongestTables, OneTooMany, DirectionIsTold, RingEndsFirst};
ghost use Rattle.vring_packed.specs.Turns.{TwoArePublished, NoticesAreWanted, NothingIsPublished, OneIsRewound};
ghost use Rattle.vring_packed.specs.Paths.{FetchesAsFunction, ChainsAreUsable, EmptyIsNotCrowded};
ghost use Rattle.vring_packed.specs.Calls.{EachIsOnce};

use vhost_queue::positions_stay_in_order;

/// What a fetch finds on rings of two, around their end and with both wrap counters, and on rings that a
/// hostile driver wrote.
pub fn worked_fetches()
    ensures fetched { RingsAreFetched }
    ensures wrap { WrapIsOff }
    ensures end { ChainPastTheEnd }
    ensures hostile { HostileRings }
    ensures earlier { EarlierRuleIsTold }
{}

/// What a fetch finds at the bounds: tables of 1,024 entries and of one more, and chains of 1,024 segments
/// and of one more.
pub fn worked_bounds()
    ensures tables { LongestTables }
    ensures segments { OneTooMany }
    ensures direction { DirectionIsTold }
    ensures ring { RingEndsFirst }
{}

/// On a ring of three what a publication past the end writes, when a notice is wanted, also of a
/// publication of nothing, and a chain that is rewound.
pub fn worked_turns()
    ensures published { TwoArePublished }
    ensures notices { NoticesAreWanted }
    ensures nothing { NothingIsPublished }
    ensures rewound { OneIsRewound }
{}

/// A fetch answers as the relations between descriptors and chains say exactly where the function gives
/// this answer and these segments.
pub fn fetches_as_function()
    ensures { FetchesAsFunction }
{}

/// The segments of a chain are few, lie in the memory, and go the ring's way.
pub fn chains_are_usable()
    ensures { ChainsAreUsable }
{}

/// A fetch into an empty room never answers `Crowded`.
pub fn empty_is_not_crowded()
    ensures { EmptyIsNotCrowded }
{}

/// For every list of calls on a queue, the chains that were fetched, served and not rewound are published
/// once and in their order, each at the place at which it was fetched: the k-th entry has the id of the
/// k-th of them and the position k.
pub fn each_is_once()
    ensures { EachIsOnce }
{
    positions_stay_in_order();
}

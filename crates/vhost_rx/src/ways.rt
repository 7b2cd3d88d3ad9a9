//! How a receive turn goes on after a fetch.
ghost use Rattle.std.specs.Prelude.{◌≡◌, List, if◌then◌else◌};
ghost use Rattle.vring_turns.specs.Ring.{Gathered, room_in};
ghost use Rattle.vring_turns.specs.RxTurn.{stage_of, gives_up, rx_after_fetch, rx_after_second, rx_rewinds};

use vring_turns::{After, End, RxStage};

/// The stage of a way.
pub fn stage_of(way: After) -> RxStage
    ensures { result ≡ stage_of way }
{
    match way {
        After::Fetch => RxStage::Fetch,
        After::Copy => RxStage::Copy,
        After::Discard { had } => RxStage::Discard { had },
        After::PutBack(end) => RxStage::PutBack { end },
    }
}

// Whether a way gives up the chains that are gathered.
fn gives_up(way: After) -> bool
    ensures { result ≡ gives_up way }
{
    matches!(way, After::Discard { .. } | After::PutBack(_))
}

/// Whether the chains are rewound after the first or the second fetch.
pub fn rewinds(second: bool, way: Option<After>) -> bool
    ensures { result ≡ rx_rewinds second way }
{
    match way {
        Some(way) => gives_up(way),
        None => second,
    }
}

// Where the turn stands after the first fetch.
fn after_fetch(way: Option<After>) -> RxStage
    ensures { result ≡ rx_after_fetch way }
{
    match way {
        Some(way) => stage_of(way),
        None => RxStage::NoticesOn,
    }
}

// Where it stands after the second fetch, for a frame that needs so many bytes and chains that have so many.
fn after_second(need: u32, had: u64, way: Option<After>) -> RxStage
    ensures { (chains : List Gathered) → room_in chains ≡ had → result ≡ rx_after_second need chains way }
{
    match way {
        Some(after) => RxStage::NoticesOff { after },
        None => RxStage::PutBack {
            end: End::Short { need, had },
        },
    }
}

/// Where the turn stands after the first or the second fetch, for a frame that needs so many bytes and chains that have
/// so many.
pub fn after_by(second: bool, need: u32, had: u64, way: Option<After>) -> RxStage
    ensures { (chains : List Gathered) → room_in chains ≡ had
        → result ≡ (if second then rx_after_second need chains way else rx_after_fetch way) }
{
    if second {
        after_second(need, had, way)
    } else {
        after_fetch(way)
    }
}

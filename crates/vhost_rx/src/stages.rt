//! What the worker's stage says.
ghost use Rattle.std.specs.Prelude.{◌≡◌};
ghost use Rattle.vring_turns.specs.Stage.{has_in_hand, gathers_at, copies_at, rx_stopped_at, rx_is_publishing};
ghost use Rattle.vhost_rx.specs.Worker.{counts_at, copies_after, few_done_at};

use vring_split::RingFault;
use vring_turns::{After, End, RxStage};

/// Whether a frame is in hand.
pub fn has_in_hand(stage: RxStage) -> bool
    ensures { result ≡ has_in_hand stage }
{
    !matches!(
        stage,
        RxStage::Begin | RxStage::Hand | RxStage::Publish { .. } | RxStage::Ended(_)
    )
}

/// Whether more chains are gathered for it.
pub fn gathers_at(stage: RxStage) -> bool
    ensures { result ≡ gathers_at stage }
{
    matches!(
        stage,
        RxStage::Fetch
            | RxStage::NoticesOn
            | RxStage::FetchAgain
            | RxStage::NoticesOff {
                after: After::Fetch
            }
    )
}

/// Whether the chains hold it.
pub fn copies_at(stage: RxStage) -> bool
    ensures { result ≡ copies_at stage }
{
    matches!(
        stage,
        RxStage::Copy | RxStage::NoticesOff { after: After::Copy }
    )
}

/// The fault that stopped the ring in this turn.
pub fn stopped_at(stage: RxStage) -> Option<RingFault>
    ensures { result ≡ rx_stopped_at stage }
{
    match stage {
        RxStage::NoticesOff {
            after: After::PutBack(end),
        } => end.fault(),
        RxStage::PutBack { end } | RxStage::Publish { end: Some(end) } | RxStage::Ended(end) =>
            end.fault(),
        _ => None,
    }
}

/// Whether something is there to be published.
pub fn is_publishing(stage: RxStage) -> bool
    ensures { result ≡ rx_is_publishing stage }
{
    matches!(stage, RxStage::Publish { .. })
}

/// Whether one more packet may be counted.
pub fn counts_at(stage: RxStage) -> bool
    ensures { result ≡ counts_at stage }
{
    !matches!(
        stage,
        RxStage::PutBack { .. } | RxStage::Publish { end: Some(_) } | RxStage::Ended(_)
    )
}

/// Whether chains may be done for it.
pub fn copies_after(stage: RxStage) -> bool
    ensures { result ≡ copies_after stage }
{
    !matches!(stage, RxStage::Out) & counts_at(stage)
}

/// Whether few chains are done.
pub fn few_done_at(stage: RxStage) -> bool
    ensures { result ≡ few_done_at stage }
{
    !matches!(stage, RxStage::Publish { .. }) & copies_after(stage)
}

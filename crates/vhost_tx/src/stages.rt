//! What the worker's stage says.
ghost use Rattle.std.specs.Prelude.{◌≡◌};
ghost use Rattle.vring_turns.specs.Stage.{is_giving, chains_at, tx_stopped_at, tx_is_publishing};
ghost use Rattle.vhost_tx.specs.Worker.{goes_on_at};

use vring_split::RingFault;
use vring_turns::{End, TxStage};

/// How many chains were fetched and aren't done.
pub fn chains_at(stage: TxStage) -> u16
    ensures { result ≡ chains_at stage }
{
    match stage {
        TxStage::Copy | TxStage::NoticesOff { fault: None } => 1,
        _ => 0,
    }
}

/// Whether an accepted frame is still to be given.
pub fn is_giving(stage: TxStage) -> bool
    ensures { result ≡ is_giving stage }
{
    matches!(stage, TxStage::Give)
}

/// The fault that stopped the ring in this turn.
pub fn stopped_at(stage: TxStage) -> Option<RingFault>
    ensures { result ≡ tx_stopped_at stage }
{
    match stage {
        TxStage::NoticesOff { fault: Some(fault) } => Some(fault),
        TxStage::Publish { end: Some(end) } | TxStage::Ended(end) => end.fault(),
        _ => None,
    }
}

/// Whether something is there to be published.
pub fn is_publishing(stage: TxStage) -> bool
    ensures { result ≡ tx_is_publishing stage }
{
    matches!(stage, TxStage::Publish { .. })
}

/// Whether one more packet may come.
pub fn goes_on_at(stage: TxStage) -> bool
    ensures { result ≡ goes_on_at stage }
{
    !matches!(
        stage,
        TxStage::Give | TxStage::Publish { end: Some(_) } | TxStage::Ended(_)
    )
}

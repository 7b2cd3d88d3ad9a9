//! What is next of a turn under way, by its stage.

ghost use Rattle.std.specs.Prelude.{◌≡◌};
ghost use Rattle.core_next.specs.Telling.{IsRxNext, tx_next_in};

use crate::files::hand_next;
use core_shared::Shared;
use tap_world::EventKind;
use vring_turns::{RxStage, TxStage};

// The next event of a receive turn of a vhost on a file.
pub(crate) fn rx_next(shared: &Shared, vhost: u16, file: u16) -> Option<EventKind>
    ensures { IsRxNext shared.now vhost file result }
{
    match shared.vhosts.get(vhost)?.rx_stage()? {
        RxStage::Begin | RxStage::NoticesOn | RxStage::NoticesOff { .. } => Some(
            EventKind::Notices,
        ),
        RxStage::Hand => hand_next(shared, file),
        RxStage::Fetch | RxStage::FetchAgain => Some(EventKind::Fetch),
        RxStage::Copy => Some(EventKind::Copy),
        RxStage::Out | RxStage::Discard { .. } => Some(EventKind::Out),
        RxStage::PutBack { .. } => Some(EventKind::PutBack),
        RxStage::Publish { .. } => Some(EventKind::PublishUsed),
        RxStage::Ended(_) => None,
    }
}

// The next event of a transmit turn of a vhost.
pub(crate) fn tx_next(shared: &Shared, vhost: u16) -> Option<EventKind>
    ensures { result ≡ tx_next_in shared.now.vhosts vhost }
{
    match shared.vhosts.get(vhost)?.tx_worker()?.stage() {
        TxStage::Begin | TxStage::NoticesOn | TxStage::NoticesOff { .. } => Some(
            EventKind::Notices,
        ),
        TxStage::Fetch | TxStage::FetchAgain => Some(EventKind::Fetch),
        TxStage::Copy => Some(EventKind::Copy),
        TxStage::Give => Some(EventKind::HostIn),
        TxStage::Publish { .. } => Some(EventKind::PublishUsed),
        TxStage::Ended(_) => None,
    }
}

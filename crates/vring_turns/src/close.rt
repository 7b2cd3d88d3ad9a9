//! How a turn of either kind answers at once, and how it closes.
ghost use Rattle.std.specs.Prelude.{◌≡◌, ◌==◌, Some, if◌then◌else◌};
ghost use Rattle.vring_turns.specs.Stage.{first_answer as answered};
ghost use Rattle.vring_turns.specs.Ring.{done_in};
ghost use Rattle.vring_turns.specs.declared.end.End.{End as Ending};

use crate::end::End;
use crate::stage::{RxStage, TxStage};
use vhost_queue::Vq;
use vring_split::RingFault;

/// The answer of a turn that does nothing: its ring has no backend, or is stopped since that was set.
pub fn first_answer(backed: bool, stopped: Option<RingFault>) -> Option<End>
    ensures { result ≡ answered backed stopped }
{
    if !backed {
        return Some(End::Off);
    }
    match stopped {
        Some(fault) => Some(End::Stopped(fault)),
        None => None,
    }
}

/// The stages of a turn, of which two close it.
pub trait Closes {
    // It is over with an end, and it is after what is done was published.
    ghost over: { Ending → Self };

    ghost publishing: { Ending → Self };

    /// The turn is over.
    fn over(end: End) -> Self
        ensures { result ≡ over end };

    /// What is done is published, and then the turn is over.
    fn publishing(end: End) -> Self
        ensures { result ≡ publishing end };
}

impl Closes for TxStage {
    ghost use Rattle.vring_turns.specs.declared.stage.TxStage.TheVariants.{Publish, Ended};

    ghost over = { λ end. Ended end };

    ghost publishing = { λ end. Publish (Some end) };

    fn over(end: End) -> TxStage {
        TxStage::Ended(end)
    }

    fn publishing(end: End) -> TxStage {
        TxStage::Publish { end: Some(end) }
    }
}

impl Closes for RxStage {
    ghost use Rattle.vring_turns.specs.declared.stage.RxStage.TheVariants.{Publish as Publishes, Ended as Over};

    ghost over = { λ end. Over end };

    ghost publishing = { λ end. Publishes (Some end) };

    fn over(end: End) -> RxStage {
        RxStage::Ended(end)
    }

    fn publishing(end: End) -> RxStage {
        RxStage::Publish { end: Some(end) }
    }
}

/// A turn closes with an end: after a publication, where anything is done.
pub fn closing<S: Closes>(vq: &Vq, end: End) -> S
    ensures { result ≡ (if done_in vq.now.queue == 0 then S.over end else S.publishing end) }
{
    if vq.unpublished() == 0 {
        S::over(end)
    } else {
        S::publishing(end)
    }
}

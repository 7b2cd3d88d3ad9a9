//! What each step tells the token that takes it. `specs/Steps.antt` says it.

use crate::rule::View;
use atomic_table::{Join, Play, Split};
use tap_frame::Frame;

pub(crate) struct LoadsGate;

impl Play<Option<Frame>, View> for LoadsGate {
    ghost use Rattle.tap_ring.specs.Steps as steps;

    ghost then = { steps.LoadsGate };
}

pub(crate) struct LoadsCapacity;

impl Play<Option<Frame>, View> for LoadsCapacity {
    ghost use Rattle.tap_ring.specs.Steps as steps;

    ghost then = { steps.LoadsCapacity };
}

pub(crate) struct LoadsFreed;

impl Play<Option<Frame>, View> for LoadsFreed {
    ghost use Rattle.tap_ring.specs.Steps as steps;

    ghost then = { steps.LoadsFreed };
}

pub(crate) struct Exchanges;

impl Play<Option<Frame>, View> for Exchanges {
    ghost use Rattle.tap_ring.specs.Steps as steps;

    ghost then = { steps.Exchanges };
}

pub(crate) struct Puts;

impl Play<Option<Frame>, View> for Puts {
    ghost use Rattle.tap_ring.specs.Steps as steps;

    ghost then = { steps.Puts };
}

pub(crate) struct LoadsFront;

impl Play<Option<Frame>, View> for LoadsFront {
    ghost use Rattle.tap_ring.specs.Steps as steps;

    ghost then = { steps.LoadsFront };
}

pub(crate) struct Lifts;

impl Play<Option<Frame>, View> for Lifts {
    ghost use Rattle.tap_ring.specs.Steps as steps;

    ghost then = { steps.Lifts };
}

pub(crate) struct Frees;

impl Play<Option<Frame>, View> for Frees {
    ghost use Rattle.tap_ring.specs.Steps as steps;

    ghost then = { steps.Frees };
}

pub(crate) struct Shuts;

impl Play<Option<Frame>, View> for Shuts {
    ghost use Rattle.tap_ring.specs.Steps as steps;

    ghost then = { steps.Shuts };
}

pub(crate) struct Reopens;

impl Play<Option<Frame>, View> for Reopens {
    ghost use Rattle.tap_ring.specs.Steps as steps;

    ghost then = { steps.Reopens };
}

pub(crate) struct Stores;

impl Play<Option<Frame>, View> for Stores {
    ghost use Rattle.tap_ring.specs.Steps as steps;

    ghost then = { steps.Stores };
}

pub(crate) struct Resizes;

impl Play<Option<Frame>, View> for Resizes {
    ghost use Rattle.tap_ring.specs.Steps as steps;

    ghost then = { steps.Resizes };
}

// One producer leaves the first seat.
pub(crate) struct OneProducer;

impl Split<View> for OneProducer {
    ghost use Rattle.tap_ring.specs.Steps.{without_producer, one_producer};

    ghost left = { without_producer };

    ghost right = { one_producer };
}

// The consumer leaves the first seat, which is the keeper from then on.
pub(crate) struct TheConsumer;

impl Split<View> for TheConsumer {
    ghost use Rattle.tap_ring.specs.Steps.{without_consumer, the_consumer};

    ghost left = { without_consumer };

    ghost right = { the_consumer };
}

// The keeper's part comes to another seat.
pub(crate) struct TakesKeeper;

impl Join<View> for TakesKeeper {
    ghost use Rattle.tap_ring.specs.Steps.{with_keeper, spent_view};
    ghost use Rattle.tap_ring.specs.Tokens.{kept};

    ghost both = { λ v w. with_keeper v (kept w) };

    ghost spent = { spent_view };
}

// A producer's claims come to another seat.
pub(crate) struct TakesProducer;

impl Join<View> for TakesProducer {
    ghost use Rattle.tap_ring.specs.Steps.{with_producer, spent_view};
    ghost use Rattle.tap_ring.specs.Tokens.{produced};

    ghost both = { λ v w. with_producer v (produced w) };

    ghost spent = { spent_view };
}

//! Where a turn stands: which step comes next.
use crate::end::End;
use tap_ledger::Fate;
use vring_split::RingFault;

/// Where a transmit turn stands.
#[derive(Clone, Copy, Debug, PartialEq, Eq)]
pub enum TxStage {
    /// At its beginning notices are turned off.
    Begin,
    /// A chain is fetched.
    Fetch,
    /// None was there: notices are turned on.
    NoticesOn,
    /// One more fetch.
    FetchAgain,
    /// It found a chain, or this fault: notices are turned off again.
    NoticesOff {
        /// The fault, if it was one.
        fault: Option<RingFault>,
    },
    /// The bytes of the chain that was fetched are read.
    Copy,
    /// They are a frame, which is given to the host.
    Give,
    /// What is done is published, and then the turn goes on or ends.
    Publish {
        /// Why it ends, if it does.
        end: Option<End>,
    },
    /// It is over.
    Ended(End),
}

/// How a receive turn goes on after a fetch.
#[derive(Clone, Copy, Debug, PartialEq, Eq)]
pub enum After {
    /// With one more fetch.
    Fetch,
    /// The frame is copied into the chains.
    Copy,
    /// The frame is discarded, since the chains hold so many bytes only.
    Discard {
        /// How many bytes they hold.
        had: u64,
    },
    /// The frame is put back, and the turn ends.
    PutBack(End),
}

/// Where a receive turn stands.
#[derive(Clone, Copy, Debug, PartialEq, Eq)]
pub enum RxStage {
    /// At its beginning notices are turned off.
    Begin,
    /// A frame is taken in hand.
    Hand,
    /// A chain is fetched.
    Fetch,
    /// None was there: notices are turned on.
    NoticesOn,
    /// One more fetch.
    FetchAgain,
    /// It found something: notices are turned off again, and the turn goes on by it.
    NoticesOff {
        /// How it goes on.
        after: After,
    },
    /// The frame in hand is copied into the chains that were fetched.
    Copy,
    /// The frame in hand leaves the line: the guest received it.
    Out,
    /// The frame in hand leaves the line: the chains hold so many bytes only.
    Discard {
        /// How many bytes they hold.
        had: u64,
    },
    /// The frame in hand is put back, and the turn ends.
    PutBack {
        /// Why it ends.
        end: End,
    },
    /// What is done is published, and then the turn goes on or ends.
    Publish {
        /// Why it ends, if it does.
        end: Option<End>,
    },
    /// It is over.
    Ended(End),
}

//! The words of values that one field says, each with its spelling.

use crate::table::Word;
use tap_trace::{BadFrame, Busy, Invalid, Side, TooBig};

static INVALIDS: [Invalid; 9] = [
    Invalid::Kind,
    Invalid::Multi,
    Invalid::NotDetached,
    Invalid::NoDevice,
    Invalid::NotMulti,
    Invalid::Detached,
    Invalid::NoFlag,
    Invalid::HdrSize,
    Invalid::Clock,
];

impl Word for Invalid {
    ghost use Rattle.trace_causes.specs.Words.{invalid_spelling, invalids};

    ghost spelling = { invalid_spelling };

    ghost words = { invalids };

    fn spelling(self) -> &'static str {
        match self {
            Invalid::Kind => "Kind",
            Invalid::Multi => "Multi",
            Invalid::NotDetached => "NotDetached",
            Invalid::NoDevice => "NoDevice",
            Invalid::NotMulti => "NotMulti",
            Invalid::Detached => "Detached",
            Invalid::NoFlag => "NoFlag",
            Invalid::HdrSize => "HdrSize",
            Invalid::Clock => "Clock",
        }
    }

    fn words() -> &'static [Invalid] {
        &INVALIDS
    }
}

static BUSYS: [Busy; 3] = [Busy::Exclusive, Busy::OneQueue, Busy::Backed];

impl Word for Busy {
    ghost use Rattle.trace_causes.specs.Words.{busy_spelling, busys};

    ghost spelling = { busy_spelling };

    ghost words = { busys };

    fn spelling(self) -> &'static str {
        match self {
            Busy::Exclusive => "Exclusive",
            Busy::OneQueue => "OneQueue",
            Busy::Backed => "Backed",
        }
    }

    fn words() -> &'static [Busy] {
        &BUSYS
    }
}

static BIGS: [TooBig; 3] = [TooBig::Queues, TooBig::Epochs, TooBig::Resizes];

impl Word for TooBig {
    ghost use Rattle.trace_causes.specs.Words.{big_spelling, bigs};

    ghost spelling = { big_spelling };

    ghost words = { bigs };

    fn spelling(self) -> &'static str {
        match self {
            TooBig::Queues => "Queues",
            TooBig::Epochs => "Epochs",
            TooBig::Resizes => "Resizes",
        }
    }

    fn words() -> &'static [TooBig] {
        &BIGS
    }
}

static SIDES: [Side; 2] = [Side::Rx, Side::Tx];

impl Word for Side {
    ghost use Rattle.trace_causes.specs.Words.{side_spelling, sides};

    ghost spelling = { side_spelling };

    ghost words = { sides };

    fn spelling(self) -> &'static str {
        match self {
            Side::Rx => "rx",
            Side::Tx => "tx",
        }
    }

    fn words() -> &'static [Side] {
        &SIDES
    }
}

static BADS: [BadFrame; 6] = [
    BadFrame::ShortPi,
    BadFrame::ShortHdr,
    BadFrame::HdrBeyond,
    BadFrame::ShortEther,
    BadFrame::HdrShort,
    BadFrame::TooLong,
];

impl Word for BadFrame {
    ghost use Rattle.trace_causes.specs.Words.{bad_spelling, bads};

    ghost spelling = { bad_spelling };

    ghost words = { bads };

    fn spelling(self) -> &'static str {
        match self {
            BadFrame::ShortPi => "1",
            BadFrame::ShortHdr => "2",
            BadFrame::HdrBeyond => "3",
            BadFrame::ShortEther => "4",
            BadFrame::HdrShort => "5",
            BadFrame::TooLong => "6",
            BadFrame::NoMemory => "0",
        }
    }

    fn words() -> &'static [BadFrame] {
        &BADS
    }
}

static FLAGS: [bool; 2] = [true, false];

impl Word for bool {
    ghost use Rattle.trace_causes.specs.Words.{flag_spelling, flags};

    ghost spelling = { flag_spelling };

    ghost words = { flags };

    fn spelling(self) -> &'static str {
        if self { "1" } else { "0" }
    }

    fn words() -> &'static [bool] {
        &FLAGS
    }
}

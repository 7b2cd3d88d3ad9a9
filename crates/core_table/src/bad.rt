//! Bytes that are no frame.

ghost use Rattle.std.specs.Prelude.{◌≡◌, ◌≢◌, IfOk, OnOk};
ghost use Rattle.core_shared.specs.declared.onward.Onward.TheVariants as onward;
ghost use Rattle.tap_frame.specs.declared.reading.BadFrame.TheVariants.{NoMemory};
ghost use Rattle.tap_trace.specs.declared.answer.Answer.TheVariants as answer;

use core_shared::Onward;
use std::alloc::AllocError;
use tap_frame::BadFrame;
use tap_trace::Answer;

// The command of bytes that are no frame ends so, unless memory ran out.
pub(crate) fn end_bad(seen: u64, bad: BadFrame) -> Result<Onward, AllocError>
    ensures ends { IfOk result (λ on. on ≡ onward.Ends seen (answer.Bad bad)) }
    ensures case { OnOk result (bad ≢ NoMemory) }
{
    match bad {
        BadFrame::NoMemory => Err(AllocError),
        BadFrame::ShortPi
        | BadFrame::ShortHdr
        | BadFrame::HdrBeyond
        | BadFrame::ShortEther
        | BadFrame::HdrShort
        | BadFrame::TooLong => Ok(Onward::Ends {
            seen,
            answer: Answer::Bad(bad),
        }),
    }
}

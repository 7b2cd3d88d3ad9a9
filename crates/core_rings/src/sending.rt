//! Frames that are sent.

ghost use Rattle.std.specs.Prelude.{◌≡◌, ◌++◌, ◌∷◌, [], IfOk, OnOk, Some};
ghost use Rattle.core_shared.specs.Did.{Did, Went};
ghost use Rattle.core_shared.specs.MayDo.{MayDo, MayGo};
ghost use Rattle.core_shared.specs.declared.doing.Doing.TheVariants as doing;
ghost use Rattle.tap_world.specs.declared.event.EventKind.TheVariants as kind;

use core_shared::{Asked, Doing, Onward, Shared};
use std::alloc::AllocError;
use tap_frame::{Frame, Name};
use tap_ledger::Cause;
use tap_trace::Answer;
use tap_world::Found;

/// A send with a row, on a file under an epoch: its frame gets the next place of the file's ring, and is to be put
/// there next. Where the gate is shut or under another epoch, all places are spent, or the ring is full, the frame is
/// dropped under that cause, and the send is done.
pub fn send_on(
    shared: &mut Shared,
    asked: &Asked<'_>,
    file: u16,
    epoch: u16,
    frame: Frame,
) -> Result<Onward, AllocError>
    requires may { MayGo asked.now (doing.Routed file epoch frame) shared.old }
    ensures went { IfOk result (λ on. Went asked.now (doing.Routed file epoch frame) shared.old shared.new on) }
{
    let side = shared.files.side(file);
    if side.is_gone(epoch) {
        find_gone(shared, asked, file, epoch, frame)
    } else if side.is_spent() {
        find_spent(shared, asked, file, epoch, frame)
    } else if side.is_full() {
        find_full(shared, asked, file, epoch, frame)
    } else {
        claim(shared, asked, file, epoch, frame)
    }
}

// Gone: the gate is shut, or under another epoch.
fn find_gone(
    shared: &mut Shared,
    asked: &Asked<'_>,
    file: u16,
    epoch: u16,
    frame: Frame,
) -> Result<Onward, AllocError>
    requires may { MayDo asked.now (doing.Routed file epoch frame) kind.Gone shared.old }
    ensures did { IfOk result (λ on. Did asked.now (doing.Routed file epoch frame) kind.Gone shared.old shared.new on) }
{
    let side = shared.files.side(file);
    let cause = Cause::Gone {
        want: epoch,
        found: side.epoch(),
        shut: side.is_shut(),
    };
    drop_frame(&mut shared.dropped, asked, file, frame, cause)
}

// Spent: all places are given out.
fn find_spent(
    shared: &mut Shared,
    asked: &Asked<'_>,
    file: u16,
    epoch: u16,
    frame: Frame,
) -> Result<Onward, AllocError>
    requires may { MayDo asked.now (doing.Routed file epoch frame) kind.Spent shared.old }
    ensures did { IfOk result (λ on. Did asked.now (doing.Routed file epoch frame) kind.Spent shared.old shared.new on) }
{
    let cause = Cause::Spent {
        claimed: shared.files.side(file).claimed(),
    };
    drop_frame(&mut shared.dropped, asked, file, frame, cause)
}

// Full: as many places are claimed and not freed as the ring holds.
fn find_full(
    shared: &mut Shared,
    asked: &Asked<'_>,
    file: u16,
    epoch: u16,
    frame: Frame,
) -> Result<Onward, AllocError>
    requires may { MayDo asked.now (doing.Routed file epoch frame) kind.Full shared.old }
    ensures did { IfOk result (λ on. Did asked.now (doing.Routed file epoch frame) kind.Full shared.old shared.new on) }
{
    let side = shared.files.side(file);
    let cause = Cause::Full {
        claimed: side.claimed(),
        freed: side.freed(),
    };
    drop_frame(&mut shared.dropped, asked, file, frame, cause)
}

// Claim: the frame gets the next place.
fn claim(
    shared: &mut Shared,
    asked: &Asked<'_>,
    file: u16,
    epoch: u16,
    frame: Frame,
) -> Result<Onward, AllocError>
    requires may { MayDo asked.now (doing.Routed file epoch frame) kind.Claim shared.old }
    ensures did { IfOk result (λ on. Did asked.now (doing.Routed file epoch frame) kind.Claim shared.old shared.new on) }
{
    let side = shared.files.side_mut(file);
    match side.claim(asked.actor(), asked.name(), epoch, kept(&frame)) {
        Ok(place) => Ok(Onward::Goes {
            seen: asked.seen(),
            doing: Doing::Placed {
                file,
                place,
                epoch,
                frame,
            },
            found: Found::Place { file, place, epoch },
        }),
        Err(error) => {
            frame.end();
            Err(error)
        }
    }
}

/// A send with a place puts its frame there, and is done.
pub fn put(
    shared: &mut Shared,
    asked: &Asked<'_>,
    file: u16,
    place: u64,
    epoch: u16,
    frame: Frame,
) -> Onward
    requires may { MayGo asked.now (doing.Placed file place epoch frame) shared.old }
    ensures went { Went asked.now (doing.Placed file place epoch frame) shared.old shared.new result }
{
    let len = kept(&frame);
    shared.files.side_mut(file).put(asked.actor(), place, frame);
    Onward::Ends {
        seen: asked.seen(),
        answer: Answer::Placed {
            file,
            place,
            epoch,
            len,
        },
    }
}

// How many bytes of a frame are kept.
fn kept(frame: &Frame) -> u32
    ensures { result ≡ frame.now.mark }
{
    frame.bytes().len() as u32
}

// A frame is dropped under a cause, and its send is done.
fn drop_frame(
    dropped: &mut Vec<Name>,
    asked: &Asked<'_>,
    file: u16,
    frame: Frame,
    cause: Cause,
) -> Result<Onward, AllocError>
    ensures dropped { OnOk result (dropped.new.items ≡ dropped.old.items ++ frame.name ∷ []) }
    ensures ends { IfOk result (λ on. on ≡ Onward.Ends asked.now.seen (Answer.Dropped (Some file) cause)) }
{
    dropped.push(frame.end())?;
    Ok(Onward::Ends {
        seen: asked.seen(),
        answer: Answer::Dropped {
            file: Some(file),
            cause,
        },
    })
}

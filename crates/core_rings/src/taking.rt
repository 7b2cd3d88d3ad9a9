//! Frames that a read or a purge takes.

ghost use Rattle.std.specs.Prelude.{◌≡◌, ◌+◌, ◌-◌, ◌^◌, ◌≤◌, IfOk, IfSome, IsSome};
ghost use Rattle.core_shared.specs.Did.{Did, Went};
ghost use Rattle.core_shared.specs.MayDo.{MayDo, MayGo};
ghost use Rattle.core_shared.specs.declared.doing.Doing.TheVariants as doing;
ghost use Rattle.tap_frame.specs.Frame.{bytes_of};
ghost use Rattle.tap_frame.specs.Text.{least_room, text};
ghost use Rattle.tap_world.specs.declared.event.EventKind.TheVariants as kind;
ghost use Rattle.tap_world.specs.Line.{claimed, first_that, in_batch};

use core_shared::{Asked, Doing, Onward, Shared};
use sqlite_items::Items;
use std::alloc::{AllocError, Global};
use tap_frame::{Frame, Shape, write_frame};
use tap_ledger::{Cause, Fate};
use tap_lines::FileSide;
use tap_trace::Answer;
use tap_world::Found;

/// A detach that published this version empties the batch and the ring of its file: the batch's front is purged, or,
/// where the batch is empty, the ring's front moves to it. The detach ends where all is empty, which isn't done here.
pub fn purge(shared: &mut Shared, asked: &Asked<'_>, file: u16, version: u64) -> Onward
    requires may { MayGo asked.now (doing.Purges file version) shared.old }
    ensures went { Went asked.now (doing.Purges file version) shared.old shared.new result }
{
    if shared.files.side(file).has_batch() {
        purge_front(shared, asked, file, version)
    } else {
        move_to_purge(shared, asked, file, version)
    }
}

// Out: the batch's front is purged.
fn purge_front(shared: &mut Shared, asked: &Asked<'_>, file: u16, version: u64) -> Onward
    requires may { MayDo asked.now (doing.Purges file version) kind.Out shared.old }
    ensures did { Did asked.now (doing.Purges file version) kind.Out shared.old shared.new result }
{
    let side = shared.files.side_mut(file);
    let name = side.leave(Fate::Discarded(Cause::Purged)).end();
    Onward::Goes {
        seen: asked.seen(),
        doing: Doing::Purges { file, version },
        found: Found::Moved(name),
    }
}

// Move: the ring's front goes to the batch.
fn move_to_purge(shared: &mut Shared, asked: &Asked<'_>, file: u16, version: u64) -> Onward
    requires may { MayDo asked.now (doing.Purges file version) kind.Move shared.old }
    ensures did { Did asked.now (doing.Purges file version) kind.Move shared.old shared.new result }
{
    let name = shared.files.side_mut(file).move_front();
    Onward::Goes {
        seen: asked.seen(),
        doing: Doing::Purges { file, version },
        found: Found::Moved(name),
    }
}

/// A read of a file with room for so many bytes, of frames of this shape: it takes the batch's front, and answers its
/// name, its place, and as much of its text as the room holds. Where the batch is empty, the ring's front moves to it,
/// and the read goes on; where that isn't ready, or a worker owns the file, the read answers so.
pub fn read(
    shared: &mut Shared,
    alloc: Global,
    asked: &Asked<'_>,
    file: u16,
    room: u32,
    shape: Shape,
) -> Result<Onward, AllocError>
    requires may { MayGo asked.now (doing.Reads file room shape) shared.old }
    ensures went { IfOk result (λ on. Went asked.now (doing.Reads file room shape) shared.old shared.new on) }
{
    let side = shared.files.side(file);
    if side.owner().is_some() {
        Ok(answer(asked, Answer::Busy))
    } else if side.has_batch() {
        read_front(shared, alloc, asked, file, room, shape)
    } else if side.ready_front().is_some() {
        Ok(move_to_read(shared, asked, file, room, shape))
    } else {
        let place = side.front_place();
        Ok(answer(asked, Answer::Again { place }))
    }
}

// The command ends with an answer.
fn answer(asked: &Asked<'_>, answer: Answer) -> Onward
    ensures { result ≡ Onward.Ends asked.now.seen answer }
{
    Onward::Ends {
        seen: asked.seen(),
        answer,
    }
}

// Out: the batch's front is read.
fn read_front(
    shared: &mut Shared,
    alloc: Global,
    asked: &Asked<'_>,
    file: u16,
    room: u32,
    shape: Shape,
) -> Result<Onward, AllocError>
    requires may { MayDo asked.now (doing.Reads file room shape) kind.Out shared.old }
    ensures did { IfOk result (λ on. Did asked.now (doing.Reads file room shape) kind.Out shared.old shared.new on) }
{
    let side = shared.files.side_mut(file);
    let place = batch_place(side);
    let frame = side.leave(Fate::Read);
    let name = frame.name();
    let bytes = spell(alloc, shape, frame, room)?;
    Ok(answer(asked, Answer::Read { name, place, bytes }))
}

// Move: the ring's front goes to the batch.
fn move_to_read(
    shared: &mut Shared,
    asked: &Asked<'_>,
    file: u16,
    room: u32,
    shape: Shape,
) -> Onward
    requires may { MayDo asked.now (doing.Reads file room shape) kind.Move shared.old }
    ensures did { Did asked.now (doing.Reads file room shape) kind.Move shared.old shared.new result }
{
    let name = shared.files.side_mut(file).move_front();
    Onward::Goes {
        seen: asked.seen(),
        doing: Doing::Reads { file, room, shape },
        found: Found::Moved(name),
    }
}

// The place of the batch's front.
fn batch_place(side: &FileSide) -> u64
    requires some { IsSome (first_that in_batch side.now.file.line) }
    requires places { claimed side.now.file ≤ 2 ^ 40 - 1 }
    ensures { IfSome (first_that in_batch side.now.file.line) (λ i. result ≡ side.now.file.first + i) }
{
    side.first() + side.batch_front().unwrap() as u64
}

// The front of a frame's text, as much of it as the room holds. The frame is ended.
fn spell(alloc: Global, shape: Shape, frame: Frame, room: u32) -> Result<Items<u8>, AllocError>
    requires { least_room shape ≤ room }
    ensures { IfOk result (λ bytes. bytes ≡ text shape frame.hdr (bytes_of frame) room) }
{
    let written = write_frame(alloc, shape, &frame, room as usize);
    frame.end();
    Ok(Items::from_vec(written?))
}

//! The look of a send.

ghost use Rattle.std.specs.Prelude.{◌≡◌, ◌⊎◌, ◌++◌, ◌∷◌, [], length, IfErr, IfOk, None, OnOk, Some};
ghost use Rattle.core_shared.specs.Did.{Went};
ghost use Rattle.core_shared.specs.MayDo.{MayGo};
ghost use Rattle.core_shared.specs.declared.doing.Doing.TheVariants as doing;
ghost use Rattle.core_shared.specs.declared.onward.Onward.TheVariants as onward;
ghost use Rattle.tap_trace.specs.declared.answer.Answer.TheVariants as answer;
ghost use Rattle.core_table.specs.Sent.{Sends, whole_frame};
ghost use Rattle.scen_words.specs.declared.command.Command.TheVariants as command;
ghost use Rattle.tap_frame.specs.declared.reading.BadFrame.TheVariants.{NoMemory};
ghost use Rattle.tap_world.specs.Frames.{bad_in, sent_bytes, sent_front};

use crate::bad::end_bad;
use core_shared::{Asked, Doing, Onward, Shared};
use std::alloc::{AllocError, Global};
use tap_frame::{BadFrame, Frame, Hdr, Name, Shape, read_parts};
use tap_ledger::Cause;
use tap_steer::Select;
use tap_trace::Answer;
use tap_world::Found;

/// The first look of a send to a device: of bytes behind a header of ten bytes, or without one. It ends where they are
/// no frame; where the frame has no row at the device, or the filter drops it, its name is dropped. Else the frame is cut
/// as the filter says, and has the row of a file under an epoch.
///
/// # Errors
///
/// Only where memory runs out.
pub fn begin_send(
    shared: &mut Shared,
    alloc: Global,
    asked: &Asked<'_>,
    device: u16,
    hdr: Option<Hdr>,
    bytes: &[u8],
) -> Result<Onward, AllocError>
    requires may { MayGo asked.now doing.Begun shared.old }
    requires command { asked.now.command ≡ command.Send device hdr bytes.now }
    ensures went { IfOk result (λ on. Went asked.now doing.Begun shared.old shared.new on) }
{
    match sent(alloc, asked.name(), hdr, bytes) {
        Ok(frame) => route(shared, asked, device, frame),
        Err(bad) => end_bad(shared.ops.newest() as u64, bad),
    }
}

// The frame of these bytes behind a header of ten bytes, or without one.
fn sent(alloc: Global, name: Name, hdr: Option<Hdr>, bytes: &[u8]) -> Result<Frame, BadFrame>
    ensures frame { IfOk result (λ frame. frame ≡ whole_frame name (sent_front hdr) (sent_bytes hdr bytes.now)) }
    ensures accepted { OnOk result (bad_in (sent_front hdr) (sent_bytes hdr bytes.now) ≡ None) }
    ensures refused { IfErr result (λ bad.
        (bad ≡ NoMemory) ⊎ (bad_in (sent_front hdr) (sent_bytes hdr bytes.now) ≡ Some bad)) }
{
    let ether = Vec::from_slice(alloc, bytes)?;
    match hdr {
        None => read_parts(
            Shape {
                pi: false,
                hdr: None,
            },
            name,
            &[],
            ether,
        ),
        Some(hdr) => read_parts(
            Shape {
                pi: false,
                hdr: Some(10),
            },
            name,
            header_bytes(&hdr),
            ether,
        ),
    }
}

// The ten bytes of a header.
fn header_bytes(hdr: &Hdr) -> &[u8]
    ensures bytes { result.now ≡ hdr.now.bytes }
    ensures ten { length result.now ≡ 10 }
{
    &hdr.bytes
}

// The frame that is sent is kept for the row that it has at the device, or is dropped.
fn route(
    shared: &mut Shared,
    asked: &Asked<'_>,
    device: u16,
    mut frame: Frame,
) -> Result<Onward, AllocError>
    requires may { MayGo asked.now doing.Begun shared.old }
    requires sends { Sends asked.now device frame }
    ensures went { IfOk result (λ on. Went asked.now doing.Begun shared.old shared.new on) }
{
    match shared.ops.table().select(device, frame.bytes()) {
        Select::NoQueue => discard(shared, frame, Cause::NoQueue),
        Select::Filtered => discard(shared, frame, Cause::Filtered),
        Select::Row {
            row,
            keep,
            resizes: _,
            capacity: _,
        } => {
            let seen = shared.ops.newest() as u64;
            frame.cut(keep);
            Ok(Onward::Goes {
                seen,
                doing: Doing::Routed {
                    file: row.file,
                    epoch: row.epoch,
                    frame,
                },
                found: Found::Version(seen),
            })
        }
    }
}

// The frame is dropped, and its command ends.
fn discard(shared: &mut Shared, frame: Frame, cause: Cause) -> Result<Onward, AllocError>
    ensures dropped { OnOk result (shared.new.dropped.items ≡ shared.old.dropped.items ++ frame.name ∷ []) }
    ensures stays { OnOk result (shared.new ≡ record shared.old { dropped = shared.new.dropped }) }
    ensures ends { IfOk result (λ on.
        on ≡ onward.Ends (length shared.old.ops.ops) (answer.Dropped None cause)) }
{
    shared.dropped.push(frame.end())?;
    Ok(Onward::Ends {
        seen: shared.ops.newest() as u64,
        answer: Answer::Dropped { file: None, cause },
    })
}

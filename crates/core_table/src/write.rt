//! A write: its look, the frame that the host gets, and the flow that is learnt.

ghost use Rattle.std.specs.Prelude.{◌≡◌, length, IfOk};
ghost use Rattle.core_shared.specs.Did.{Went};
ghost use Rattle.core_shared.specs.MayDo.{MayGo};
ghost use Rattle.core_shared.specs.declared.doing.Doing.TheVariants as doing;
ghost use Rattle.scen_words.specs.declared.command.Command.TheVariants as command;
ghost use Rattle.tap_flow_key.specs.Fnv.{fnv_of};
ghost use Rattle.tap_frame.specs.Frame.{bytes_of};
ghost use Rattle.tap_trace.specs.declared.answer.Answer.TheVariants as answer;

use crate::bad::end_bad;
use crate::publish::publish;
use core_shared::{Asked, Doing, Onward, Shared};
use std::alloc::{AllocError, Global};
use tap_flow_key::{flow_hash, fnv};
use tap_frame::{Frame, read_frame};
use tap_steer::{Op, TapErr};
use tap_trace::Answer;
use tap_world::Found;

/// The first look of a write of bytes to a file. It ends where the file has no device, or where the bytes are no frame
/// as the file's frames stand; else the host is to get the frame.
///
/// # Errors
///
/// Only where memory runs out.
pub fn begin_write(
    shared: &mut Shared,
    alloc: Global,
    asked: &Asked<'_>,
    file: u16,
    bytes: &[u8],
) -> Result<Onward, AllocError>
    requires may { MayGo asked.now doing.Begun shared.old }
    requires command { asked.now.command ≡ command.Write file bytes.now }
    ensures went { IfOk result (λ on. Went asked.now doing.Begun shared.old shared.new on) }
{
    let seen = shared.ops.newest() as u64;
    let Some(shape) = shared.ops.table().shape_of(file) else {
        return Ok(Onward::Ends {
            seen,
            answer: Answer::Tap(TapErr::EBADFD),
        });
    };
    match read_frame(alloc, shape, asked.name(), bytes) {
        Ok(frame) => Ok(Onward::Goes {
            seen,
            doing: Doing::Hosts {
                file,
                frame,
                learns: shared.ops.table().learns(file),
            },
            found: Found::Version(seen),
        }),
        Err(bad) => end_bad(seen, bad),
    }
}

/// The host gets a frame that was written. Next its flow is learnt, where it is to be; else the command ends.
///
/// # Errors
///
/// Only where memory runs out; the frame is ended then.
pub fn host(
    shared: &mut Shared,
    asked: &Asked<'_>,
    file: u16,
    frame: Frame,
    learns: bool,
) -> Result<Onward, AllocError>
    requires may { MayGo asked.now (doing.Hosts file frame learns) shared.old }
    ensures went { IfOk result (λ on. Went asked.now (doing.Hosts file frame learns) shared.old shared.new on) }
{
    let name = frame.name();
    if let Err(error) = shared.hosted.push(name) {
        frame.end();
        return Err(error.into());
    }
    if learns {
        return Ok(Onward::Goes {
            seen: asked.seen(),
            doing: Doing::Learns { file, frame },
            found: Found::Moved(name),
        });
    }
    let answer = hosted(&frame);
    frame.end();
    Ok(Onward::Ends {
        seen: asked.seen(),
        answer,
    })
}

/// The flow of a frame that the host has is learnt, while nobody holds the writer: the command ends.
///
/// # Errors
///
/// Only where memory runs out.
pub fn learn(
    shared: &mut Shared,
    asked: &Asked<'_>,
    file: u16,
    frame: Frame,
) -> Result<Onward, AllocError>
    requires may { MayGo asked.now (doing.Learns file frame) shared.old }
    ensures went { IfOk result (λ on. Went asked.now (doing.Learns file frame) shared.old shared.new on) }
{
    let hash = flow_hash(frame.bytes());
    let answer = hosted(&frame);
    frame.end();
    let version = publish(shared, asked, Op::Learn { file, hash })?;
    Ok(Onward::Ends {
        seen: version,
        answer,
    })
}

// What is answered where the host has a frame: its length, and the hash of its bytes.
fn hosted(frame: &Frame) -> Answer
    ensures { result ≡ answer.Host (length (bytes_of frame.now)) (fnv_of (bytes_of frame.now)) }
{
    let bytes = frame.bytes();
    Answer::Host {
        len: bytes.len() as u32,
        fnv: fnv(bytes),
    }
}

//! Frames that are made before the clock starts.

ghost use Rattle.std.specs.Prelude.{◌≡◌, vec_len};

use std::alloc::Global;
use tap_frame::{Frame, Name, Shape, read_frame};

/// Makes so many frames of 60 bytes, or as many as there is memory for.
pub(crate) fn make(alloc: Global, actor: u16, count: u32) -> Vec<Frame> {
    let shape = Shape {
        pi: false,
        hdr: None,
    };
    let mut frames = Vec::new(alloc);
    for turn in 0..count {
        if frames.reserve(1).is_err() {
            break;
        }
        let name = Name {
            actor,
            turn,
            part: 0,
        };
        match read_frame(alloc, shape, name, &[7; 60]) {
            Ok(frame) => frames.push_reserved(frame),
            Err(_) => break,
        }
    }
    frames
}

/// Keeps a frame, or ends it where there is no memory.
pub(crate) fn keep(kept: &mut Vec<Frame>, frame: Frame) {
    if kept.reserve(1).is_ok() {
        kept.push_reserved(frame);
    } else {
        let _ = frame.end();
    }
}

/// Ends all frames. Gives how many there were.
pub(crate) fn end_all(mut frames: Vec<Frame>) -> usize {
    let count = frames.len();
    while let Some(frame) = frames.pop() {
        let _ = frame.end();
    }
    frames.destroy_empty();
    count
}

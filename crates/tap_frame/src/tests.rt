//! Frames read, written, cut and spent.

use crate::{BadFrame, Hdr, Name, Shape, least, read_frame, write_frame};
use std::alloc::{AllocError, Global};
use std::test::Fail;

const NAME: Name = Name {
    actor: 3,
    turn: 70000,
    part: 2,
};

// The packet information and the header in front, and so many bytes behind them: what is answered,
// `None` for a frame.
fn answer(
    alloc: Global,
    shape: Shape,
    front: &[u8],
    behind: usize,
) -> Result<Option<BadFrame>, AllocError> {
    let mut bytes = Vec::from_slice(alloc, front)?;
    for _ in 0..behind {
        bytes.push(7)?;
    }
    match read_frame(alloc, shape, NAME, &bytes) {
        Ok(frame) => {
            frame.end();
            Ok(None)
        }
        Err(bad) => Ok(Some(bad)),
    }
}

#[test]
fn refuses_the_first_case(rt: HostRuntime) -> Result<(), Fail> {
    let plain = Shape {
        pi: false,
        hdr: None,
    };
    let pi = Shape {
        pi: true,
        hdr: None,
    };
    let ten = Shape {
        pi: false,
        hdr: Some(10),
    };
    let both = Shape {
        pi: true,
        hdr: Some(12),
    };
    let largest = Shape {
        pi: false,
        hdr: Some(128),
    };
    let zeros = [0u8; 128];
    let to_52 = [1, 0, 0, 0, 0, 0, 34, 0, 16, 0];
    let to_60 = [1, 0, 60, 0, 0, 0, 34, 0, 16, 0];
    let unflagged = [2, 0, 0, 0, 0, 0, 34, 0, 16, 0];
    let to_131072 = [1, 0, 0, 0, 0, 0, 255, 255, 255, 255];
    let to_20 = [0, 0, 20, 0, 0, 0, 0, 0, 0, 0];
    let to_14 = [0, 0, 14, 0, 0, 0, 0, 0, 0, 0];
    let to_13 = [0, 0, 13, 0, 0, 0, 0, 0, 0, 0];
    let to_1 = [0, 0, 1, 0, 0, 0, 0, 0, 0, 0];
    for (shape, front, behind, want) in [
        (pi, &zeros[..0], 0, Some(BadFrame::ShortPi)),
        (pi, &zeros[..3], 0, Some(BadFrame::ShortPi)),
        (pi, &zeros[..4], 0, Some(BadFrame::ShortEther)),
        (both, &zeros[..3], 0, Some(BadFrame::ShortPi)),
        (both, &zeros[..4], 0, Some(BadFrame::ShortHdr)),
        (both, &zeros[..15], 0, Some(BadFrame::ShortHdr)),
        (both, &zeros[..16], 0, Some(BadFrame::ShortEther)),
        (both, &zeros[..16], 14, None),
        (ten, &zeros[..9], 0, Some(BadFrame::ShortHdr)),
        (ten, &zeros[..10], 13, Some(BadFrame::ShortEther)),
        (ten, &zeros[..10], 14, None),
        (largest, &zeros[..127], 0, Some(BadFrame::ShortHdr)),
        (largest, &zeros, 14, None),
        (ten, &to_52, 51, Some(BadFrame::HdrBeyond)),
        (ten, &to_52, 52, None),
        (ten, &to_60, 59, Some(BadFrame::HdrBeyond)),
        (ten, &to_60, 60, None),
        (ten, &unflagged, 14, None),
        (ten, &to_131072, 65535, Some(BadFrame::HdrBeyond)),
        (ten, &to_20, 19, Some(BadFrame::HdrBeyond)),
        (ten, &to_20, 20, None),
        (ten, &to_14, 13, Some(BadFrame::HdrBeyond)),
        (ten, &to_14, 14, None),
        (ten, &to_13, 12, Some(BadFrame::HdrBeyond)),
        (ten, &to_13, 13, Some(BadFrame::ShortEther)),
        (ten, &to_13, 20, Some(BadFrame::HdrShort)),
        (ten, &to_13, 65536, Some(BadFrame::HdrShort)),
        (ten, &to_1, 14, Some(BadFrame::HdrShort)),
        (ten, &zeros[..10], 65535, None),
        (ten, &zeros[..10], 65536, Some(BadFrame::TooLong)),
        (plain, &zeros[..0], 13, Some(BadFrame::ShortEther)),
        (plain, &zeros[..0], 14, None),
        (plain, &zeros[..0], 65535, None),
        (plain, &zeros[..0], 65536, Some(BadFrame::TooLong)),
        (pi, &zeros[..4], 65536, Some(BadFrame::TooLong)),
    ] {
        let got = answer(rt.alloc(), shape, front, behind)?;
        assert_eq!(rt; got, want, "{front:?} and {behind} bytes");
    }
    Ok(())
}

// The front of a frame from 02:00:00:00:00:01 to 02:00:00:00:00:02, and 46 zeros.
const ETHER: [u8; 14] = [2, 0, 0, 0, 0, 1, 2, 0, 0, 0, 0, 2, 8, 6];

// Reads a frame of 60 bytes with a header of 10, cuts it where asked, writes it where the room is
// enough, and ends it.
fn written(
    alloc: Global,
    shape: Shape,
    cut: Option<u32>,
    room: usize,
) -> Result<Vec<u8>, AllocError> {
    let ten = Shape {
        pi: false,
        hdr: Some(10),
    };
    let mut bytes = Vec::from_slice(alloc, &[0, 11, 0, 0, 14, 15, 16, 17, 18, 19])?;
    bytes.extend_from_slice(&ETHER)?;
    bytes.extend_from_slice(&[0; 46])?;
    match read_frame(alloc, ten, NAME, &bytes) {
        Ok(mut frame) => {
            if let Some(len) = cut {
                frame.cut(len);
            }
            let written = if least(shape) <= room {
                write_frame(alloc, shape, &frame, room)
            } else {
                Ok(Vec::new(alloc))
            };
            frame.end();
            written
        }
        Err(_) => Ok(Vec::new(alloc)),
    }
}

#[test]
fn writes_what_the_room_holds(rt: HostRuntime) -> Result<(), Fail> {
    let pi = Shape {
        pi: true,
        hdr: None,
    };
    let both = Shape {
        pi: true,
        hdr: Some(12),
    };
    for (shape, cut, room, want) in [
        (
            pi,
            None,
            20,
            [1, 0, 8, 6, 2, 0, 0, 0, 0, 1, 2, 0, 0, 0, 0, 2, 8, 6, 0, 0].as_slice(),
        ),
        (pi, None, 4, &[1, 0, 8, 6]),
        (pi, Some(5), 9, &[0, 0, 0, 0, 2, 0, 0, 0, 0]),
        (pi, Some(5), 8, &[1, 0, 0, 0, 2, 0, 0, 0]),
        (
            pi,
            Some(14),
            100,
            &[0, 0, 8, 6, 2, 0, 0, 0, 0, 1, 2, 0, 0, 0, 0, 2, 8, 6],
        ),
        (
            pi,
            Some(13),
            100,
            &[0, 0, 8, 0, 2, 0, 0, 0, 0, 1, 2, 0, 0, 0, 0, 2, 8],
        ),
        (
            pi,
            Some(12),
            100,
            &[0, 0, 0, 0, 2, 0, 0, 0, 0, 1, 2, 0, 0, 0, 0, 2],
        ),
        (
            both,
            Some(13),
            17,
            &[1, 0, 8, 0, 0, 11, 0, 0, 14, 15, 16, 17, 18, 19, 0, 0, 2],
        ),
    ] {
        let got = written(rt.alloc(), shape, cut, room)?;
        assert_eq!(rt; got.as_slice(), want, "{cut:?} in {room}");
    }
    Ok(())
}

#[test]
fn cuts_and_stretches(rt: HostRuntime) -> Result<(), Fail> {
    let plain = Shape {
        pi: false,
        hdr: None,
    };
    let mut frame = read_frame(rt.alloc(), plain, NAME, &ETHER)?;
    let made = frame.bytes().len();
    frame.cut(5);
    let after_cut = frame.bytes().len();
    frame.cut(9);
    let after_weaker_cut = frame.bytes().len();
    frame.stretch(8);
    let after_stretch = frame.bytes().len();
    frame.stretch(99);
    let after_wide_stretch = frame.bytes().len();
    let hdr = frame.hdr();
    let same = frame.bytes() == ETHER.as_slice();
    let name = frame.end();
    assert_eq!(rt;
        [
            made,
            after_cut,
            after_weaker_cut,
            after_stretch,
            after_wide_stretch
        ],
        [14, 5, 5, 8, 14]
    );
    assert_eq!(rt; hdr, Hdr { bytes: [0; 10] });
    assert!(rt; same);
    assert_eq!(rt; name, NAME);
    Ok(())
}

//! A frame on its way.

ghost use Rattle.std.specs.Prelude.{◌≡◌, ◌≤◌, length};
ghost use Rattle.tap_frame.specs.Frame.{bytes_of, cut_at, stretched_to};

use crate::{Hdr, Name};
use std::marker::Model;

/// A frame on its way: its name, its header and its bytes, from the Ethernet header on.
///
/// It must be spent, and [`Frame::end`] is the only way.
pub struct Frame {
    name: Name,
    hdr: Hdr,
    bytes: Vec<u8>,
    mark: usize,
}

impl Model for Frame {
    ghost use Rattle.std.specs.Prelude.{◌≡◌, ◌≤◌, length};
    ghost use Rattle.tap_frame.specs.Frame.{FrameValue, IsFrame};

    ghost Value = { FrameValue };

    ghost view = { λ f. record { name = f.name; hdr = f.hdr.bytes; made = f.bytes.items; mark = f.mark } };

    ghost invariant = { λ f.
        IsFrame (record { name = f.name; hdr = f.hdr.bytes; made = f.bytes.items; mark = f.mark }) };
}

impl Frame {
    // A frame with all the bytes that it is made with.
    pub(crate) fn new(name: Name, hdr: Hdr, bytes: Vec<u8>) -> Frame
        requires { length bytes.items ≤ 65535 }
        ensures { result ≡ record { name = name; hdr = hdr.bytes; made = bytes.items; mark = length bytes.items } }
    {
        let mark = bytes.len();
        Frame {
            name,
            hdr,
            bytes,
            mark,
        }
    }

    /// Its name.
    pub fn name(&self) -> Name
        ensures { result ≡ self.now.name }
    {
        self.name
    }

    /// The first ten bytes of its header, or zeros where it came without one.
    pub fn hdr(&self) -> Hdr
        ensures bytes { result.bytes ≡ self.now.hdr }
        ensures size { length self.now.hdr ≡ 10 }
    {
        self.hdr
    }

    /// Its bytes, up to the mark: at most 65,535.
    pub fn bytes(&self) -> &[u8]
        ensures bytes { result.now ≡ bytes_of self.now }
        ensures mark { length result.now ≡ self.now.mark }
        ensures made { self.now.mark ≤ length self.now.made }
        ensures short { length self.now.made ≤ 65535 }
    {
        &self.bytes[..self.mark]
    }

    /// Keeps the first `len` bytes where there are more. The bytes behind them can come back.
    pub fn cut(&mut self, len: u32)
        ensures { self.new ≡ cut_at self.old len }
    {
        self.mark = self.mark.min(len as usize);
    }

    /// Sets the length to `len` bytes, or to the length that the frame was made with where that is
    /// less.
    pub fn stretch(&mut self, len: u32)
        ensures { self.new ≡ stretched_to self.old len }
    {
        self.mark = self.bytes.len().min(len as usize);
    }

    /// Spends the frame.
    pub fn end(self) -> Name
        ensures { result ≡ self.name }
    {
        let Frame {
            name,
            hdr: _,
            bytes: _,
            mark: _,
        } = self;
        name
    }
}

//! std's readers and writers as a source and a sink: the trusted edge.

ghost use Rattle.std.specs.Prelude.{◌≡◌, ◌<◌, ◌≤◌, length, take, IfOk, OnOk, OnErr, IsErrOf};
ghost use Rattle.std.specs.Io.KnownBytes.{Appends, Consumes, IsAtEnd, Keeps};
ghost use Rattle.tap_ground.specs.Counts.{one_more};

use crate::{Failed, Sink, SinkErr, Source};
use std::io;
use std::marker::Model;

/// A source over one of std's readers. To a contract it is the bytes that the reader has left, where
/// std's contracts tell them, and the number of its faults.
///
/// A reader in memory tells its bytes. Standard input and a file tell none: what they give is
/// trusted. Each `Err` of the reader is a fault.
#[derive(Drop)]
pub struct StdSource<R: io::Read + Drop> {
    reader: R,
    faults: u64,
}

impl<R: io::Read + Drop> Model for StdSource<R> {
    ghost use Rattle.tap_outside.specs.Standard.{Stream};

    ghost Value = { Stream };

    ghost view = { λ s. record { left = R.remaining s.reader; faults = s.faults } };
}

impl<R: io::Read + Drop> StdSource<R> {
    /// A source over this reader, which has not failed yet.
    pub fn new(reader: R) -> StdSource<R>
        ensures { result ≡ record { left = R.remaining reader; faults = 0 } }
    {
        StdSource { reader, faults: 0 }
    }
}

impl<R: io::Read + Drop> Source for StdSource<R> {
    ghost left = { λ s. s.left };

    ghost faults = { λ s. s.faults };

    /// Each `Err` of the reader is a fault.
    fn read(&mut self, room: &mut [u8]) -> Result<usize, Failed>
        requires { 0 < length room.old }
        ensures fits { IfOk result (λ n. n ≤ length room.old) }
        ensures taken { IfOk result (λ n. Consumes self.old.left self.new.left (take n room.new)) }
        ensures end { IfOk result (λ n. n ≡ 0 → IsAtEnd self.new.left) }
        ensures unchanged { OnErr result (Keeps self.old.left self.new.left) }
        ensures no_fault { OnOk result (self.new.faults ≡ self.old.faults) }
        ensures fault { OnErr result (self.new.faults ≡ one_more self.old.faults) }
    {
        match self.reader.read(room) {
            Ok(n) => Ok(n),
            Err(_) => {
                self.faults = self.faults.saturating_add(1);
                Err(Failed)
            }
        }
    }
}

/// A sink over one of std's writers. To a contract it is the bytes that the writer holds, where
/// std's contracts tell them, and the number of its faults.
///
/// A writer in memory tells its bytes. Standard output and a file tell none: what they do with the
/// bytes is trusted. Each `Err` of the writer, and each write that takes nothing, is a fault. It
/// doesn't flush: give it a writer that hands on what it takes, and large pieces.
#[derive(Drop)]
pub struct StdSink<W: io::Write + Drop> {
    writer: W,
    faults: u64,
}

impl<W: io::Write + Drop> Model for StdSink<W> {
    ghost use Rattle.tap_outside.specs.Standard.{Drain};

    ghost Value = { Drain };

    ghost view = { λ s. record { written = W.contents s.writer; faults = s.faults } };
}

impl<W: io::Write + Drop> StdSink<W> {
    /// A sink over this writer, which has not failed yet.
    pub fn new(writer: W) -> StdSink<W>
        ensures { result ≡ record { written = W.contents writer; faults = 0 } }
    {
        StdSink { writer, faults: 0 }
    }
}

impl<W: io::Write + Drop> Sink for StdSink<W> {
    ghost written = { λ s. s.written };

    ghost faults = { λ s. s.faults };

    /// Each `Err` of the writer, and each write that takes nothing, is a fault, and no other error comes.
    fn write(&mut self, piece: &[u8]) -> Result<usize, SinkErr>
        requires { 0 < length piece.now }
        ensures some { IfOk result (λ n. (1 ≤ n) × (n ≤ length piece.now)) }
        ensures appended { IfOk result (λ n. Appends self.old.written self.new.written (take n piece.now)) }
        ensures unchanged { OnErr result (Keeps self.old.written self.new.written) }
        ensures no_fault { OnOk result (self.new.faults ≡ self.old.faults) }
        ensures fault { OnErr result (self.new.faults ≡ one_more self.old.faults) }
        ensures no_other { IsErrOf result SinkErr.NoMemory → ⊥ }
    {
        match self.writer.write(piece) {
            Ok(n) if n > 0 => Ok(n),
            _ => {
                self.faults = self.faults.saturating_add(1);
                Err(SinkErr::Failed)
            }
        }
    }
}

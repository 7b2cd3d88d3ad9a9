use crate::{Failed, MemSink, MemSource, Sink, SinkErr, Source, StdSink, StdSource};
use std::alloc::Global;
use std::io;
use std::io::{Read, Write};
use std::test::Fail;

// A reader of zeros and a writer into nothing. The call with this number, from 0, fails.
#[derive(Drop)]
struct FailsOnce {
    calls: u32,
    at: u32,
}

impl FailsOnce {
    fn fails(&mut self) -> bool {
        let call = self.calls;
        self.calls = call.saturating_add(1);
        call == self.at
    }
}

impl Read for FailsOnce {
    fn read(&mut self, buf: &mut [u8]) -> io::Result<usize> {
        if self.fails() {
            return Err(io::Error::from(io::ErrorKind::Other));
        }
        Ok(buf.len().min(3))
    }
}

impl Write for FailsOnce {
    fn write(&mut self, buf: &[u8]) -> io::Result<usize> {
        if self.fails() {
            return Err(io::Error::from(io::ErrorKind::Other));
        }
        Ok(buf.len().min(3))
    }

    fn flush(&mut self) -> io::Result<()> {
        Ok(())
    }
}

// Reads from any source until its end, or until a number of calls is over. A call that fails is a
// 255 among the counts.
fn counts<S: Source>(alloc: Global, source: &mut S, turns: u8) -> Result<Vec<u8>, Fail> {
    let mut answers = Vec::new(alloc);
    let mut room = [0u8; 4];
    for _ in 0..turns {
        match source.read(&mut room) {
            Ok(0) => break,
            Ok(n) => answers.push(n as u8)?,
            Err(Failed) => answers.push(255)?,
        }
    }
    Ok(answers)
}

#[test]
fn memory_gives_pieces(rt: HostRuntime) -> Result<(), Fail> {
    for (fails, most, want) in [
        ([9, 9].as_slice(), 7, [4, 4, 1].as_slice()),
        (&[9], 3, &[3, 3, 3]),
        (&[], 2, &[2, 2, 2, 2, 1]),
        (&[1], 4, &[4, 255, 4, 1]),
        (&[0, 1], 4, &[255, 255, 4, 4, 1]),
    ] {
        let bytes = Vec::from_slice(rt.alloc(), b"123456789")?;
        let fails = Vec::from_slice(rt.alloc(), fails)?;
        let mut source = MemSource::new(bytes, fails, most);
        let got = counts(rt.alloc(), &mut source, 20)?;
        assert_eq!(rt; got.as_slice(), want);
    }
    Ok(())
}

#[test]
fn memory_takes_pieces(rt: HostRuntime) -> Result<(), Fail> {
    let fails = Vec::from_slice(rt.alloc(), &[1])?;
    let mut sink = MemSink::new(rt.alloc(), fails, 3);
    assert_eq!(rt; sink.write(b"12345"), Ok(3));
    assert_eq!(rt; sink.write(b"45"), Err(SinkErr::Failed));
    assert_eq!(rt; sink.write(b"45"), Ok(2));
    assert_eq!(rt; sink.bytes(), b"12345".as_slice());
    Ok(())
}

#[test]
fn readers_fail(rt: HostRuntime) -> Result<(), Fail> {
    let mut source = StdSource::new(FailsOnce { calls: 0, at: 1 });
    let got = counts(rt.alloc(), &mut source, 3)?;
    assert_eq!(rt; got.as_slice(), [3, 255, 3].as_slice());
    let mut source = StdSource::new(b"12345".as_slice());
    let got = counts(rt.alloc(), &mut source, 3)?;
    assert_eq!(rt; got.as_slice(), [4, 1].as_slice());
    Ok(())
}

#[test]
fn writers_fail(rt: HostRuntime) -> Result<(), Fail> {
    let mut sink = StdSink::new(FailsOnce { calls: 0, at: 1 });
    assert_eq!(rt; sink.write(b"12345"), Ok(3));
    assert_eq!(rt; sink.write(b"45"), Err(SinkErr::Failed));
    assert_eq!(rt; sink.write(b"45"), Ok(2));
    Ok(())
}

//! Readers and writers of std that count their calls, of which one fails.
use aig_core::{ReadSource, Sink, Source, WriteSink};
use std::alloc::Global;
use std::io;
use std::io::{Read, Write};
use std::test::Fail;

/// The number of no call.
pub(crate) const NEVER: u64 = u64::MAX;

/// The error after which std's own loops call once more, by its number (`EINTR`).
fn interruption() -> io::Error {
    io::Error::from_raw_os_error(4)
}

/// Gives these bytes, at most `piece` in a call. The call numbered `failing`, counted from 0,
/// fails, and no other does.
#[derive(Drop)]
pub(crate) struct OnceReader<'a> {
    pub left: &'a [u8],
    pub piece: usize,
    pub failing: u64,
    pub calls: u64,
}

impl<'a> Read for OnceReader<'a> {
    fn read(&mut self, into: &mut [u8]) -> io::Result<usize> {
        let call = self.calls;
        self.calls = call.saturating_add(1);
        if call == self.failing {
            return Err(interruption());
        }
        let count = self.piece.min(into.len());
        self.left.read(&mut into[..count])
    }
}

/// Takes at most `piece` bytes in a call, and keeps how long the longest slice was that it was
/// handed. The call numbered `failing`, counted from 0, fails, and no other does.
#[derive(Drop)]
pub(crate) struct OnceWriter {
    pub taken: Vec<u8>,
    pub piece: usize,
    pub failing: u64,
    pub calls: u64,
    pub longest: usize,
}

impl OnceWriter {
    pub(crate) fn new(alloc: Global, piece: usize, failing: u64) -> Self {
        OnceWriter {
            taken: Vec::new(alloc),
            piece,
            failing,
            calls: 0,
            longest: 0,
        }
    }
}

impl Write for OnceWriter {
    fn write(&mut self, bytes: &[u8]) -> io::Result<usize> {
        let call = self.calls;
        self.calls = call.saturating_add(1);
        self.longest = self.longest.max(bytes.len());
        if call == self.failing {
            return Err(interruption());
        }
        let count = self.piece.min(bytes.len());
        self.taken.extend_from_slice(&bytes[..count])?;
        Ok(count)
    }

    fn flush(&mut self) -> io::Result<()> {
        Ok(())
    }
}

/// The reader would give its bytes at a second call, which `fetch` does not make.
#[test]
fn a_fetch_reads_once(rt: HostRuntime) {
    let mut reader = OnceReader {
        left: b"bytes",
        piece: 8,
        failing: 0,
        calls: 0,
    };
    let mut source = ReadSource::new(&mut reader);
    let mut into = [0u8; 8];
    let failed = source.fetch(&mut into).is_err();
    assert!(rt; failed && reader.calls == 1);
    let again = ReadSource::new(&mut reader).fetch(&mut into);
    assert!(rt; again.is_ok_and(|count| count == 5));
}

/// The writer would take the bytes at a second call, which `send` does not make.
#[test]
fn a_send_writes_once(rt: HostRuntime) {
    let mut writer = OnceWriter::new(rt.alloc(), 8, 0);
    let mut sink = WriteSink::new(&mut writer);
    let failed = sink.send(b"bytes").is_err();
    let once = writer.calls == 1 && writer.taken.is_empty();
    let again = WriteSink::new(&mut writer).send(b"bytes");
    drop(writer); // for the proof
    assert!(rt; failed && once);
    assert!(rt; again.is_ok_and(|count| count == 5));
}

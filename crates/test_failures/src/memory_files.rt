//! A runtime whose files are in memory, and which counts the calls that reach them.
use crate::streams::OnceReader;
use std::alloc::Allocator;
use std::cell::Cell;
use std::fs::{Metadata, OpenFile, OpenOptions};
use std::io;
use std::io::{ErrorKind, Read, Seek, SeekFrom, Write};
use std::rt::Files;

/// The numbers of errors: `ENOENT`, `EIO`, `EACCES` and `ENOSPC`.
const NOT_FOUND: i32 = 2;

const BROKEN: i32 = 5;

const DENIED: i32 = 13;

const NO_SPACE: i32 = 28;

/// How many files were opened to be read, made and synced, and how many other calls there were.
#[derive(Drop)]
pub(crate) struct Calls {
    opened: Cell<u32>,
    made: Cell<u32>,
    synced: Cell<u32>,
    others: Cell<u32>,
}

impl Calls {
    pub(crate) fn none() -> Self {
        Calls {
            opened: Cell::new(0),
            made: Cell::new(0),
            synced: Cell::new(0),
            others: Cell::new(0),
        }
    }

    /// Whether so many files were opened, made and synced, and nothing else was done with files.
    pub(crate) fn are(&self, opened: u32, made: u32, synced: u32) -> bool {
        self.opened.get() == opened
            && self.made.get() == made
            && self.synced.get() == synced
            && self.others.get() == 0
    }
}

fn count_call(calls: &Cell<u32>) {
    calls.set(calls.get().saturating_add(1));
}

/// A file that can be read: its name and text, and which read of it fails, counted from 0.
#[derive(Clone, Copy)]
pub(crate) struct Readable<'a> {
    pub name: &'a str,
    pub text: &'a [u8],
    pub failing: u64,
}

/// Files that move at most `piece` bytes in a call. The destination can be made if there is a text
/// that is wanted, and takes that text and no other. The write numbered `failing_write`, counted
/// from 0, fails, and no other does. A file without metadata cannot be closed; the standard output
/// has them too.
#[derive(Drop)]
pub(crate) struct MemoryFiles<'a, 'c> {
    pub readable: [Readable<'a>; 2],
    pub wanted: Option<&'a [u8]>,
    pub piece: usize,
    pub failing_write: u64,
    pub metadata: Option<&'a Metadata>,
    pub calls: &'c Calls,
}

impl<'a, 'c> MemoryFiles<'a, 'c> {
    /// The file of this text, if it is read, and of the text that is wanted, if it is written.
    fn file(&self, text: &'a [u8], failing: u64, wanted: &'a [u8]) -> MemoryFile<'a, 'c> {
        MemoryFile {
            reader: OnceReader {
                left: text,
                piece: self.piece,
                failing,
                calls: 0,
            },
            wanted,
            piece: self.piece,
            failing_write: self.failing_write,
            writes: 0,
            metadata: self.metadata,
            calls: self.calls,
        }
    }

    fn readable(&self, name: &str) -> io::Result<MemoryFile<'a, 'c>> {
        for it in &self.readable {
            if it.name == name {
                return Ok(self.file(it.text, it.failing, b""));
            }
        }
        Err(io::Error::from_raw_os_error(NOT_FOUND))
    }

    /// The answer to all that the program is not to call.
    fn refuse<T>(&self) -> io::Result<T> {
        count_call(&self.calls.others);
        Err(io::Error::from(ErrorKind::Unsupported))
    }
}

#[derive(Drop)]
pub(crate) struct MemoryFile<'a, 'c> {
    reader: OnceReader<'a>,
    wanted: &'a [u8],
    piece: usize,
    failing_write: u64,
    writes: u64,
    metadata: Option<&'a Metadata>,
    calls: &'c Calls,
}

impl Read for MemoryFile<'_, '_> {
    fn read(&mut self, into: &mut [u8]) -> io::Result<usize> {
        self.reader.read(into)
    }
}

impl Write for MemoryFile<'_, '_> {
    fn write(&mut self, bytes: &[u8]) -> io::Result<usize> {
        let write = self.writes;
        self.writes = write.saturating_add(1);
        let count = self.piece.min(bytes.len());
        if write == self.failing_write || !self.wanted.starts_with(&bytes[..count]) {
            return Err(io::Error::from_raw_os_error(NO_SPACE));
        }
        self.wanted = &self.wanted[count..];
        Ok(count)
    }

    fn flush(&mut self) -> io::Result<()> {
        Ok(())
    }
}

impl Seek for MemoryFile<'_, '_> {
    fn seek(&mut self, _to: SeekFrom) -> io::Result<u64> {
        count_call(&self.calls.others);
        Err(io::Error::from(ErrorKind::Unsupported))
    }
}

impl OpenFile for MemoryFile<'_, '_> {
    /// All that is wanted was written by then.
    fn metadata(&self) -> io::Result<Metadata> {
        match self.metadata {
            Some(metadata) if self.wanted.is_empty() => Ok(metadata.clone()?),
            _ => Err(io::Error::from_raw_os_error(BROKEN)),
        }
    }

    fn set_len(&self, _size: u64) -> io::Result<()> {
        count_call(&self.calls.others);
        Ok(())
    }

    fn sync_all(&self) -> io::Result<()> {
        count_call(&self.calls.others);
        Ok(())
    }

    fn sync_data(&self) -> io::Result<()> {
        count_call(&self.calls.synced);
        Ok(())
    }
}

impl<'a, 'c> Files for MemoryFiles<'a, 'c> {
    type File = MemoryFile<'a, 'c>;

    type Dir = OnceReader<'a>;

    fn open_file(&self, how: &OpenOptions, path: &str) -> io::Result<Self::File> {
        let writes = how.asks_write() || how.asks_append();
        if how.asks_read() && !writes {
            count_call(&self.calls.opened);
            return self.readable(path);
        }
        if path.starts_with("destination") && how.asks_create() && how.asks_truncate() {
            count_call(&self.calls.made);
            let wanted = self.wanted.ok_or(io::Error::from_raw_os_error(DENIED))?;
            return Ok(self.file(b"", 0, wanted));
        }
        self.refuse()
    }

    fn open_dir(&self, _path: &str) -> io::Result<Self::Dir> {
        self.refuse()
    }

    fn metadata(&self, path: &str) -> io::Result<Metadata> {
        match self.metadata {
            Some(metadata) if path == "/proc/self/fd/1" => Ok(metadata.clone()?),
            _ => self.refuse(),
        }
    }

    fn symlink_metadata(&self, _path: &str) -> io::Result<Metadata> {
        self.refuse()
    }

    fn copy(&self, _from: &str, _to: &str) -> io::Result<u64> {
        self.refuse()
    }

    fn rename(&self, _from: &str, _to: &str) -> io::Result<()> {
        self.refuse()
    }

    fn remove_file(&self, _path: &str) -> io::Result<()> {
        self.refuse()
    }

    fn create_dir(&self, _path: &str) -> io::Result<()> {
        self.refuse()
    }

    fn remove_dir(&self, _path: &str) -> io::Result<()> {
        self.refuse()
    }

    fn remove_dir_all<B: Allocator>(&self, _alloc: B, _path: &str) -> io::Result<()> {
        self.refuse()
    }
}

//! A run of the program's engine over devices in memory.
use crate::streams::{NEVER, OnceReader, OnceWriter};
use aig_core::{ReadSource, WriteSink};
use aig_tools::{HostFiles, World, serve};
use std::alloc::{AllocError, Global};
use std::rt::Files;

/// How many bytes the devices move in a call, and which call fails, counted from 0.
#[derive(Clone, Copy)]
pub(crate) struct Behaviour {
    pub piece: usize,
    pub failing_read: u64,
    pub failing_write: u64,
}

impl Behaviour {
    /// No call fails.
    pub(crate) fn pieces_of(piece: usize) -> Self {
        Behaviour {
            piece,
            failing_read: NEVER,
            failing_write: NEVER,
        }
    }

    fn reader(self, text: &[u8]) -> OnceReader<'_> {
        OnceReader {
            left: text,
            piece: self.piece,
            failing: self.failing_read,
            calls: 0,
        }
    }

    fn writer(self, alloc: Global) -> OnceWriter {
        OnceWriter::new(alloc, self.piece, self.failing_write)
    }
}

#[derive(Drop)]
pub(crate) struct Outcome {
    pub status: u8,
    pub reads: u64,
    pub output: OnceWriter,
    errors: OnceWriter,
}

impl Outcome {
    pub(crate) fn has_told(&self, status: u8, errors: &str) -> bool {
        self.status == status && self.errors.taken.as_slice() == errors.as_bytes()
    }
}

pub(crate) fn words_of(alloc: Global, line: &str) -> Result<Vec<String>, AllocError> {
    let mut words = Vec::new(alloc);
    for word in line.split(' ') {
        words.push(String::from_str(alloc, word)?)?;
    }
    Ok(words)
}

pub(crate) fn run<T: Files>(
    files: &T,
    alloc: Global,
    line: &str,
    text: &[u8],
    behaviour: Behaviour,
) -> Result<Outcome, AllocError> {
    let words = words_of(alloc, line)?;
    let mut reader = behaviour.reader(text);
    let mut output = behaviour.writer(alloc);
    let mut errors = Behaviour::pieces_of(100).writer(alloc);
    let mut world = World {
        files: HostFiles::new(files),
        input: ReadSource::new(&mut reader),
        output: WriteSink::new(&mut output),
        errors: WriteSink::new(&mut errors),
    };
    let status = serve(alloc, words.as_slice(), false, &mut world);
    drop(world);
    Ok(Outcome {
        status,
        reads: reader.calls,
        output,
        errors,
    })
}

//! The files of the system. Each method makes one call of the system, and notes it with its answer.
ghost use Rattle.std.specs.Prelude.{◌≡◌, ◌<◌, ◌≤◌, [], length, IfOk, is_some, None};
ghost use Rattle.aig_files.specs.Notes.{files_of};

use crate::access::FileAccess;
use crate::reason::Reason;
use aig_io::{DeviceFault, Record};
use std::fs::{Metadata, OpenFile};
use std::io::{Read, Write};
use std::os::unix::fs::MetadataExt;
use std::rt::Files;
use std::{fs, io};

pub(crate) const OPENED: u64 = 0;

pub(crate) const NOT_OPENED: u64 = 1;

pub(crate) const MOVED: u64 = 2;

pub(crate) const ENDED: u64 = 3;

pub(crate) const READ_FAILED: u64 = 4;

pub(crate) const LEFT: u64 = 5;

pub(crate) const MADE: u64 = 6;

pub(crate) const NOT_MADE: u64 = 7;

pub(crate) const WRITE_FAILED: u64 = 8;

pub(crate) const CLOSED: u64 = 9;

pub(crate) const NOT_CLOSED: u64 = 10;

pub(crate) const SYNC_ASKED: u64 = 11;

/// The files of the runtime.
#[derive(Drop)]
pub struct HostFiles<'a, T: Files> {
    files: &'a T,
    file: Option<T::File>,
    syncs: bool,
    why: Option<Reason>,
    log: Record,
    ghost closed: { is_some file ≡ is_some (files_of log.notes).current },
    ghost asked: { syncs ≡ (files_of log.notes).syncs },
}

impl<'a, T: Files> HostFiles<'a, T> {
    /// The files of this runtime, with which nothing was done yet.
    pub fn new(files: &'a T) -> Self
        ensures notes { result.log.notes ≡ [] }
        ensures why { result.why ≡ None }
    {
        HostFiles {
            files,
            file: None,
            syncs: false,
            why: None,
            log: Record::new(),
        }
    }
}

/// Reads from the file that is open.
fn read<F: Read>(file: &mut Option<F>, into: &mut [u8]) -> io::Result<usize>
    ensures within { IfOk result (λ n. n ≤ length into.new) }
    ensures stays { is_some file.new ≡ is_some file.old }
{
    match file {
        Some(file) => file.read(into),
        None => Err(io::Error::from(io::ErrorKind::NotFound)),
    }
}

/// Writes to the file that is open, and answers how many bytes.
fn write<F: Write>(file: &mut Option<F>, bytes: &[u8]) -> io::Result<usize>
    ensures within { IfOk result (λ n. n ≤ length bytes.now) }
    ensures stays { is_some file.new ≡ is_some file.old }
{
    match file {
        Some(file) => file.write(bytes),
        None => Err(io::Error::from(io::ErrorKind::NotFound)),
    }
}

/// Whether the file lies on a disk of this machine. Where the file system has none, the number of
/// its device has no major part, as Linux packs it.
fn is_on_disk(metadata: &Metadata) -> bool {
    metadata.dev() & 0xffff_f000_000f_ff00 != 0
}

/// Where that is asked for, waits until the disk has what was written. Where there is no disk this
/// is done unasked: such a file system may wait and fail only as the file is closed, and std loses
/// the error of that. A pipe or a device keeps nothing, and would refuse this.
fn sync<F: OpenFile>(file: &F, is_asked: bool) -> io::Result<()> {
    let metadata = file.metadata()?;
    if metadata.is_file() && (is_asked || !is_on_disk(&metadata)) {
        file.sync_data()?;
    }
    Ok(())
}

/// Started with its standard input closed, a program gets that one's number for the first file that
/// it opens. Were it kept open at its end, what reads the standard input would read that file.
impl<T: Files> FileAccess for HostFiles<'_, T> {
    ghost files = { λ h. files_of h.log.notes };

    ghost why = { λ h. h.why };

    fn reason(&self) -> Option<Reason> {
        self.why
    }

    fn open(&mut self, name: &str) -> Result<(), DeviceFault> {
        match fs::open(self.files, name) {
            Ok(file) => {
                self.file = Some(file);
                self.why = None;
                self.log.note(&[OPENED], name.as_bytes());
                Ok(())
            }
            Err(error) => {
                self.why = Reason::of_error(&error);
                self.log.note(&[NOT_OPENED], name.as_bytes());
                Err(DeviceFault)
            }
        }
    }

    fn read(&mut self, into: &mut [u8]) -> Result<usize, DeviceFault> {
        match read(&mut self.file, into) {
            Ok(0) => {
                self.file = None;
                self.why = None;
                self.log.note(&[ENDED], &[]);
                Ok(0)
            }
            Ok(count) => {
                self.why = None;
                self.log.note(&[MOVED], &into[..count]);
                Ok(count)
            }
            Err(error) => {
                self.file = None;
                self.why = Reason::of_error(&error);
                self.log.note(&[READ_FAILED], &[]);
                Err(DeviceFault)
            }
        }
    }

    fn leave(&mut self) {
        self.file = None;
        self.why = None;
        self.log.note(&[LEFT], &[]);
    }

    fn create(&mut self, name: &str) -> Result<(), DeviceFault> {
        match fs::create(self.files, name) {
            Ok(file) => {
                self.file = Some(file);
                self.why = None;
                self.log.note(&[MADE], name.as_bytes());
                Ok(())
            }
            Err(error) => {
                self.why = Reason::of_error(&error);
                self.log.note(&[NOT_MADE], name.as_bytes());
                Err(DeviceFault)
            }
        }
    }

    fn write(&mut self, bytes: &[u8]) -> Result<usize, DeviceFault> {
        let count = match write(&mut self.file, bytes) {
            Ok(count) => {
                self.why = None;
                count
            }
            Err(error) => {
                self.why = Reason::of_error(&error);
                0
            }
        };
        // That nothing is taken is a failure too.
        if count == 0 {
            self.file = None;
            self.log.note(&[WRITE_FAILED], &[]);
            return Err(DeviceFault);
        }
        self.log.note(&[MOVED], &bytes[..count]);
        Ok(count)
    }

    fn sync_before_close(&mut self) {
        self.syncs = true;
        self.log.note(&[SYNC_ASKED], &[]);
    }

    fn close(&mut self) -> Result<(), DeviceFault> {
        let kept = match &self.file {
            Some(file) => sync(file, self.syncs),
            None => Ok(()),
        };
        self.file = None;
        match kept {
            Ok(()) => {
                self.why = None;
                self.log.note(&[CLOSED], &[]);
                Ok(())
            }
            Err(error) => {
                self.why = Reason::of_error(&error);
                self.log.note(&[NOT_CLOSED], &[]);
                Err(DeviceFault)
            }
        }
    }
}

//! Files as sinks.
ghost use Rattle.std.specs.Prelude.{◌≡◌, ◌<◌, ◌≤◌, length, IfOk, None, OnErr, true};
ghost use Rattle.aig_io.specs.Devices.{unused};
ghost use Rattle.aig_io.specs.Files.{is_written};
ghost use Rattle.aig_files.specs.Named.{closing, is_open, IsAt, IsShown, let_go, Moved, named};

use crate::access::FileAccess;
use crate::stage::Stage;
use aig_io::{DeviceFault, Record, Sink};
use std::marker::Model;

/// The file with a name as a sink. It is made, or cut to nothing, at the first byte that is sent:
/// where nothing is sent it is left alone. One that cannot be made fails then.
pub struct NamedSink<'a, A: FileAccess> {
    access: &'a mut A,
    name: &'a str,
    stage: Stage,
    failures: Record,
}

impl<'a, A: FileAccess> Model for NamedSink<'a, A> {
    ghost use Rattle.std.specs.Prelude.{true};
    ghost use Rattle.aig_io.specs.Devices.{History};
    ghost use Rattle.aig_io.specs.Notes.{sum_of};
    ghost use Rattle.aig_files.specs.Named.{bytes_at, IsAt, HasCounted, history_at};

    ghost Value = { History };

    ghost view = { λ s.
        history_at s.access.ghost_name s.name.now s.stage (A.files s.access.now) 0 (sum_of s.failures.notes) };

    ghost invariant = { λ s. IsAt true s.name.now s.stage (A.files s.access.now)
        × HasCounted s.stage (bytes_at s.stage (A.files s.access.now)) 0 (sum_of s.failures.notes) };
}

impl<'a, A: FileAccess> NamedSink<'a, A> {
    /// The file with this name, which is not made yet.
    pub fn new(access: &'a mut A, name: &'a str) -> Self
        requires { (A.files access.old).current ≡ None }
        ensures { result ≡
            unused (named access.entry.ghost_name name.now (A.files access.old)) }
    {
        NamedSink {
            access,
            name,
            stage: Stage::Untouched,
            failures: Record::new(),
        }
    }

    /// Closes the file where it is open, and hands the files back. That it cannot be closed is a
    /// failure: something that was written may not be kept then.
    pub fn finish(self) -> (Result<(), DeviceFault>, &'a mut A)
        ensures lender { result.1.ghost_name ≡ self.entry.origin.lender }
        ensures idle { (A.files result.1.now).current ≡ None }
        ensures shown { IsShown true (closing self.entry.origin.before result.0) self.entry
            (A.files result.1.now) }
        ensures err { OnErr result.0 ((self.entry.failures ≡ 0) × (0 < length self.entry.bytes)) }
    {
        let NamedSink {
            access,
            name: _,
            stage,
            failures: _,
        } = self;
        let closed = close(access, stage);
        (closed, access)
    }
}

/// Closes the file where it is open.
fn close<A: FileAccess>(access: &mut A, stage: Stage) -> Result<(), DeviceFault>
    requires { is_open stage ≡ true → is_written (A.files access.old).current ≡ true }
    ensures files { A.files access.new
        ≡ let_go (closing (A.files access.old) result) stage (A.files access.old) }
    ensures err { OnErr result (is_open stage ≡ true) }
{
    match stage {
        Stage::Open => access.close(),
        _ => Ok(()),
    }
}

/// Writes to the file with a name, which is made first where it was not.
fn write_named<A: FileAccess>(
    access: &mut A,
    name: &str,
    stage: Stage,
    bytes: &[u8],
) -> Result<usize, DeviceFault>
    requires some { 0 < length bytes.now }
    requires at { IsAt true name.now stage (A.files access.old) }
    ensures within { IfOk result (λ n. n ≤ length bytes.now) }
    ensures moves { IfOk result (λ n. 0 < n) }
    ensures moved { Moved true name.now bytes.now result stage
        (A.files access.old) (A.files access.new) }
{
    match stage {
        Stage::Untouched => access.create(name)?,
        Stage::Open => {}
        Stage::Ended | Stage::Failed => return Err(DeviceFault),
    }
    access.write(bytes)
}

impl<A: FileAccess> Sink for NamedSink<'_, A> {
    ghost history = { λ s. s };

    fn send(&mut self, bytes: &[u8]) -> Result<usize, DeviceFault> {
        let answer = write_named(self.access, self.name, self.stage, bytes);
        self.stage = Stage::Open;
        if answer.is_err() {
            self.stage = Stage::Failed;
            self.failures.note(&[1], &[]);
        }
        answer
    }
}

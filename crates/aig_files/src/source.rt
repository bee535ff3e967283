//! Files as sources.
ghost use Rattle.std.specs.Prelude.{◌≡◌, ◌+◌, ◌-◌, ◌^◌, ◌<◌, ◌≤◌, false, length, IfOk, None, true};
ghost use Rattle.aig_io.specs.Devices.{unused};
ghost use Rattle.aig_io.specs.Files.{is_read, Left};
ghost use Rattle.aig_files.specs.Named.{bytes_at, is_open, IsAt, IsShown, let_go, Moved, named};

use crate::access::FileAccess;
use crate::stage::Stage;
use aig_io::{DeviceFault, Record, Source};
use std::marker::Model;

/// The file with a name as a source. It is opened at the first fetch; one that cannot be opened
/// fails then. After 2^62 bytes it fails.
pub struct NamedSource<'a, A: FileAccess> {
    access: &'a mut A,
    name: &'a str,
    stage: Stage,
    left: u64,
    failures: Record,
    ends: Record,
}

impl<'a, A: FileAccess> Model for NamedSource<'a, A> {
    ghost use Rattle.std.specs.Prelude.{◌≡◌, ◌+◌, ◌^◌, false, length};
    ghost use Rattle.aig_io.specs.Devices.{History};
    ghost use Rattle.aig_io.specs.Notes.{sum_of};
    ghost use Rattle.aig_files.specs.Named.{bytes_at, IsAt, HasCounted, history_at};

    ghost Value = { History };

    ghost view = { λ s.
        history_at s.access.ghost_name s.name.now s.stage (A.files s.access.now)
        (sum_of s.ends.notes) (sum_of s.failures.notes) };

    ghost invariant = { λ s. IsAt false s.name.now s.stage (A.files s.access.now)
        × HasCounted s.stage (bytes_at s.stage (A.files s.access.now))
        (sum_of s.ends.notes) (sum_of s.failures.notes)
        × (s.left + length (bytes_at s.stage (A.files s.access.now)) ≡ 2 ^ 62) };
}

impl<'a, A: FileAccess> NamedSource<'a, A> {
    /// The file with this name, which is not opened yet.
    pub fn new(access: &'a mut A, name: &'a str) -> Self
        requires { (A.files access.old).current ≡ None }
        ensures { result ≡
            unused (named access.entry.ghost_name name.now (A.files access.old)) }
    {
        NamedSource {
            access,
            name,
            stage: Stage::Untouched,
            left: 1 << 62,
            failures: Record::new(),
            ends: Record::new(),
        }
    }

    /// Closes the file where it is open, and hands the files back.
    pub fn finish(self) -> &'a mut A
        ensures lender { result.ghost_name ≡ self.entry.origin.lender }
        ensures idle { (A.files result.now).current ≡ None }
        ensures shown { IsShown false Left self.entry (A.files result.now) }
    {
        let NamedSource {
            access,
            name: _,
            stage,
            left: _,
            failures: _,
            ends: _,
        } = self;
        leave(access, stage);
        access
    }
}

/// Closes the file where it is open.
fn leave<A: FileAccess>(access: &mut A, stage: Stage)
    requires { is_open stage ≡ true → is_read (A.files access.old).current ≡ true }
    ensures { A.files access.new ≡ let_go Left stage (A.files access.old) }
{
    if let Stage::Open = stage {
        access.leave();
    }
}

/// Reads at most so many bytes from the file with a name, which is opened first where it was not.
fn read_named<A: FileAccess>(
    access: &mut A,
    name: &str,
    stage: Stage,
    left: u64,
    into: &mut [u8],
) -> Result<usize, DeviceFault>
    requires room { 0 < length into.old }
    requires limit { left + length (bytes_at stage (A.files access.old)) ≡ 2 ^ 62 }
    requires at { IsAt false name.now stage (A.files access.old) }
    ensures within { IfOk result (λ n. n ≤ length into.new) }
    ensures limited { IfOk result (λ n. n ≤ left) }
    ensures moved { Moved false name.now into.new result stage
        (A.files access.old) (A.files access.new) }
{
    match stage {
        Stage::Untouched => access.open(name)?,
        Stage::Open => {}
        Stage::Ended => return Ok(0),
        Stage::Failed => return Err(DeviceFault),
    }
    if left == 0 {
        access.leave();
        return Err(DeviceFault);
    }
    let room = left.min(into.len() as u64) as usize;
    access.read(&mut into[..room])
}

impl<A: FileAccess> Source for NamedSource<'_, A> {
    ghost history = { λ s. s };

    ghost bound = { λ s. 2 ^ 62 - length s.bytes };

    fn fetch(&mut self, into: &mut [u8]) -> Result<usize, DeviceFault> {
        match read_named(self.access, self.name, self.stage, self.left, into) {
            Ok(0) => {
                self.stage = Stage::Ended;
                self.ends.note(&[1], &[]);
                Ok(0)
            }
            Ok(count) => {
                self.stage = Stage::Open;
                self.left -= count as u64;
                Ok(count)
            }
            Err(fault) => {
                self.stage = Stage::Failed;
                self.failures.note(&[1], &[]);
                Err(fault)
            }
        }
    }
}

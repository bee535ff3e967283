//! What can be done with files.
ghost use Rattle.std.specs.Prelude.{◌≡◌, ◌<◌, ◌≤◌, length, IfOk, None, OnOk, Option, true};
ghost use Rattle.aig_io.specs.Files.{after_close, after_create, after_open, after_read};
ghost use Rattle.aig_files.specs.declared.reason.Reason.{Reason};
ghost use Rattle.aig_io.specs.Files.{after_write, ended, Files, is_read, is_written, Left, with_sync};

use crate::reason::Reason;
use aig_io::DeviceFault;

/// All that can be done with files: one at a time is opened and read, or made and written.
pub trait FileAccess {
    /// What was done with files so far.
    ghost files: { Self → Files };

    /// Why the last call failed, where the system says that; a call that did not has no reason.
    ghost why: { Self → Option Reason };

    /// Why the last call failed.
    fn reason(&self) -> Option<Reason>
        ensures { result ≡ why self.now };

    /// Opens the file to read it.
    fn open(&mut self, name: &str) -> Result<(), DeviceFault>
        requires { (files self.old).current ≡ None }
        ensures files { files self.new ≡ after_open name.now result (files self.old) }
        ensures reason { OnOk result (why self.new ≡ None) };

    /// Reads from the open file, and answers how many bytes; 0, its end, or a failure closes it.
    fn read(&mut self, into: &mut [u8]) -> Result<usize, DeviceFault>
        requires room { 0 < length into.old }
        requires open { is_read (files self.old).current ≡ true }
        ensures within { IfOk result (λ n. n ≤ length into.new) }
        ensures files { files self.new ≡ after_read into.new result (files self.old) }
        ensures reason { OnOk result (why self.new ≡ None) };

    /// Closes the file that is read, before its end.
    fn leave(&mut self)
        requires { is_read (files self.old).current ≡ true }
        ensures files { files self.new ≡ ended Left (files self.old) }
        ensures reason { why self.new ≡ None };

    /// Makes the file, or cuts it to nothing where there is one.
    fn create(&mut self, name: &str) -> Result<(), DeviceFault>
        requires { (files self.old).current ≡ None }
        ensures files { files self.new ≡ after_create name.now result (files self.old) }
        ensures reason { OnOk result (why self.new ≡ None) };

    /// Writes at least a byte to the file that was made, and answers how many. A failure closes it.
    fn write(&mut self, bytes: &[u8]) -> Result<usize, DeviceFault>
        requires some { 0 < length bytes.now }
        requires open { is_written (files self.old).current ≡ true }
        ensures within { IfOk result (λ n. n ≤ length bytes.now) }
        ensures moves { IfOk result (λ n. 0 < n) }
        ensures files { files self.new ≡ after_write bytes.now result (files self.old) }
        ensures reason { OnOk result (why self.new ≡ None) };

    /// From now on a file that was written is closed only once the disk has it.
    fn sync_before_close(&mut self)
        ensures files { files self.new ≡ with_sync (files self.old) }
        ensures reason { why self.new ≡ why self.old };

    /// Closes the file that was written. An error may only show now, as on a network's file system,
    /// and then not all that was written is kept.
    fn close(&mut self) -> Result<(), DeviceFault>
        requires { is_written (files self.old).current ≡ true }
        ensures files { files self.new ≡ after_close result (files self.old) }
        ensures reason { OnOk result (why self.new ≡ None) };
}

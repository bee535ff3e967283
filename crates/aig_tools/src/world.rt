//! The files and streams of a program, and what is done with those that a request names. No two
//! files are open at once.
ghost use Rattle.std.specs.Prelude.{◌≡◌, ◌<◌, ◌≤◌, IfErr, IfOk, length, None, Some};
ghost use Rattle.aig_io.specs.Devices.{History};
ghost use Rattle.aig_command.specs.Answer.{name_of};
ghost use Rattle.aig_fault.specs.declared.stopped.Stopped.TheVariants.{WriteFailed};
ghost use Rattle.aig_commands.specs.Jobs.{CanDo, CanRead, Makes, Refuses, text_of};
ghost use Rattle.aig_commands.specs.Reading.{ReadSays};
ghost use Rattle.aig_tools.specs.Ends.{Concludes, done_status, IsReportedIn};
ghost use Rattle.aig_tools.specs.Lines.{refusal_line};
ghost use Rattle.aig_tools.specs.SimulationOutcome.{TaskSays};
ghost use Rattle.aig_tools.specs.Worlds.{IsIdle, ReadIn, SentIn, TakesAs, TransferredBetween};
ghost use Rattle.aig_tools.specs.Worlds.{world};

use crate::reporting::{report_refusal, report_stop};
use crate::simulation::perform;
use aig_command::Names;
use aig_commands::{Answer, Job, Part, Reading, Refusal, Stopped, Task};
use aig_core::{Checked, Sink, Source};
use aig_files::{FileAccess, NamedSink, NamedSource};
use aig_lasso::LassoVerdict;
use aig_verdicts::WitnessVerdict;
use aig_witness::Verdict;
use std::alloc::Global;
use std::marker::Model;

/// Done as asked.
pub(crate) const DONE: u8 = 0;

/// Refused input, a witness that is not confirmed, a device that failed, or out of memory.
pub(crate) const FAILED: u8 = 1;

/// The files and the three streams of a program.
#[derive(Drop)]
pub struct World<A: FileAccess, R: Source, W: Sink, E: Sink> {
    pub files: A,
    pub input: R,
    pub output: W,
    pub errors: E,
}

impl<A: FileAccess, R: Source, W: Sink, E: Sink> Model for World<A, R, W, E> {
    ghost use Rattle.aig_tools.specs.Worlds.{World, world};

    ghost Value = { World };

    ghost view = { λ w.
        world (A.files w.files) (A.why w.files) (R.history w.input) (W.history w.output)
        (E.history w.errors) };
}

/// Answers the steps of this model that the file of this name has, which is opened at the first
/// fetch.
fn answer_named<A: FileAccess, W: Sink>(
    alloc: Global,
    files: &mut A,
    name: &str,
    task: Task,
    model: Checked,
    output: &mut W,
) -> Result<Option<WitnessVerdict>, Stopped>
    requires idle { (A.files files.old).current ≡ None }
    ensures idle { (A.files files.new).current ≡ None }
    ensures transferred { (input errors : History)
        → TransferredBetween (TaskSays task model result) (Some name.now) None
        (world (A.files files.old) (A.why files.old) input (W.history output.old) errors)
        (world (A.files files.new) (A.why files.new) input (W.history output.new) errors) }
{
    let mut file = NamedSource::new(files, name);
    let done = perform(alloc, task, model, &mut file, output);
    file.finish();
    done
}

/// The status where what was asked for is done. That a witness is not confirmed is an answer, but
/// no success.
fn done_status(verdict: Option<WitnessVerdict>) -> u8
    ensures { result ≡ done_status verdict }
{
    match verdict {
        None => DONE,
        Some(WitnessVerdict::BadState(Verdict::Confirmed(_))) => DONE,
        Some(WitnessVerdict::Justice(LassoVerdict::Confirmed(_))) => DONE,
        Some(_) => FAILED,
    }
}

impl<A: FileAccess, R: Source, W: Sink, E: Sink> World<A, R, W, E> {
    /// Reads what is read next, from the source of this name.
    // Not built into its caller, whose stack would then hold the window of a source while it writes.
    #[inline(never)]
    pub(crate) fn read(
        &mut self,
        alloc: Global,
        name: &Option<String>,
        reading: Reading,
    ) -> Result<Job, Stopped>
        requires ready { IsIdle self.old }
        requires can_read { CanRead reading }
        ensures idle { self.new.files.current ≡ None }
        ensures errors { self.new.errors ≡ self.old.errors }
        ensures read { ReadIn
            (ReadSays (λ next bytes. Makes reading bytes next) (Refuses reading) result)
            (name_of name.now) self.old self.new }
        ensures can_do { IfOk result CanDo }
    {
        match name {
            Some(name) => {
                let mut file = NamedSource::new(&mut self.files, name.as_str());
                let next = reading.read(alloc, &mut file);
                file.finish();
                next
            }
            None => reading.read(alloc, &mut self.input),
        }
    }

    /// Answers the steps of this model that the source of this name has, as they come.
    pub(crate) fn answer_steps(
        &mut self,
        alloc: Global,
        name: &Option<String>,
        task: Task,
        model: Checked,
    ) -> Result<Option<WitnessVerdict>, Stopped>
        requires { IsIdle self.old }
        ensures idle { self.new.files.current ≡ None }
        ensures errors { self.new.errors ≡ self.old.errors }
        ensures transferred { TransferredBetween (TaskSays task model result) (name_of name.now)
            None
            self.old self.new }
    {
        match name {
            Some(name) => answer_named(
                alloc,
                &mut self.files,
                name.as_str(),
                task,
                model,
                &mut self.output,
            ),
            None => perform(alloc, task, model, &mut self.input, &mut self.output),
        }
    }

    /// Writes an answer to the destination of this name, which is made for the first byte.
    pub(crate) fn write(&mut self, name: &Option<String>, answer: Answer) -> Result<(), Stopped>
        requires ready { IsIdle self.old }
        requires some { 0 < length (text_of answer) }
        ensures idle { self.new.files.current ≡ None }
        ensures errors { self.new.errors ≡ self.old.errors }
        ensures sent { SentIn (λ text delivery. (text ≡ text_of answer) × TakesAs result delivery)
            (name_of name.now) self.old self.new }
        ensures stopped { IfErr result (λ stopped. stopped ≡ WriteFailed) }
    {
        match name {
            Some(name) => {
                let mut file = NamedSink::new(&mut self.files, name.as_str());
                let sent = answer.write(&mut file);
                let (closed, _files) = file.finish();
                sent?;
                // What a disk did not keep may show only now.
                Ok(closed?)
            }
            None => answer.write(&mut self.output),
        }
    }

    /// Answers the status where this came of a job, and reports why it stopped.
    pub(crate) fn conclude(
        &mut self,
        names: &Names,
        part: Part,
        done: Result<Option<WitnessVerdict>, Stopped>,
    ) -> u8
        requires idle { self.old.files.current ≡ None }
        ensures idle { self.new.files.current ≡ None }
        ensures concludes { Concludes names.now part done self.old self.new result }
        ensures status { result ≤ 1 }
    {
        match done {
            Ok(verdict) => done_status(verdict),
            Err(stopped) => {
                let why = self.files.reason();
                report_stop(&mut self.errors, names, part, &stopped, why);
                FAILED
            }
        }
    }

    /// Reports what the model has not, and answers the status.
    pub(crate) fn refuse(&mut self, names: &Names, refusal: Refusal) -> u8
        requires idle { self.old.files.current ≡ None }
        ensures idle { self.new.files.current ≡ None }
        ensures reported { IsReportedIn (refusal_line names.now refusal) self.old self.new }
        ensures status { result ≡ 1 }
    {
        report_refusal(&mut self.errors, names, refusal);
        FAILED
    }
}

//! What the program does with its arguments.
ghost use Rattle.std.specs.Prelude.{◌≡◌, ◌≤◌, None};
ghost use Rattle.aig_command.specs.Answer.{texts};
ghost use Rattle.aig_commands.specs.Jobs.{CanDo};
ghost use Rattle.aig_tools.specs.Ends.{Ends, ProgramEnds, status_of, with_sync_if};
ghost use Rattle.aig_tools.specs.Lines.{IsReported, memory_line, name_at, usage_text, words_line};
ghost use Rattle.aig_tools.specs.SimulationOutcome.{without_verdict};
ghost use Rattle.aig_tools.specs.Worlds.{IsIdle};

use crate::reporting::{name_at, report_memory, report_usage, report_words};
use crate::simulation::without_verdict;
use crate::world::{FAILED, World};
use aig_command::{CommandLine, Names, Usage, command};
use aig_commands::{Job, Part};
use aig_core::{Sink, Source};
use aig_files::FileAccess;
use std::alloc::Global;

/// Refused arguments.
const REFUSED: u8 = 2;

/// Does a job to its end over the files of these names, and answers the status.
// Not built into its caller, on whose stack its blocks would stand too. Nor are others below.
#[inline(never)]
#[tactic(auto, using(aig_commands::proofs::Fewer::fewer))]
pub fn run<A: FileAccess, R: Source, W: Sink, E: Sink>(
    alloc: Global,
    names: &Names,
    job: Job,
    world: &mut World<A, R, W, E>,
) -> u8
    requires ready { IsIdle world.old }
    requires can_do { CanDo job }
    ensures idle { world.new.files.current ≡ None }
    ensures ends { Ends names.now job world.old world.new result }
    ensures status { result ≤ 1 }
{
    let mut job = job;
    loop {
        match job {
            Job::Read(reading) => {
                let part = reading.source();
                match world.read(alloc, name_at(names, part), reading) {
                    Ok(next) => job = next,
                    Err(stopped) => return world.conclude(names, part, Err(stopped)),
                }
            }
            Job::Steps { task, model } => {
                let done = world.answer_steps(alloc, &names.file, task, model);
                return world.conclude(names, Part::File, done);
            }
            Job::Write(answer) => {
                let sent = world.write(&names.destination, answer);
                return world.conclude(names, Part::Model, without_verdict(sent));
            }
            Job::Refuse(refusal) => return world.refuse(names, refusal),
        }
    }
}

/// Reports why arguments are refused, and answers the status.
#[inline(never)]
fn refuse<E: Sink>(errors: &mut E, usage: &Usage) -> u8
    ensures status { result ≡ status_of usage.now }
    ensures reported { IsReported (usage_text usage.now) (E.history errors.old)
        (E.history errors.new) }
{
    report_usage(errors, usage);
    match usage {
        Usage::OutOfMemory => FAILED,
        _ => REFUSED,
    }
}

/// What is written from now on is synced, if that is asked for.
fn ask_for_sync<A: FileAccess, R: Source, W: Sink, E: Sink>(
    world: &mut World<A, R, W, E>,
    is_asked: bool,
)
    requires { IsIdle world.old }
    ensures idle { IsIdle world.new }
    ensures asked { world.new ≡ with_sync_if is_asked world.old }
{
    if is_asked {
        world.files.sync_before_close();
    }
}

/// Does what the arguments ask for, the program's name first, over the three streams and the files
/// that they name, and answers the status: 0 done; 1 refused input, a witness that is not
/// confirmed, a device that failed or out of memory; 2 refused words, also for binary that would go
/// to a terminal. An error is reported on the stream for errors; whether that takes it changes
/// nothing.
pub fn serve<A: FileAccess, R: Source, W: Sink, E: Sink>(
    alloc: Global,
    words: &[String],
    to_terminal: bool,
    world: &mut World<A, R, W, E>,
) -> u8
    requires { IsIdle world.old }
    ensures idle { world.new.files.current ≡ None }
    ensures ends { ProgramEnds (texts words.now) to_terminal world.old world.new result }
    ensures status { result ≤ 2 }
{
    match command(alloc, words) {
        Ok(line) => {
            if to_terminal && line.is_binary_stream() {
                let status = refuse(&mut world.errors, &Usage::BinaryToTerminal);
                drop(line); // for the proof
                return status;
            }
            let CommandLine {
                command,
                names,
                sync,
                force: _,
            } = line;
            ask_for_sync(world, sync);
            run(alloc, &names, Job::of_command(command), world)
        }
        Err(usage) => {
            let status = refuse(&mut world.errors, &usage);
            drop(usage); // for the proof
            status
        }
    }
}

/// Reports that an argument is no text, and answers the status.
#[inline(never)]
pub fn refuse_words<E: Sink>(errors: &mut E) -> u8
    ensures status { result ≡ 2 }
    ensures reported { IsReported words_line (E.history errors.old) (E.history errors.new) }
{
    report_words(errors);
    REFUSED
}

/// Reports that memory ran out before the arguments were there, and answers the status.
#[inline(never)]
pub fn refuse_for_memory<E: Sink>(errors: &mut E) -> u8
    ensures status { result ≡ 1 }
    ensures reported { IsReported memory_line (E.history errors.old) (E.history errors.new) }
{
    report_memory(errors);
    FAILED
}

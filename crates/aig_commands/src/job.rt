//! Jobs: what a command asks for, source after source, each with what is still to be done.
ghost use Rattle.std.specs.Prelude.{◌≡◌, ℕ, List, IfOk};
ghost use Rattle.aig_command.specs.Answer.{CanDo as CanAsk, IsCommand};
ghost use Rattle.aig_command.specs.declared.request.Names.{Names as NamesRecord};
ghost use Rattle.aig_io.specs.Runs.{Read};
ghost use Rattle.aig_commands.specs.Jobs.{CanDo, CanRead, job_of, Makes, read_for};
ghost use Rattle.aig_commands.specs.Jobs.{Refuses, source_of};
ghost use Rattle.aig_commands.specs.Reading.{ReadSays};

use crate::answer::Answer;
use crate::comparing::{read_first, read_second};
use crate::conversion::read_conversion;
use crate::counting::read_info;
use crate::drawing::read_drawing;
use crate::proving::{read_clauses, read_never, read_proving_model, read_strengthened};
use crate::reaching::{read_selected, read_solved};
use crate::refusal::Refusal;
use crate::selecting::read_selection;
use crate::task::{Task, task_of};
use crate::unrolling::read_unrolling;
use aig_binary::read_source;
use aig_command::{Command, Info, Invariant, Miter, Reach, Select, Sim, ToAig, ToDot, Unroll};
use aig_core::{Checked, Keep, Source};
use aig_fault::Stopped;
use std::alloc::Global;

/// One of the sources of a job.
#[derive(Clone, Copy)]
pub enum Part {
    /// The model, the source of a conversion, or the first of two circuits.
    Model,
    /// What is read after it: steps, a witness file, what a solver wrote, an invariant, or the second
    /// circuit.
    File,
    /// The refutation of the clauses in which an invariant is to be shown.
    Refutation,
}

/// A source is read next, to its end.
#[derive(Drop)]
pub enum Reading {
    /// A circuit, which is converted.
    ToAig(ToAig),
    /// A circuit, which is unrolled.
    Unroll(Unroll),
    /// A model, and then what a solver wrote on its clauses.
    Reach(Reach),
    /// What a solver wrote on the clauses of this circuit.
    Solved {
        request: Reach,
        selected: Checked,
    },
    /// A model, and then an invariant of it.
    Invariant(Invariant),
    /// An invariant of this circuit, whose clauses are written.
    Clauses {
        request: Invariant,
        selected: Checked,
    },
    /// An invariant of this circuit, and then a refutation of its clauses.
    Strengthen {
        request: Invariant,
        selected: Checked,
    },
    /// A refutation of the clauses of this circuit, in which an invariant is to be shown.
    Never {
        request: Invariant,
        strengthened: Checked,
    },
    /// The first of two circuits, and then the second.
    First(Miter),
    /// The second circuit, of which and of this one a miter is made.
    Second {
        request: Miter,
        first: Checked,
    },
    /// A model, and then the steps of a stimulus or of a witness file.
    Sim(Sim),
    /// A circuit, of which this is counted.
    Info(Info),
    /// A circuit, of which this is selected.
    Select(Select),
    /// A circuit, of which this is drawn.
    ToDot(ToDot),
}

/// What is still to be done.
#[derive(Drop)]
pub enum Job {
    /// A source is read.
    Read(Reading),
    /// The steps of this model are read, and answered.
    Steps { task: Task, model: Checked },
    /// An answer is written.
    Write(Answer),
    /// Nothing is done, since what was read has not what the arguments speak of.
    Refuse(Refusal),
}

impl Job {
    /// The job that a command is.
    pub fn of_command(command: Command) -> Job
        ensures is { result ≡ job_of command }
        ensures can_do { (words : List (List ℕ)) (names : NamesRecord)
            → IsCommand words names command
            → CanAsk names command → CanDo result }
    {
        match command {
            Command::ToAig(request) => Job::Read(Reading::ToAig(request)),
            Command::Sim(request) => Job::Read(Reading::Sim(request)),
            Command::Unroll(request) => Job::Read(Reading::Unroll(request)),
            Command::Reach(request) => Job::Read(Reading::Reach(request)),
            Command::Invariant(request) => Job::Read(Reading::Invariant(request)),
            Command::Miter(request) => Job::Read(Reading::First(request)),
            Command::Info(request) => Job::Read(Reading::Info(request)),
            Command::Select(request) => Job::Read(Reading::Select(request)),
            Command::ToDot(request) => Job::Read(Reading::ToDot(request)),
            Command::Help(text) | Command::Version(text) => Job::Write(Answer::Text(text)),
        }
    }
}

/// What an invariant of this circuit is read for.
fn read_for(request: Invariant, selected: Checked) -> Reading
    ensures is { result ≡ read_for request.refuted request selected }
    ensures can_read { CanRead result }
{
    if request.refuted {
        Reading::Strengthen { request, selected }
    } else {
        Reading::Clauses { request, selected }
    }
}

impl Reading {
    /// The source that is read.
    pub fn source(&self) -> Part
        ensures { result ≡ source_of self.now }
    {
        match self {
            Reading::ToAig(_) | Reading::Unroll(_) | Reading::Reach(_) => Part::Model,
            Reading::Invariant(_) | Reading::First(_) | Reading::Sim(_) => Part::Model,
            Reading::Info(_) | Reading::Select(_) | Reading::ToDot(_) => Part::Model,
            Reading::Solved { .. } | Reading::Clauses { .. } => Part::File,
            Reading::Strengthen { .. } | Reading::Second { .. } => Part::File,
            Reading::Never { .. } => Part::Refutation,
        }
    }

    /// Reads it, and answers what is to be done then. Of what a solver wrote no more is read than
    /// is needed to refuse it.
    pub fn read<R: Source>(self, alloc: Global, source: &mut R) -> Result<Job, Stopped>
        requires can_read { CanRead self }
        ensures read { Read (ReadSays (λ next bytes. Makes self bytes next) (Refuses self) result)
            (R.history source.old) (R.history source.new) }
        ensures can_do { IfOk result CanDo }
    {
        match self {
            Reading::ToAig(request) => {
                let answer = read_conversion(alloc, &request, source)?;
                Ok(Job::Write(answer))
            }
            Reading::Unroll(request) => {
                let answer = read_unrolling(alloc, &request, source)?;
                Ok(Job::Write(answer))
            }
            Reading::Reach(request) => {
                let selected = read_selected(alloc, &request, source)?;
                Ok(Job::Read(Reading::Solved { request, selected }))
            }
            Reading::Solved { request, selected } => {
                let answer = read_solved(alloc, &request, selected, source)?;
                Ok(Job::Write(answer))
            }
            Reading::Invariant(request) => {
                let selected = read_proving_model(alloc, &request, source)?;
                Ok(Job::Read(read_for(request, selected)))
            }
            Reading::Clauses { request, selected } => {
                let answer = read_clauses(alloc, &request, selected, source)?;
                Ok(Job::Write(answer))
            }
            Reading::Strengthen { request, selected } => {
                let strengthened = read_strengthened(alloc, selected, source)?;
                Ok(Job::Read(Reading::Never {
                    request,
                    strengthened,
                }))
            }
            Reading::Never {
                request,
                strengthened,
            } => {
                read_never(alloc, &request, strengthened, source)?;
                Ok(Job::Write(Answer::Never))
            }
            Reading::First(request) => {
                let first = read_first(alloc, &request, source)?;
                Ok(Job::Read(Reading::Second { request, first }))
            }
            Reading::Second { request, first } => {
                let answer = read_second(alloc, &request, first, source)?;
                Ok(Job::Write(answer))
            }
            Reading::Sim(request) => {
                let model = read_source(alloc, source, request.max_var, Keep::Order)?;
                Ok(Job::Steps {
                    task: task_of(&request),
                    model,
                })
            }
            Reading::Info(request) => {
                let answer = read_info(alloc, &request, source)?;
                Ok(Job::Write(answer))
            }
            Reading::Select(request) => read_selection(alloc, &request, source),
            Reading::ToDot(request) => read_drawing(alloc, &request, source),
        }
    }
}

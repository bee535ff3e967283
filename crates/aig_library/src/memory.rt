//! Jobs in memory.
ghost use Rattle.std.specs.Prelude.{◌≡◌, ⊤, Err, IfErr, IfOk, Ok};
ghost use Rattle.aig_commands.specs.Jobs.{CanDo, CanRead, Makes, Refuses, text_of};
ghost use Rattle.aig_io.specs.Runs.{AtEnd};
ghost use Rattle.aig_library.specs.Memory.{Comes, HasNoSteps, input_at};
ghost use Rattle.aig_library.specs.Outcome.{StopsInMemory};

use aig_commands::{Answer, Job, Part, Reading, Stopped};
use aig_core::{SliceSource, VecSink};
use std::alloc::Global;

/// The bytes of each source.
#[derive(Drop)]
pub(crate) struct Inputs<'a> {
    pub model: &'a [u8],
    pub file: &'a [u8],
    pub refutation: &'a [u8],
}

impl<'a> Inputs<'a> {
    /// The bytes of this source.
    fn at(&self, part: Part) -> &'a [u8]
        ensures { result.now ≡ input_at self.now part }
    {
        match part {
            Part::Model => self.model,
            Part::File => self.file,
            Part::Refutation => self.refutation,
        }
    }
}

/// What is to be done once these bytes are read.
pub(crate) fn read_bytes(alloc: Global, bytes: &[u8], reading: Reading) -> Result<Job, Stopped>
    requires { CanRead reading }
    ensures made { IfOk result (Makes reading bytes.now) }
    ensures can_do { IfOk result CanDo }
    ensures err { IfErr result (StopsInMemory (λ fault. Refuses reading fault bytes.now AtEnd)) }
{
    let mut source = SliceSource::new(bytes)?;
    let read = reading.read(alloc, &mut source);
    source.gives_its_bytes();
    read
}

/// The text of an answer.
fn answer_text(alloc: Global, answer: Answer) -> Result<Vec<u8>, Stopped>
    ensures ok { IfOk result (λ text. text.items ≡ text_of answer) }
    ensures err { IfErr result (StopsInMemory (λ _. ⊥)) }
{
    let mut sink = VecSink::new(alloc);
    answer.write(&mut sink)?;
    Ok(sink.into_vec())
}

/// Does a job to its end, and answers its text.
pub(crate) fn run_in_memory(alloc: Global, inputs: &Inputs, job: Job) -> Result<Vec<u8>, Stopped>
    requires can_do { CanDo job }
    requires no_steps { HasNoSteps job }
    ensures ok { IfOk result (λ text. Comes inputs.now job (Ok text.items)) }
    ensures err { IfErr result (StopsInMemory (λ fault. Comes inputs.now job (Err fault))) }
{
    let mut job = job;
    loop {
        match job {
            Job::Read(reading) => job = read_bytes(alloc, inputs.at(reading.source()), reading)?,
            Job::Steps { .. } | Job::Refuse(_) => unreachable!(),
            Job::Write(answer) => return answer_text(alloc, answer),
        }
    }
}

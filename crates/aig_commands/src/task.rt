//! What is asked of a simulation.
ghost use Rattle.std.specs.Prelude.{◌≡◌};
ghost use Rattle.aig_commands.specs.Simulation.{columns_of, task_of};

use aig_command::Sim;
use aig_step::Columns;

/// What is written for a model and a stimulus, or a witness file in its place.
#[derive(Clone, Copy)]
pub enum Task {
    /// The trace of the stimulus, step by step or as a batch.
    Trace { batch: bool, columns: Columns },
    /// The dump of that trace.
    Dump { batch: bool },
    /// The verdict on a witness file, in a line.
    Verdict,
    /// The verdict, and the dump of the run that the witness file claims.
    RunDump,
}

/// The columns that the request asks for.
fn columns(request: &Sim) -> Columns
    ensures { result ≡ columns_of request.now }
{
    if request.properties {
        Columns::Properties
    } else {
        Columns::Plain
    }
}

/// What the request asks for.
pub fn task_of(request: &Sim) -> Task
    ensures { result ≡ task_of request.now }
{
    match (request.witness, request.vcd) {
        (true, true) => Task::RunDump,
        (true, false) => Task::Verdict,
        (false, true) => Task::Dump {
            batch: request.batch,
        },
        (false, false) => Task::Trace {
            batch: request.batch,
            columns: columns(request),
        },
    }
}

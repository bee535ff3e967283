//! The text of a picture, written to a sink.
ghost use Rattle.std.specs.Prelude.{◌≡◌, OnErr, OnOk};
ghost use Rattle.aig_io.specs.Devices.{TookBeginning, took};
ghost use Rattle.aig_io.specs.Output.{Appended};
ghost use Rattle.aig_dot.specs.Dot.{dot_text};

use crate::entries::put_variables;
use crate::picture::{Picture, reach_of};
use crate::shown::put_subject;
use aig_circuit::Circuit;
use aig_io::{DeviceFault, Output, Sink};

fn put_picture<W: Sink>(output: &mut Output<W>, picture: &Picture, circuit: &Circuit)
    ensures { Appended output.old output.new (dot_text picture.now circuit.now) }
{
    output.put(b"digraph aiger {\n");
    put_variables(
        output,
        &picture.variables,
        reach_of(&picture.subject),
        circuit,
    );
    put_subject(output, circuit, &picture.subject);
    output.put(b"}\n");
}

/// Writes a picture of a circuit. It fails only where the sink fails, which then took a beginning
/// of the text.
pub fn write_dot<W: Sink>(
    picture: &Picture,
    circuit: &Circuit,
    sink: &mut W,
) -> Result<(), DeviceFault>
    ensures ok { OnOk result (W.history sink.new
        ≡ took (dot_text picture.now circuit.now) (W.history sink.old)) }
    ensures err { OnErr result (TookBeginning (dot_text picture.now circuit.now)
        (W.history sink.old) (W.history sink.new)) }
{
    let mut output = Output::new(sink);
    put_picture(&mut output, picture, circuit);
    let (sent, _sink) = output.finish();
    sent?;
    Ok(())
}

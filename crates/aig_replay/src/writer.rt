//! A witness, put on its way to a sink.
ghost use Rattle.std.specs.Prelude.{◌≡◌, ◌++◌, List, codes};
ghost use Rattle.std.specs.List.{flat_map};
ghost use Rattle.aig_circuit.specs.declared.value.Val.{Val as Value};
ghost use Rattle.aig_io.specs.Output.{Appended};
ghost use Rattle.aig_step.specs.TraceText.{values_text};
ghost use Rattle.aig_witness.specs.Witness.{Claim};
ghost use Rattle.aig_replay.specs.Finding.{SaysSteps};
ghost use Rattle.aig_replay.specs.WitnessLines.{step_line, witness_text};

use aig_core::{Output, Sink};

/// Steps that are held as characters, so many of so many inputs.
#[derive(Clone, Copy)]
pub struct HeldSteps<'a> {
    pub inputs: usize,
    pub count: usize,
    pub characters: &'a [u8],
}

/// Puts characters and a line feed.
pub fn put_line<W: Sink>(output: &mut Output<W>, text: &[u8])
    ensures { Appended output.old output.new (text.now ++ codes "\n") }
{
    output.put(text);
    output.put(b"\n");
}

fn put_steps<W: Sink>(output: &mut Output<W>, inputs: usize, count: usize, steps: &[u8])
    ensures { (vectors : List (List Value)) → SaysSteps inputs count steps.now vectors
        → Appended output.old output.new (flat_map step_line vectors) }
{
    let mut rest = steps;
    for step in 0..count {
        if rest.len() < inputs {
            return;
        }
        let (text, more) = rest.split_at(inputs);
        rest = more;
        put_line(output, text);
    }
}

/// Puts the witness that a bad state is reached from this first state by so many steps.
pub fn put_witness<W: Sink>(
    output: &mut Output<W>,
    property: usize,
    first: &[u8],
    inputs: usize,
    count: usize,
    steps: &[u8],
)
    ensures { (claim : Claim) → claim.property ≡ property → first.now ≡ values_text claim.first
        → SaysSteps inputs count steps.now claim.steps
        → Appended output.old output.new (witness_text claim) }
{
    output.put(b"1\nb");
    output.put_number(property as u64);
    output.put(b"\n");
    put_line(output, first);
    put_steps(output, inputs, count, steps);
    output.put(b".\n");
}

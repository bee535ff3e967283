//! The parts of a picture, each put on its way to a sink.
ghost use Rattle.std.specs.Prelude.{◌≡◌};
ghost use Rattle.std.specs.List.{enumerate_from, flat_map};
ghost use Rattle.std.specs.FinSet as set;
ghost use Rattle.aig_circuit.specs.Literal.{literal_of};
ghost use Rattle.aig_io.specs.Output.{Appended};
ghost use Rattle.aig_dot.specs.Dot.{statements_text};
ghost use Rattle.aig_dot.specs.Graph.{constant_part, gate_part, input_part, latch_part};
ghost use Rattle.aig_dot.specs.Graph.{next_part, variable_part};

use crate::graph::{Node, Shape, put_arrow, put_closing, put_opening};
use crate::label::{put_name, put_reset};
use aig_circuit::{Circuit, Gate, Kind, Latch, Symbols, Var};
use aig_cone::Reach;
use aig_io::{Output, Sink};
use aig_tables::VarSet;

fn put_constant<W: Sink>(output: &mut Output<W>, shown: &VarSet)
    ensures { Appended output.old output.new
        (statements_text (constant_part (set.contains shown.now))) }
{
    if !shown.contains(Var(0)) {
        return;
    }
    put_opening(output, &Node::Variable(Var(0)), Shape::Constant);
    output.put(b"0");
    put_closing(output);
}

fn put_input<W: Sink>(
    output: &mut Output<W>,
    shown: &VarSet,
    symbols: &Symbols,
    position: usize,
    input: Var,
)
    ensures { Appended output.old output.new
        (statements_text (input_part (set.contains shown.now) symbols.now (position, input))) }
{
    if !shown.contains(input) {
        return;
    }
    put_opening(output, &Node::Variable(input), Shape::Input);
    put_name(output, symbols, Kind::Input, position);
    put_closing(output);
}

fn put_inputs<W: Sink>(output: &mut Output<W>, shown: &VarSet, circuit: &Circuit)
    ensures { Appended output.old output.new (statements_text
        (flat_map (input_part (set.contains shown.now) circuit.now.symbols)
        (enumerate_from 0 circuit.now.inputs))) }
{
    let inputs = circuit.inputs.as_slice();
    for at in 0..inputs.len() {
        put_input(output, shown, &circuit.symbols, at, inputs[at]);
    }
}

/// Puts the arrow from a latch's next state, over all steps.
fn put_next<W: Sink>(output: &mut Output<W>, reach: Reach, latch: &Latch)
    ensures { Appended output.old output.new (statements_text (next_part reach latch.now)) }
{
    match reach {
        Reach::OneStep => {}
        Reach::AllSteps => put_arrow(output, latch.next, &Node::Variable(latch.var), true),
    }
}

fn put_latch<W: Sink>(
    output: &mut Output<W>,
    shown: &VarSet,
    reach: Reach,
    symbols: &Symbols,
    position: usize,
    latch: &Latch,
)
    ensures { Appended output.old output.new (statements_text
        (latch_part (set.contains shown.now) reach symbols.now (position, latch.now))) }
{
    if !shown.contains(latch.var) {
        return;
    }
    put_opening(output, &Node::Variable(latch.var), Shape::Latch);
    put_name(output, symbols, Kind::Latch, position);
    put_reset(output, latch.reset);
    put_closing(output);
    put_next(output, reach, latch);
}

fn put_latches<W: Sink>(output: &mut Output<W>, shown: &VarSet, reach: Reach, circuit: &Circuit)
    ensures { Appended output.old output.new (statements_text
        (flat_map (latch_part (set.contains shown.now) reach circuit.now.symbols)
        (enumerate_from 0 circuit.now.latches))) }
{
    let latches = circuit.latches.as_slice();
    for at in 0..latches.len() {
        put_latch(output, shown, reach, &circuit.symbols, at, &latches[at]);
    }
}

/// The number of the literal of a variable.
fn literal_number(variable: Var) -> u64
    ensures { result ≡ literal_of variable }
{
    2 * u64::from(variable.0)
}

fn put_gate<W: Sink>(output: &mut Output<W>, shown: &VarSet, gate: &Gate)
    ensures { Appended output.old output.new
        (statements_text (gate_part (set.contains shown.now) gate.now)) }
{
    if !shown.contains(gate.var) {
        return;
    }
    let node = Node::Variable(gate.var);
    put_opening(output, &node, Shape::Gate);
    output.put_number(literal_number(gate.var));
    put_closing(output);
    put_arrow(output, gate.left, &node, false);
    put_arrow(output, gate.right, &node, false);
}

fn put_gates<W: Sink>(output: &mut Output<W>, shown: &VarSet, gates: &[Gate])
    ensures { Appended output.old output.new
        (statements_text (flat_map (gate_part (set.contains shown.now)) gates.now)) }
{
    for gate in gates {
        put_gate(output, shown, gate);
    }
}

/// Puts what has variables: the constant, inputs, latches and gates, as far as they are shown.
pub(crate) fn put_variables<W: Sink>(
    output: &mut Output<W>,
    shown: &VarSet,
    reach: Reach,
    circuit: &Circuit,
)
    ensures { Appended output.old output.new
        (statements_text (variable_part (set.contains shown.now) reach circuit.now)) }
{
    put_constant(output, shown);
    put_inputs(output, shown, circuit);
    put_latches(output, shown, reach, circuit);
    put_gates(output, shown, circuit.gates.as_slice());
}

//! What a circuit shows, put on its way to a sink.
ghost use Rattle.std.specs.Prelude.{map};
ghost use Rattle.aig_io.specs.Output.{Appended};
ghost use Rattle.aig_dot.specs.Dot.{statements_text};
ghost use Rattle.aig_dot.specs.Graph.{kind_part, shown_part, subject_part, use_of};

use crate::graph::{Node, Shape, put_arrow, put_closing, put_opening};
use crate::label::put_name;
use crate::roots::literals_at;
use crate::subject::{Subject, count_of};
use aig_circuit::{Circuit, Kind, Lit};
use aig_io::{Output, Sink};

/// Puts an arrow from each of these literals.
fn put_uses<W: Sink>(output: &mut Output<W>, to: &Node, literals: &[Lit])
    ensures { Appended output.old output.new
        (statements_text (map (use_of to.now) literals.now)) }
{
    for literal in literals {
        put_arrow(output, *literal, to, false);
    }
}

/// Puts what stands at a position among its kind.
fn put_shown<W: Sink>(output: &mut Output<W>, circuit: &Circuit, kind: Kind, position: usize)
    ensures { Appended output.old output.new
        (statements_text (shown_part circuit.now kind position)) }
{
    let node = Node::Shown(kind, position);
    put_opening(output, &node, Shape::Shown);
    put_name(output, &circuit.symbols, kind, position);
    put_closing(output);
    put_uses(output, &node, literals_at(circuit, kind, position));
}

/// Puts all of its kind.
fn put_kind<W: Sink>(output: &mut Output<W>, circuit: &Circuit, kind: Kind)
    ensures { Appended output.old output.new (statements_text (kind_part circuit.now kind)) }
{
    for position in 0..count_of(circuit, kind) {
        put_shown(output, circuit, kind, position);
    }
}

/// Puts what a picture of this shows, beside the variables.
pub(crate) fn put_subject<W: Sink>(output: &mut Output<W>, circuit: &Circuit, subject: &Subject)
    ensures { Appended output.old output.new
        (statements_text (subject_part subject.now circuit.now)) }
{
    match subject {
        Subject::Whole => {
            put_kind(output, circuit, Kind::Output);
            put_kind(output, circuit, Kind::Bad);
            put_kind(output, circuit, Kind::Constraint);
            put_kind(output, circuit, Kind::Justice);
            put_kind(output, circuit, Kind::Fairness);
        }
        Subject::Cone(part) => put_shown(output, circuit, part.kind, part.position as usize),
    }
}

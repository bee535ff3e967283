//! The nodes and arrows of a picture, as text.
ghost use Rattle.std.specs.Prelude.{◌≡◌, codes};
ghost use Rattle.aig_io.specs.Output.{Appended};
ghost use Rattle.aig_dot.specs.Dot.{node_text, opening_text, shape_text, statement_text, style_text};
ghost use Rattle.aig_dot.specs.Dot.{variable_text};
ghost use Rattle.aig_dot.specs.Graph.{HasArrow};

use crate::label::put_position;
use aig_circuit::{Kind, Lit, Var};
use aig_io::{Output, Sink};

/// A node.
#[derive(Clone, Copy)]
pub(crate) enum Node {
    /// The constant, an input, a latch or a gate, by its variable.
    Variable(Var),
    /// What a circuit shows, by its kind and its position.
    Shown(Kind, usize),
}

/// What a node stands for.
#[derive(Clone, Copy)]
pub(crate) enum Shape {
    Constant,
    Input,
    Latch,
    Gate,
    Shown,
}

fn put_variable<W: Sink>(output: &mut Output<W>, variable: Var)
    ensures { Appended output.old output.new (variable_text variable) }
{
    output.put(b"v");
    output.put_number(u64::from(variable.0));
}

fn put_node<W: Sink>(output: &mut Output<W>, node: &Node)
    ensures { Appended output.old output.new (node_text node.now) }
{
    match node {
        Node::Variable(variable) => put_variable(output, *variable),
        Node::Shown(kind, position) => put_position(output, *kind, *position),
    }
}

fn shape_name(shape: Shape) -> &'static [u8]
    ensures { result.now ≡ shape_text shape }
{
    match shape {
        Shape::Constant => b"plaintext",
        Shape::Input => b"invhouse",
        Shape::Latch => b"box",
        Shape::Gate => b"circle",
        Shape::Shown => b"house",
    }
}

/// Puts a node up to its label.
pub(crate) fn put_opening<W: Sink>(output: &mut Output<W>, node: &Node, shape: Shape)
    ensures { Appended output.old output.new (opening_text node.now shape) }
{
    output.put(b"  ");
    put_node(output, node);
    output.put(b" [shape=");
    output.put(shape_name(shape));
    output.put(b",label=\"");
}

/// Puts what stands behind a label.
pub(crate) fn put_closing<W: Sink>(output: &mut Output<W>)
    ensures { Appended output.old output.new (codes "\"];\n") }
{
    output.put(b"\"];\n");
}

fn style(is_next: bool, is_negated: bool) -> &'static [u8]
    ensures { result.now ≡ style_text is_next is_negated }
{
    match (is_next, is_negated) {
        (false, false) => b";\n",
        (false, true) => b" [arrowhead=odot];\n",
        (true, false) => b" [style=dotted,constraint=false];\n",
        (true, true) => b" [style=dotted,constraint=false,arrowhead=odot];\n",
    }
}

/// Puts an arrow from a literal to what uses it: in the same step, or as its next state.
pub(crate) fn put_arrow<W: Sink>(output: &mut Output<W>, from: Lit, to: &Node, is_next: bool)
    ensures { Appended output.old output.new (statement_text (HasArrow from to.now is_next)) }
{
    output.put(b"  ");
    put_variable(output, from.var());
    output.put(b" -> ");
    put_node(output, to);
    output.put(style(is_next, from.is_negated()));
}

//! Clauses as DIMACS text, put on their way to a sink.
ghost use Rattle.std.specs.Prelude.{◌≡◌, ◌≤◌, codes};
ghost use Rattle.std.specs.List.{All, flat_map};
ghost use Rattle.aig_circuit.specs.declared.circuit.Gate.{Gate as GateRecord};
ghost use Rattle.aig_circuit.specs.declared.circuit.TheConstants.{LARGEST};
ghost use Rattle.aig_io.specs.Output.{Appended};
ghost use Rattle.aig_cnf.specs.ClauseText.{clause_text, clauses_header, gate_clauses_text};
ghost use Rattle.aig_cnf.specs.ClauseText.{literal_text, literals_text};

use crate::lines::{GATE_SIZE, GateLine, LiteralLine};
use crate::variable_text::LITERAL_SIZE;
use aig_core::{Gate, Lit, Output, Sink};

#[inline(always)]
fn put_literal<W: Sink>(output: &mut Output<W>, literal: Lit)
    ensures { Appended output.old output.new (literal_text literal) }
{
    let mut room = [0u8; LITERAL_SIZE];
    output.put_line(&mut room, &LiteralLine { literal }, &mut ());
}

/// Puts literals of a clause, which go on or end.
pub fn put_literals<W: Sink>(output: &mut Output<W>, literals: &[Lit])
    ensures { Appended output.old output.new (literals_text literals.now) }
{
    for literal in literals {
        put_literal(output, *literal);
    }
}

/// Puts the end of a clause.
#[inline(always)]
pub fn put_clause_end<W: Sink>(output: &mut Output<W>)
    ensures { Appended output.old output.new (codes "0\n") }
{
    output.put(b"0\n");
}

/// Puts a clause.
#[inline(always)]
pub fn put_clause<W: Sink>(output: &mut Output<W>, clause: &[Lit])
    ensures { Appended output.old output.new (clause_text clause.now) }
{
    put_literals(output, clause);
    put_clause_end(output);
}

#[inline(always)]
fn put_gate_clauses<W: Sink>(output: &mut Output<W>, gate: &Gate)
    requires { gate.now.var ≤ LARGEST }
    ensures { Appended output.old output.new (gate_clauses_text gate.now) }
{
    let mut room = [0u8; GATE_SIZE];
    output.put_line(&mut room, &GateLine { gate }, &mut ());
}

/// Puts the clauses of gates.
pub fn put_gates_clauses<W: Sink>(output: &mut Output<W>, gates: &[Gate])
    requires { All (λ (g : GateRecord). g.var ≤ LARGEST) gates.now }
    ensures { Appended output.old output.new (flat_map gate_clauses_text gates.now) }
{
    for gate in gates {
        put_gate_clauses(output, gate);
    }
}

/// Puts the header: the numbers of variables and of clauses.
pub fn put_clauses_header<W: Sink>(output: &mut Output<W>, variables: u64, clauses: u64)
    ensures { Appended output.old output.new (clauses_header variables clauses) }
{
    output.put(b"p cnf ");
    output.put_number(variables);
    output.put(b" ");
    output.put_number(clauses);
    output.put(b"\n");
}

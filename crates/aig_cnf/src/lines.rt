//! Literals and the clauses of gates, each written where it is to stand.
ghost use Rattle.std.specs.Prelude.{◌≡◌, ◌+◌, ◌≤◌, ◌++◌, [], ◌∷◌, codes, length, take};
ghost use Rattle.aig_circuit.specs.declared.circuit.TheConstants.{LARGEST};
ghost use Rattle.aig_circuit.specs.Literal.{variable_of};
ghost use Rattle.aig_cnf.specs.ClauseText.{clause_text, gate_clauses_text, literal_text};
ghost use Rattle.aig_cnf.specs.VariableTexts.{IsVariableText};
ghost use Rattle.aig_cnf.specs.declared.lines.TheConstants.{GATE_SIZE, PAIR_SIZE};
ghost use Rattle.aig_cnf.specs.declared.variable_text.TheConstants.{LITERAL_SIZE};

use crate::variable_text::{LITERAL_SIZE, VariableText};
use aig_core::{Gate, Lit};
use aig_io::Line;

/// How many bytes there are for a clause of two literals.
const PAIR_SIZE: usize = 2 * LITERAL_SIZE + 2;

/// How many bytes there are for the clauses of a gate.
pub(crate) const GATE_SIZE: usize = 2 * PAIR_SIZE + 3 * LITERAL_SIZE + 2;

/// A literal.
#[derive(Drop)]
pub(crate) struct LiteralLine {
    pub(crate) literal: Lit,
}

impl Line for LiteralLine {
    type State = ();

    ghost is_whole = { λ _ _. Unit {0} };

    ghost size = { λ _ _. LITERAL_SIZE };

    ghost text = { λ l _. literal_text l.literal };

    ghost leads = { λ _ _ _. Unit {0} };

    #[inline(always)]
    fn write(&self, _state: &mut (), line: &mut [u8], at: usize) -> usize {
        let mut text = VariableText::blank();
        text.set(self.literal.var().0);
        text.write_literal(line, at, self.literal)
    }
}

/// Writes the end of a clause from a place on, and answers where it ends.
#[inline(always)]
fn write_end(line: &mut [u8], at: usize) -> usize
    requires { at + 2 ≤ length line.old }
    ensures end { result ≡ at + 2 }
    ensures text { take result line.new ≡ take at line.old ++ codes "0\n" }
{
    line[at..at + 2].copy_from_slice(b"0\n");
    at + 2
}

/// Writes a clause of two literals from a place on, each with the text of its variable, and answers
/// where it ends.
#[inline(always)]
fn write_pair(
    line: &mut [u8],
    at: usize,
    first: Lit,
    first_text: &VariableText,
    second: Lit,
    second_text: &VariableText,
) -> usize
    requires first { IsVariableText (variable_of first) first_text.now }
    requires second { IsVariableText (variable_of second) second_text.now }
    requires room { at + PAIR_SIZE ≤ length line.old }
    ensures within { result ≤ at + PAIR_SIZE }
    ensures text { take result line.new ≡ take at line.old ++ clause_text (first ∷ second ∷ []) }
{
    let end = first_text.write_literal(line, at, first);
    let end = second_text.write_literal(line, end, second);
    write_end(line, end)
}

/// The clauses of a gate.
#[derive(Drop)]
pub(crate) struct GateLine<'a> {
    pub(crate) gate: &'a Gate,
}

impl<'a> Line for GateLine<'a> {
    type State = ();

    ghost is_whole = { λ l _. l.gate.now.var ≤ LARGEST };

    ghost size = { λ _ _. GATE_SIZE };

    ghost text = { λ l _. gate_clauses_text l.gate.now };

    ghost leads = { λ _ _ _. Unit {0} };

    #[inline(always)]
    fn write(&self, _state: &mut (), line: &mut [u8], at: usize) -> usize {
        let gate = self.gate;
        let (own, left, right) = (Lit(2 * gate.var.0), gate.left, gate.right);
        let mut own_text = VariableText::blank();
        let mut left_text = VariableText::blank();
        let mut right_text = VariableText::blank();
        own_text.set(gate.var.0);
        left_text.set(left.var().0);
        right_text.set(right.var().0);
        let end = write_pair(line, at, own.negated(), &own_text, left, &left_text);
        let end = write_pair(line, end, own.negated(), &own_text, right, &right_text);
        let end = own_text.write_literal(line, end, own);
        let end = left_text.write_literal(line, end, left.negated());
        let end = right_text.write_literal(line, end, right.negated());
        write_end(line, end)
    }
}

//! A step over a byte for each value: 0, 1, or 2 for x.
ghost use Rattle.std.specs.Prelude.{◌≡◌, ◌+◌, ◌*◌, ◌<◌, ◌≤◌, length, map};
ghost use Rattle.std.specs.List.{All};
ghost use Rattle.aig_circuit.specs.Literal.{variable_of};
ghost use Rattle.aig_circuit.specs.Values.{value_and, value_not};
ghost use Rattle.aig_circuit.specs.declared.circuit.Latch.{Latch};
ghost use Rattle.aig_meaning.specs.Meaning.{literal_value as value_of_literal};
ghost use Rattle.aig_array_steps.specs.Step.{value_byte};
ghost use Rattle.aig_array_steps.specs.Parts.Values.{AreGiven, AreValues, filled};
ghost use Rattle.aig_array_steps.specs.Parts.Values.{literal_byte, shown_by, value_in};
ghost use Rattle.aig_array_steps.specs.Parts.Values.{value_of_byte, with_gates};
ghost use Rattle.aig_array_steps.specs.Parts.Words.{AreAsLong, AreOrdered};
ghost use Rattle.aig_array_steps.specs.Parts.Words.{AreGateWords, AreInThrees, latches_in};

use crate::numbered::first_gate;
use crate::sections::Sections;
use aig_arrays::Counts;

/// 0 where one of the two is 0, 1 where both are 1, and else x.
#[inline(always)]
fn and(left: u8, right: u8) -> u8
    ensures { result ≡ value_byte (value_and (value_of_byte left) (value_of_byte right)) }
{
    if left == 0 || right == 0 {
        0
    } else if left == 1 && right == 1 {
        1
    } else {
        2
    }
}

/// The other one of 0 and 1; x stays x.
#[inline(always)]
fn not(value: u8) -> u8
    ensures { result ≡ value_byte (value_not (value_of_byte value)) }
{
    if value <= 1 { 1 - value } else { 2 }
}

/// The value of a literal.
#[inline(always)]
fn literal_value(table: &[u8], literal: u32) -> u8
    requires { variable_of literal < length table.now }
    ensures value { value_of_byte result ≡ value_of_literal (value_in table.now) literal }
    ensures byte { AreValues table.now → result ≡ literal_byte table.now literal }
{
    let value = table[(literal / 2) as usize];
    if literal % 2 == 0 { value } else { not(value) }
}

/// Puts the value of each gate into the table, from this variable on.
fn put_gates(first: usize, gates: &[u32], table: &mut [u8])
    requires room { 3 * first + length gates.now ≤ 3 * length table.old }
    requires ordered { AreInThrees AreGateWords first gates.now }
    ensures { table.new ≡ with_gates first gates.now table.old }
{
    let mut variable = first;
    let mut rest = gates;
    while let [_, left, right, others @ ..] = rest {
        table[variable] = and(literal_value(table, *left), literal_value(table, *right));
        variable += 1;
        rest = others;
    }
}

/// Puts the constant and the gates into a table that has the values of inputs and latches.
#[tactic(auto, using(crate::proofs::Values::all_are_values))]
pub(crate) fn fill(counts: &Counts, sections: &Sections, table: &mut [u8])
    requires long { AreAsLong counts.now sections.now }
    requires ordered { AreOrdered counts.now sections.now }
    requires room { length table.old ≡ 1 + counts.now.max_var }
    requires given { AreGiven counts.now table.old }
    ensures table { table.new ≡ filled counts.now sections.now table.old }
    ensures values { AreValues table.new }
{
    table[0] = 0;
    put_gates(first_gate(counts) as usize, sections.gates, table);
}

fn show(literals: &[u32], table: &[u8], shown: &mut [u8])
    requires room { length shown.old ≡ length literals.now }
    requires below { All (λ literal. variable_of literal < length table.now) literals.now }
    requires values { AreValues table.now }
    ensures { shown.new ≡ map (literal_byte table.now) literals.now }
{
    for i in 0..literals.len() {
        shown[i] = literal_value(table, literals[i]);
    }
}

fn show_next(latches: &[u32], table: &[u8], shown: &mut [u8])
    requires room { 3 * length shown.old ≡ length latches.now }
    requires below { All (λ (l : Latch). variable_of l.next < length table.now)
        (latches_in latches.now) }
    requires values { AreValues table.now }
    ensures { shown.new ≡ map (λ (l : Latch). literal_byte table.now l.next)
        (latches_in latches.now) }
{
    for i in 0..shown.len() {
        shown[i] = literal_value(table, latches[3 * i + 1]);
    }
}

/// Writes the values of outputs, bad states and constraints, then those of the next states.
pub(crate) fn show_all(counts: &Counts, sections: &Sections, table: &[u8], shown: &mut [u8])
    requires long { AreAsLong counts.now sections.now }
    requires ordered { AreOrdered counts.now sections.now }
    requires whole { length table.now ≡ 1 + counts.now.max_var }
    requires values { AreValues table.now }
    requires room { length sections.now.shown + counts.now.latches ≤ length shown.old }
    ensures { shown.new ≡ shown_by table.now sections.now shown.old }
{
    let (of_literals, rest) = shown.split_at_mut(sections.shown.len());
    let (of_latches, _) = rest.split_at_mut(counts.latches as usize);
    show(sections.shown, table, of_literals);
    show_next(sections.latches, table, of_latches);
}

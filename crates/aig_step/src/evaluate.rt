//! The loops of a step, over a table of the variables' values.
ghost use Rattle.std.specs.Prelude.{◌≡◌, ◌+◌, ◌≤◌, length, map, IfOk, None, Some, false, true};
ghost use Rattle.std.specs.List.{All};
ghost use Rattle.aig_circuit.specs.declared.circuit.Latch.{Latch as LatchRecord};
ghost use Rattle.aig_meaning.specs.Meaning.{literal_value};
ghost use Rattle.aig_meaning.specs.Trace.{reset_value as value_after_reset};
ghost use Rattle.aig_step.specs.Stimulus.{values_of};
ghost use Rattle.aig_step.specs.Parts.Tables.{IsLiteralBelow, pair_of, placed, read_from};

use crate::cells::{Code, Table};
use crate::stimulus::value_of;
use aig_circuit::{Gate, Latch, Lit, Reset, Val};
use std::alloc::{AllocError, Global};

/// The operands of a gate. Its variable is the one after that of the gate before it.
#[derive(Clone, Copy)]
pub struct Pair {
    pub left: Lit,
    pub right: Lit,
}

/// The operands of gates.
pub(crate) fn pairs_of(alloc: Global, gates: &[Gate]) -> Result<Vec<Pair>, AllocError>
    ensures { IfOk result (λ pairs. pairs.items ≡ map pair_of gates.now) }
{
    let mut pairs = Vec::with_capacity(alloc, gates.len())?;
    for gate in gates {
        pairs.push(Pair {
            left: gate.left,
            right: gate.right,
        })?;
    }
    Ok(pairs)
}

/// Puts values into the table, from this place on.
pub(crate) fn put_values(first: usize, given: &[Val], values: &mut Table)
    requires { first + length given.now ≤ length values.old }
    ensures { values.new ≡ placed first given.now values.old }
{
    let mut at = first;
    for value in given {
        values.put(at, *value);
        at += 1;
    }
}

/// Writes the values of literals.
pub(crate) fn show(literals: &[Lit], values: &Table, shown: &mut [Val])
    requires room { length shown.old ≡ length literals.now }
    requires below { All (IsLiteralBelow (length values.now)) literals.now }
    ensures { shown.new ≡ map (literal_value (read_from values.now)) literals.now }
{
    for i in 0..literals.len() {
        shown[i] = values.value(literals[i]);
    }
}

/// Writes the values of the latches' next literals.
pub(crate) fn show_next(latches: &[Latch], values: &Table, next: &mut [Code])
    requires room { length next.old ≡ length latches.now }
    requires below { All (λ (l : LatchRecord). IsLiteralBelow (length values.now) l.next)
        latches.now }
    ensures { next.new ≡ map (literal_value (read_from values.now))
        (map (λ (l : LatchRecord). l.next) latches.now) }
{
    for i in 0..latches.len() {
        next[i] = values.code(latches[i].next);
    }
}

/// Writes values.
pub(crate) fn show_codes(codes: &[Code], shown: &mut [Val])
    requires { length shown.old ≡ length codes.now }
    ensures { shown.new ≡ codes.now }
{
    for i in 0..codes.len() {
        shown[i] = codes[i].value();
    }
}

/// What is known of a latch before the first step.
fn reset_value(reset: Reset) -> Val
    ensures { result ≡ value_after_reset reset }
{
    match reset {
        Reset::Zero => Val::Zero,
        Reset::One => Val::One,
        Reset::Uninit => Val::X,
    }
}

/// Writes the state by the resets.
pub(crate) fn put_reset_state(latches: &[Latch], state: &mut [Code])
    requires { length state.old ≡ length latches.now }
    ensures { state.new ≡ map (λ (l : LatchRecord). value_after_reset l.reset) latches.now }
{
    for i in 0..latches.len() {
        state[i] = Code::of(reset_value(latches[i].reset));
    }
}

/// Reads the values that characters stand for, and answers whether each stands for one.
pub(crate) fn read_codes(text: &[u8], codes: &mut [Code]) -> bool
    requires { length codes.old ≡ length text.now }
    ensures good { result ≡ true → values_of text.now ≡ Some codes.new }
    ensures bad { result ≡ false → values_of text.now ≡ None }
{
    for i in 0..text.len() {
        let Some(value) = value_of(text[i]) else {
            return false;
        };
        codes[i] = Code::of(value);
    }
    true
}

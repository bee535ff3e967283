//! The line of a step.
ghost use Rattle.std.specs.Prelude.{◌≡◌, ◌+◌, ◌++◌, ◌≤◌, List, codes, length, map, take};
ghost use Rattle.std.specs.List.{All};
ghost use Rattle.aig_circuit.specs.declared.value.Val.{Val as Value};
ghost use Rattle.aig_meaning.specs.Meaning.{literal_value};
ghost use Rattle.aig_step.specs.TraceText.{properties_text, row_text, values_text};
ghost use Rattle.aig_step.specs.Parts.Lines.{line_size, row_read};
ghost use Rattle.aig_step.specs.Parts.Stepping.{in_next_state, row_of};
ghost use Rattle.aig_step.specs.Parts.Tables.{IsLiteralBelow, read_from};

use crate::cells::{Code, Table, literal_code};
use crate::stepper::Stepper;
use aig_circuit::Lit;
use aig_io::Line;

/// Which columns a line of a trace has beside state, inputs, outputs and next state.
#[derive(Clone, Copy, PartialEq)]
pub enum Columns {
    /// No more.
    Plain,
    /// The values of bad states and of constraints.
    Properties,
}

/// Writes the characters of values from a place on, and answers where they end.
#[inline(always)]
fn write_values(line: &mut [u8], at: usize, values: &[Code]) -> usize
    requires { at + length values.now ≤ length line.old }
    ensures end { result ≡ at + length values.now }
    ensures text { take result line.new ≡ take at line.old ++ values_text values.now }
{
    for i in 0..values.len() {
        line[at + i] = values[i].character();
    }
    at + values.len()
}

/// Writes the characters of the values of literals, as `write_values` writes those of values.
#[inline(always)]
fn write_literals(line: &mut [u8], at: usize, values: &Table, literals: &[Lit]) -> usize
    requires room { at + length literals.now ≤ length line.old }
    requires below { All (IsLiteralBelow (length values.now)) literals.now }
    ensures end { result ≡ at + length literals.now }
    ensures text { take result line.new
        ≡ take at line.old
        ++ values_text (map (literal_value (read_from values.now)) literals.now) }
{
    let codes = values.codes();
    for i in 0..literals.len() {
        line[at + i] = literal_code(codes, literals[i]).character();
    }
    at + literals.len()
}

/// Writes a space and the characters of the values of literals, as `write_values` writes those of
/// values.
#[inline(always)]
fn write_column(line: &mut [u8], at: usize, values: &Table, literals: &[Lit]) -> usize
    requires room { at + 1 + length literals.now ≤ length line.old }
    requires below { All (IsLiteralBelow (length values.now)) literals.now }
    ensures end { result ≡ at + 1 + length literals.now }
    ensures text { take result line.new
        ≡ take at line.old
        ++ (codes " " ++ values_text (map (literal_value (read_from values.now)) literals.now)) }
{
    line[at] = b' ';
    write_literals(line, at + 1, values, literals)
}

/// Writes a space and a text, as `write_values` writes values.
#[inline(always)]
pub fn write_text_column(line: &mut [u8], at: usize, text: &[u8]) -> usize
    requires { at + 1 + length text.now ≤ length line.old }
    ensures end { result ≡ at + 1 + length text.now }
    ensures text { take result line.new ≡ take at line.old ++ (codes " " ++ text.now) }
{
    line[at] = b' ';
    let end = at + 1 + text.len();
    line[at + 1..end].copy_from_slice(text);
    end
}

/// Writes the columns of bad states and constraints, where they are asked for, as `write_values`
/// writes values.
#[inline(always)]
fn write_properties(line: &mut [u8], at: usize, columns: Columns, stepper: &Stepper) -> usize
    requires room { at + length stepper.now.circuit.bad + length stepper.now.circuit.constraints + 2
        ≤ length line.old }
    ensures end { result
        ≤ at + length stepper.now.circuit.bad + length stepper.now.circuit.constraints + 2 }
    ensures text { (state inputs : List Value)
        → take result line.new ≡ take at line.old ++ properties_text columns
        (row_read stepper.now.circuit state inputs (read_from stepper.now.values)) }
{
    let values = stepper.values();
    let parts = stepper.machine().parts();
    match columns {
        Columns::Plain => at,
        Columns::Properties => {
            let end = write_column(line, at, values, parts.bad.as_slice());
            write_column(line, end, values, parts.constraints.as_slice())
        }
    }
}

/// The line of the step that was evaluated last, whose inputs were this text.
#[derive(Drop)]
pub struct RowLine<'a> {
    pub columns: Columns,
    pub inputs: &'a [u8],
}

/// Where it is written, the state before the step becomes the one after it.
impl<'a> Line for RowLine<'a> {
    type State = Stepper;

    ghost is_whole = { λ l stepper. l.inputs.now ≡ values_text (row_of stepper).inputs };

    ghost size = { λ _ stepper. line_size stepper.circuit };

    ghost text = { λ l stepper. row_text l.columns (row_of stepper) };

    ghost leads = { λ _ before after. after ≡ in_next_state before };

    #[inline(always)]
    fn write(&self, stepper: &mut Stepper, line: &mut [u8], at: usize) -> usize {
        let end = write_values(line, at, stepper.state());
        let end = write_text_column(line, end, self.inputs);
        let outputs = stepper.machine().parts().outputs.as_slice();
        let end = write_column(line, end, stepper.values(), outputs);
        stepper.enter_next_state();
        line[end] = b' ';
        let end = write_values(line, end + 1, stepper.state());
        let end = write_properties(line, end, self.columns, stepper);
        line[end] = b'\n';
        end + 1
    }
}

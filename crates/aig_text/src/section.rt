//! Sections: rows of one kind, one to a line.
ghost use Rattle.std.specs.Prelude.{◌≡◌, ◌+◌, ◌*◌, ◌^◌, ◌<◌, ◌≤◌, ◌++◌, ◌⊎◌, [], List};
ghost use Rattle.std.specs.Prelude.{length, IfErr, IfOk, OnOk};
ghost use Rattle.std.specs.List.{sum};
ghost use Rattle.aig_fault.specs.declared.stopped.Stopped.TheVariants.{OutOfMemory};
ghost use Rattle.aig_circuit.specs.Wellformed.{largest_index};
ghost use Rattle.aig_text.specs.declared.section.Section.TheVariants.{Latches};
ghost use Rattle.aig_text.specs.Sections.{in_ascii, in_binary, listed_in};
ghost use Rattle.aig_text.specs.Parts.NextStates.{latches_by};
ghost use Rattle.aig_fault.specs.declared.kind.Kind.TheVariants.{Truncated};
ghost use Rattle.aig_lines.specs.Lines.{Line, with_lines};
ghost use Rattle.aig_rows.specs.Reading.{fault_at};
ghost use Rattle.aig_text.specs.Begun.{due_of, HasRoom, HaveReadOf, IsLimited, rows_due};

use crate::header_line::Header;
use aig_core::{Circuit, Latch, Listing, Var};
use aig_fault::{Kind, Stopped, refused_at};
use aig_lines::Cursor;
use aig_rows::{Due, NextState, read_first_rows};
use std::alloc::{AllocError, Global};

/// The two kinds of files.
#[derive(Clone, Copy)]
pub enum Format {
    /// Each thing that is listed has a line.
    Ascii,
    /// Inputs and gates have no lines, and no line tells a variable.
    Binary,
}

/// What a file lists.
#[derive(Clone, Copy)]
pub enum Section {
    /// The variable of each input.
    Inputs,
    /// The variable, the next state and the reset of each latch.
    Latches,
    /// The literal of each output.
    Outputs,
    /// The literal of each bad state.
    Bad,
    /// The literal of each invariant constraint.
    Constraints,
    /// How many literals each justice property has.
    JusticeSizes,
    /// The literals of all justice properties.
    JusticeLiterals,
    /// The literal of each fairness constraint.
    Fairness,
    /// The variable and the operands of each gate.
    Gates,
}

/// The sections, in the order of a file.
pub const SECTIONS: [Section; 9] = [
    Section::Inputs,
    Section::Latches,
    Section::Outputs,
    Section::Bad,
    Section::Constraints,
    Section::JusticeSizes,
    Section::JusticeLiterals,
    Section::Fairness,
    Section::Gates,
];

fn total(sizes: &[u32]) -> u32
    requires { sum sizes.now ≤ largest_index }
    ensures { result ≡ sum sizes.now }
{
    let mut all = 0;
    for size in sizes {
        all += *size;
    }
    all
}

/// The rows that are due of a section as an ASCII file lists it, before the first of them.
fn ascii_rows(section: Section, header: &Header, circuit: &Circuit) -> Due
    requires { sum circuit.now.justice.sizes ≤ largest_index }
    ensures rows { result ≡ due_of (in_ascii section) header.now circuit.now }
    ensures small { result.carried + 2 * result.count ≤ 2 ^ 34 }
{
    let sizes = circuit.justice.sizes.as_slice();
    match section {
        Section::Inputs => Due::new(header.inputs),
        Section::Latches => Due::new(header.latches),
        Section::Outputs => Due::new(header.outputs),
        Section::Bad => Due::new(header.bad),
        Section::Constraints => Due::new(header.constraints),
        Section::JusticeSizes => {
            let mut due = Due::new(header.justice);
            due.carried = u64::from(total(sizes));
            due
        }
        Section::JusticeLiterals => Due::new(total(sizes)),
        Section::Fairness => Due::new(header.fairness),
        Section::Gates => Due::new(header.gates),
    }
}

/// The rows that are due of a section, before the first of them.
pub(crate) fn section_rows(
    format: Format,
    section: Section,
    header: &Header,
    circuit: &Circuit,
) -> Due
    requires { sum circuit.now.justice.sizes ≤ largest_index }
    ensures rows { result ≡ due_of (listed_in format section) header.now circuit.now }
    ensures small { result.carried + 2 * result.count ≤ 2 ^ 34 }
{
    match format {
        Format::Ascii => ascii_rows(section, header, circuit),
        Format::Binary => match section {
            Section::Inputs | Section::Gates => Due::new(0),
            Section::Latches => Due {
                count: header.latches,
                carried: 2 * (1 + u64::from(header.inputs)),
            },
            Section::Outputs
            | Section::Bad
            | Section::Constraints
            | Section::JusticeSizes
            | Section::JusticeLiterals
            | Section::Fairness => ascii_rows(section, header, circuit),
        },
    }
}

/// Adds latches of these next states, the first of this variable.
fn add_latches(
    latches: &mut Listing<Latch>,
    variable: u32,
    nexts: &[NextState],
) -> Result<(), AllocError>
    requires { variable + length nexts.now < 2 ^ 32 }
    ensures { OnOk result (latches.new ≡ latches.old ++ latches_by variable nexts.now) }
{
    let mut var = variable;
    for next in nexts {
        latches.push(Latch {
            var: Var(var),
            next: next.next,
            reset: next.reset,
        })?;
        var += 1;
    }
    Ok(())
}

/// The same as `read_first_of_section`, of latches in a binary file.
fn read_first_latches(
    alloc: Global,
    header: &Header,
    circuit: &mut Circuit,
    due: Due,
    at: &mut Cursor,
) -> Result<Due, Stopped>
    requires max_var { header.now.max_var ≤ largest_index }
    requires small { due.carried + 2 * due.count ≤ 2 ^ 34 }
    requires variables { header.now.inputs + length circuit.old.latches + due.count ≤ largest_index }
    ensures part { IfOk result (λ left. HaveReadOf (in_binary Latches) header.now
        due left circuit.old circuit.new at.old at.new) }
    ensures small { IfOk result (λ left. left.carried + 2 * left.count ≤ 2 ^ 34) }
    ensures all { IfOk result (λ left. 0 < left.count → at.new.lines ≡ []) }
    ensures err { IfErr result (λ e. (e ≡ OutOfMemory) ⊎ ((more : List Line)
        → rows_due (in_binary Latches) header.now due (with_lines at.old more) ≡ Err e)) }
{
    let variable = 1 + header.inputs + circuit.latches.len() as u32;
    let mut nexts = Listing::new(alloc);
    let left = match read_first_rows::<NextState>(&mut nexts, header.max_var, due, at) {
        Ok(left) => left,
        Err(fault) => return Err(fault),
    };
    add_latches(&mut circuit.latches, variable, nexts.as_slice())?;
    Ok(left)
}

/// The same as `read_first_of_section`, as an ASCII file lists it.
fn read_first_of_ascii(
    section: Section,
    header: &Header,
    circuit: &mut Circuit,
    due: Due,
    at: &mut Cursor,
) -> Result<Due, Stopped>
    requires limited { IsLimited header.now }
    requires small { due.carried + 2 * due.count ≤ 2 ^ 34 }
    ensures part { IfOk result (λ left. HaveReadOf (in_ascii section) header.now
        due left circuit.old circuit.new at.old at.new) }
    ensures small { IfOk result (λ left. left.carried + 2 * left.count ≤ 2 ^ 34) }
    ensures all { IfOk result (λ left. 0 < left.count → at.new.lines ≡ []) }
    ensures err { IfErr result (λ e. (e ≡ OutOfMemory) ⊎ ((more : List Line)
        → rows_due (in_ascii section) header.now due (with_lines at.old more) ≡ Err e)) }
{
    let max_var = header.max_var;
    match section {
        Section::Inputs => read_first_rows(&mut circuit.inputs, max_var, due, at),
        Section::Latches => read_first_rows(&mut circuit.latches, max_var, due, at),
        Section::Outputs => read_first_rows(&mut circuit.outputs, max_var, due, at),
        Section::Bad => read_first_rows(&mut circuit.bad, max_var, due, at),
        Section::Constraints => read_first_rows(&mut circuit.constraints, max_var, due, at),
        Section::JusticeSizes => {
            read_first_rows(&mut circuit.justice.sizes, header.limit, due, at)
        }
        Section::JusticeLiterals => {
            read_first_rows(&mut circuit.justice.literals, max_var, due, at)
        }
        Section::Fairness => read_first_rows(&mut circuit.fairness, max_var, due, at),
        Section::Gates => read_first_rows(&mut circuit.gates, max_var, due, at),
    }
}

/// Answers which rows are due then: none, or else no line is left.
#[tactic(auto, using(crate::proofs::Loops::Latches::nothing_read))]
pub(crate) fn read_first_of_section(
    alloc: Global,
    format: Format,
    section: Section,
    header: &Header,
    circuit: &mut Circuit,
    due: Due,
    at: &mut Cursor,
) -> Result<Due, Stopped>
    requires limited { IsLimited header.now }
    requires small { due.carried + 2 * due.count ≤ 2 ^ 34 }
    requires room { HasRoom format section header.now due circuit.old }
    ensures part { IfOk result (λ left. HaveReadOf (listed_in format section) header.now
        due left circuit.old circuit.new at.old at.new) }
    ensures small { IfOk result (λ left. left.carried + 2 * left.count ≤ 2 ^ 34) }
    ensures all { IfOk result (λ left. 0 < left.count → at.new.lines ≡ []) }
    ensures err { IfErr result (λ e. (e ≡ OutOfMemory) ⊎ ((more : List Line)
        → rows_due (listed_in format section) header.now due (with_lines at.old more) ≡ Err e)) }
{
    match format {
        Format::Ascii => read_first_of_ascii(section, header, circuit, due, at),
        Format::Binary => match section {
            Section::Inputs | Section::Gates => Ok(due),
            Section::Latches => read_first_latches(alloc, header, circuit, due, at),
            Section::Outputs
            | Section::Bad
            | Section::Constraints
            | Section::JusticeSizes
            | Section::JusticeLiterals
            | Section::Fairness => read_first_of_ascii(section, header, circuit, due, at),
        },
    }
}

pub(crate) fn missing_line(at: &Cursor) -> Stopped
    ensures { result ≡ fault_at at.now.number Truncated }
{
    refused_at(Kind::Truncated, at.number)
}

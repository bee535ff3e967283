//! Steps a lamp with a switch, and prints the row of each step as `aigsim` does: state, inputs,
//! outputs and next state.
#![tactic(auto)]

ghost use Rattle.std.specs.Prelude.{◌≡◌, ◌++◌, string_bytes, IfOk, IfSome, OnOk};
ghost use Rattle.aig_step.specs.Simulating.{Stepped};
ghost use Rattle.aig_step.specs.TraceText.{character_of, row_text, values_text};
ghost use Rattle.aig_step.specs.declared.trace.Columns.TheVariants.{Plain};

use aig_binary::{Limits, read_file};
use aig_core::{Checked, Circuit, Keep, Kind, Val};
use aig_step::Simulator;
use std::alloc::{AllocError, Global};

/// The lamp, as an ASCII file. It is on in the next step if it is on now or its switch is pressed.
const LAMP: &[u8] = b"aag 5 1 1 1 3\n2\n4 11\n4\n6 4 3\n8 5 2\n10 7 9\ni0 switch\no0 lamp\n";

/// What is given in each step: one value for each input, but for the third.
const GIVEN: [&[Val]; 5] = [
    &[Val::One],
    &[Val::Zero],
    &[Val::One, Val::One],
    &[Val::X],
    &[Val::One],
];

fn character_of(value: Val) -> char
    ensures { result ≡ character_of value }
{
    match value {
        Val::Zero => '0',
        Val::One => '1',
        Val::X => 'x',
    }
}

/// Puts the characters of values, and the end of their column.
fn push_column(line: &mut String, values: &[Val], end: &str) -> Result<(), AllocError>
    ensures { OnOk result (string_bytes line.new
        ≡ string_bytes line.old ++ (values_text values.now ++ end.now)) }
{
    for value in values {
        line.push(character_of(*value))?;
    }
    line.push_str(end)
}

/// Takes a step with these values, and gives its row as a line. Of another number of values than
/// the circuit has inputs it takes none.
fn step(alloc: Global, simulator: &mut Simulator, given: &[Val]) -> anyhow::Result<String>
    ensures stepped { OnOk result (Stepped simulator.old simulator.new given.now) }
    ensures line { IfOk result (λ line. IfSome simulator.new.row
        (λ row. string_bytes line ≡ row_text Plain row)) }
{
    simulator.try_step(given)?;
    let mut line = String::new(alloc);
    if let Some(row) = simulator.row() {
        push_column(&mut line, row.state, " ")?;
        push_column(&mut line, given, " ")?;
        push_column(&mut line, row.outputs, " ")?;
        push_column(&mut line, row.next, "\n")?;
    }
    Ok(line)
}

/// What a symbol calls the first of a kind.
fn name_of_first(circuit: &Circuit, kind: Kind) -> &str {
    let name = circuit.symbols.name_of(kind, 0);
    name.and_then(|name| str::from_utf8(name).ok())
        .unwrap_or("?")
}

/// Prints the row of each step, or why it is not taken.
fn print_steps(rt: &impl Print, alloc: Global, simulator: &mut Simulator) -> anyhow::Result<()> {
    for given in GIVEN {
        match step(alloc, simulator, given) {
            Ok(line) => print!(rt; "{line}")?,
            Err(error) => println!(rt; "{error}")?,
        }
    }
    Ok(())
}

/// Prints what stands in the columns, and the steps of a circuit.
fn run(rt: &impl Print, alloc: Global, checked: &Checked) -> anyhow::Result<()> {
    let input = name_of_first(checked.circuit(), Kind::Input);
    let output = name_of_first(checked.circuit(), Kind::Output);
    println!(rt; "state, {input}, {output}, next state")?;
    let mut simulator = Simulator::new(alloc, checked)?;
    let printed = print_steps(rt, alloc, &mut simulator);
    drop(simulator); // for the proof
    printed
}

fn main(rt: HostRuntime) -> anyhow::Result<()> {
    let alloc = rt.alloc();
    let checked = read_file(alloc, LAMP, Limits::default(), Keep::Circuit)?;
    let ran = run(&rt, alloc, &checked);
    drop(checked); // for the proof
    ran
}

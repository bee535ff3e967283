//! Counts what the AIGER file on standard input holds, ASCII or binary: its inputs, latches and so
//! on. Prints its depth too, which is how many gates stand on the longest path.
#![tactic(auto)]

ghost use Rattle.aig_circuit.specs.Wellformed.{IsWellFormed};

use aig_binary::{Limits, read_file};
use aig_core::{Circuit, Keep, ReadSource, read_all};
use aig_info::depth;
use std::alloc::Global;
use std::io;

fn print_counts(rt: &impl Print, circuit: &Circuit) -> io::Result<()> {
    let counts = [
        ("inputs", circuit.inputs.len()),
        ("latches", circuit.latches.len()),
        ("outputs", circuit.outputs.len()),
        ("bad states", circuit.bad.len()),
        ("constraints", circuit.constraints.len()),
        ("justice properties", circuit.justice.sizes.len()),
        ("fairness constraints", circuit.fairness.len()),
        ("gates", circuit.gates.len()),
        ("symbols", circuit.symbols.len()),
    ];
    for (name, count) in counts {
        println!(rt; "{name} {count}")?;
    }
    Ok(())
}

/// Prints what is said of a circuit.
fn print_circuit(rt: &impl Print, alloc: Global, circuit: &Circuit) -> anyhow::Result<()>
    requires { IsWellFormed circuit.now }
{
    print_counts(rt, circuit)?;
    println!(rt; "depth {}", depth(alloc, circuit)?)?;
    Ok(())
}

fn main(rt: HostRuntime) -> anyhow::Result<()> {
    let alloc = rt.alloc();
    let bytes = read_all(alloc, &mut ReadSource::new(rt.stdin()))?;
    let checked = read_file(alloc, bytes.as_slice(), Limits::default(), Keep::Circuit)?;
    let printed = print_circuit(&rt, alloc, checked.circuit());
    drop(checked); // for the proof
    printed
}

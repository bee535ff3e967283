//! Two circuits side by side.
ghost use Rattle.std.specs.Prelude.{◌≡◌, ◌+◌, ◌*◌, ◌++◌, ◌≤◌, length, IfOk, OnOk};
ghost use Rattle.std.specs.List.{All};
ghost use Rattle.aig_circuit.specs.declared.circuit.TheConstants.{LARGEST as largest};
ghost use Rattle.aig_circuit.specs.Wellformed.{IsWellFormed};
ghost use Rattle.aig_miter.specs.Miter.{compared, tied};
ghost use Rattle.aig_miter.specs.Parts.Moved.{side_by_side};

use crate::gates::{put_differences, put_negations, put_ties};
use crate::lists::{extend, reserve};
use aig_circuit::{Circuit, Gate, Listing, Lit, Var};
use aig_image::Steps;
use std::alloc::{AllocError, Global};

/// The literals of a circuit that are compared.
fn list_compared(alloc: Global, circuit: &Circuit) -> Result<Vec<Lit>, AllocError>
    ensures { IfOk result (λ literals. literals.items ≡ compared circuit.now) }
{
    let mut literals = Vec::from_slice(alloc, circuit.outputs.as_slice())?;
    literals.extend_from_slice(circuit.bad.as_slice())?;
    Ok(literals)
}

/// Takes memory for the gates that are added: those of the second circuit, and so many that compare.
fn make_room(
    alloc: Global,
    second: &Circuit,
    comparing: usize,
    gates: &mut Listing<Gate>,
) -> Result<(), AllocError>
    ensures { OnOk result (gates.new ≡ gates.old) }
{
    let more = second.inputs.len().saturating_add(second.gates.len());
    reserve(alloc, gates, more.saturating_add(comparing))
}

/// Adds the gates that give the second circuit's inputs their values, and its own.
fn put_gates(
    alloc: Global,
    inputs: &[Var],
    second: &Circuit,
    gates: &mut Listing<Gate>,
    steps: &mut Steps,
) -> Result<(), AllocError>
    requires inputs { length second.now.inputs ≡ length inputs.now }
    requires low { All (λ v. v ≤ largest) inputs.now }
    ensures gates { OnOk result
        (gates.new ≡ gates.old ++ (tied inputs.now second.now.inputs ++ second.now.gates)) }
    ensures counted { steps.new.count
        ≡ steps.old.count + (length second.now.gates + length second.now.inputs) }
{
    steps.add(second.gates.len() as u64);
    steps.add(second.inputs.len() as u64);
    put_ties(inputs, second.inputs.as_slice(), gates)?;
    extend(alloc, gates, second.gates.as_slice())
}

/// Makes of the first circuit the two side by side, where the second has variables behind those of
/// the first already, with the gates that compare them and the bad states. Memory is taken for so
/// many gates more, which come later.
pub(crate) fn put_beside(
    alloc: Global,
    first: &mut Circuit,
    second: &Circuit,
    later: usize,
    steps: &mut Steps,
) -> Result<(), AllocError>
    requires inputs { length second.now.inputs ≡ length first.old.inputs }
    requires low { All (λ v. v ≤ largest) first.old.inputs }
    requires room { first.old.max_var + second.now.max_var + 3 * length (compared first.old)
        ≤ largest }
    ensures beside { OnOk result (first.new ≡ side_by_side first.old second.now) }
    ensures counted { OnOk result (steps.new.count ≡ steps.old.count
        + (length second.now.gates + length second.now.inputs + 3 * length (compared first.old))) }
    ensures few { steps.new.count ≤ steps.old.count
        + (length second.now.gates + length second.now.inputs + 3 * length (compared first.old)) }
{
    let ones = list_compared(alloc, first)?;
    let others = list_compared(alloc, second)?;
    let before = first.max_var + second.max_var;
    let comparing = later.saturating_add(3 * ones.len());
    make_room(alloc, second, comparing, &mut first.gates)?;
    steps.add(3 * ones.len() as u64);
    put_gates(
        alloc,
        first.inputs.as_slice(),
        second,
        &mut first.gates,
        steps,
    )?;
    extend(alloc, &mut first.latches, second.latches.as_slice())?;
    first.bad = Listing::new(alloc);
    put_differences(
        before + 1,
        ones.as_slice(),
        others.as_slice(),
        &mut first.gates,
        &mut first.bad,
    )?;
    put_negations(second.constraints.as_slice(), &mut first.bad)?;
    first.max_var = before + 3 * ones.len() as u32;
    Ok(())
}

//! What a map block records of a circuit.
ghost use Rattle.std.specs.Prelude.{◌≡◌, ◌+◌, ◌≤◌, ℕ, length, map, IfOk};
ghost use Rattle.std.specs.List.{AllByRecursion};
ghost use Rattle.aig_circuit.specs.declared.circuit.TheConstants.{LARGEST};
ghost use Rattle.aig_circuit.specs.declared.circuit.Circuit.{Circuit as CircuitRecord};
ghost use Rattle.aig_circuit.specs.declared.circuit.Gate.{Gate as GateRecord};
ghost use Rattle.aig_image.specs.Relabelled.{FitIntoLiterals, relabelled};
ghost use Rattle.aig_map.specs.MapBlock.{block_by};
ghost use Rattle.aig_map.specs.Parts.Kept.{AreVariablesOf};
ghost use Rattle.aig_map.specs.Parts.NewPlace.{new_place_of, new_place_by};

use crate::kept_map::{KeptMap, KeptVariables, NewPlace};
use aig_core::{Circuit, Gate, LARGEST, OutOfMemory, Var};
use aig_image::{Defines, Labels, NamesVariables};
use std::alloc::Global;

/// The first gate of the image has the variable `first`.
#[inline(always)]
fn new_place_of(first: u32, new: &Gate) -> NewPlace
    requires { new.now.var ≤ LARGEST }
    ensures { result ≡ new_place_of first new.now }
{
    NewPlace::new(new.var.0.saturating_sub(first), new.left.0 < new.right.0)
}

#[inline(always)]
fn new_place_by<L: Labels>(labels: &L, first: u32, gate: &Gate) -> NewPlace
    requires { FitIntoLiterals (L.label labels.now) }
    ensures { result ≡ new_place_by (L.label labels.now) first gate.now }
{
    new_place_of(first, &gate.relabel(labels))
}

fn new_places_by<L: Labels>(
    alloc: Global,
    labels: &L,
    first: u32,
    gates: &[Gate],
) -> Result<Vec<NewPlace>, OutOfMemory>
    requires { FitIntoLiterals (L.label labels.now) }
    ensures { IfOk result (λ r. r.items ≡ map (new_place_by (L.label labels.now) first) gates.now) }
{
    let mut found = Vec::with_capacity(alloc, gates.len())?;
    for gate in gates {
        found.push(new_place_by(labels, first, gate))?;
    }
    Ok(found)
}

fn new_places_of(alloc: Global, first: u32, gates: &[Gate]) -> Result<Vec<NewPlace>, OutOfMemory>
    requires { AllByRecursion (λ (g : GateRecord). g.var ≤ LARGEST) gates.now }
    ensures { IfOk result (λ r. r.items ≡ map (new_place_of first) gates.now) }
{
    let mut found = Vec::with_capacity(alloc, gates.len())?;
    for gate in gates {
        found.push(new_place_of(first, gate))?;
    }
    Ok(found)
}

fn variables_of<T: Defines>(alloc: Global, items: &[T]) -> Result<Vec<Var>, OutOfMemory>
    ensures { IfOk result (λ r. r.items ≡ map T.variable items.now) }
{
    let mut found = Vec::with_capacity(alloc, items.len())?;
    for item in items {
        found.push(item.variable())?;
    }
    Ok(found)
}

/// The variables of a circuit's inputs, latches and gates.
pub fn keep_variables(alloc: Global, circuit: &Circuit) -> Result<KeptVariables, OutOfMemory>
    ensures { IfOk result (λ r. AreVariablesOf r circuit.now) }
{
    Ok(KeptVariables {
        inputs: variables_of(alloc, circuit.inputs.as_slice())?,
        latches: variables_of(alloc, circuit.latches.as_slice())?,
        gates: variables_of(alloc, circuit.gates.as_slice())?,
    })
}

/// The map block of a circuit whose variables get these labels.
pub fn record_map<L: Labels>(
    alloc: Global,
    labels: &L,
    circuit: &Circuit,
) -> Result<KeptMap, OutOfMemory>
    requires small { FitIntoLiterals (L.label labels.now) }
    requires fits { length circuit.now.inputs + length circuit.now.latches ≤ LARGEST }
    ensures { IfOk result (λ b. b ≡ block_by (L.label labels.now) circuit.now) }
{
    let first = (1 + circuit.inputs.len() + circuit.latches.len()) as u32;
    let variables = keep_variables(alloc, circuit)?;
    let new_places = new_places_by(alloc, labels, first, circuit.gates.as_slice())?;
    Ok(KeptMap {
        max_var: circuit.max_var,
        variables,
        new_places,
        has_comment: circuit.comment.is_some(),
    })
}

/// The map block of a circuit whose variables were these and became others: what is recorded is
/// read off the new ones, which so are looked up once.
pub fn record_new_map(
    alloc: Global,
    variables: KeptVariables,
    circuit: &Circuit,
) -> Result<KeptMap, OutOfMemory>
    requires many { length variables.gates.items ≡ length circuit.now.gates }
    requires small { AllByRecursion (λ (g : GateRecord). g.var ≤ LARGEST) circuit.now.gates }
    requires fits { length circuit.now.inputs + length circuit.now.latches ≤ LARGEST }
    ensures { (f : ℕ → ℕ) (c : CircuitRecord) → AreVariablesOf variables c
        → circuit.now ≡ relabelled f c → IfOk result (λ b. b ≡ block_by f c) }
{
    let first = (1 + circuit.inputs.len() + circuit.latches.len()) as u32;
    let new_places = new_places_of(alloc, first, circuit.gates.as_slice())?;
    Ok(KeptMap {
        max_var: circuit.max_var,
        variables,
        new_places,
        has_comment: circuit.comment.is_some(),
    })
}

//! The places of latches and gates by the variables that they define: latches first.
ghost use Rattle.std.specs.Prelude.{◌≤◌, [], length, IfOk, OnOk};
ghost use Rattle.aig_circuit.specs.Wellformed.{IsWellFormed};
ghost use Rattle.aig_circuit.specs.declared.circuit.TheConstants.{LARGEST};
ghost use Rattle.aig_cone.specs.Parts.Search.{HasPlaces, definers, latch_variables};

use aig_circuit::Circuit;
use aig_tables::VarMap;
use std::alloc::{AllocError, Global};

fn place_latches(places: &mut VarMap<u32>, circuit: &Circuit) -> Result<(), AllocError>
    requires few { length circuit.now.latches ≤ LARGEST }
    requires none { HasPlaces [] places.old }
    ensures { OnOk result (HasPlaces (latch_variables circuit.now) places.new) }
{
    let latches = circuit.latches.as_slice();
    for at in 0..latches.len() {
        places.insert(latches[at].var, at as u32)?;
    }
    Ok(())
}

fn place_gates(places: &mut VarMap<u32>, circuit: &Circuit) -> Result<(), AllocError>
    requires few_latches { length circuit.now.latches ≤ LARGEST }
    requires few { length circuit.now.gates ≤ LARGEST }
    requires latches { HasPlaces (latch_variables circuit.now) places.old }
    ensures { OnOk result (HasPlaces (definers circuit.now) places.new) }
{
    let before = circuit.latches.len();
    let gates = circuit.gates.as_slice();
    for at in 0..gates.len() {
        places.insert(gates[at].var, (before + at) as u32)?;
    }
    Ok(())
}

/// The places of a circuit's latches and gates.
pub(crate) fn places_of(alloc: Global, circuit: &Circuit) -> Result<VarMap<u32>, AllocError>
    requires { IsWellFormed circuit.now }
    ensures { IfOk result (HasPlaces (definers circuit.now)) }
{
    let mut places = VarMap::for_circuit(alloc, circuit)?;
    place_latches(&mut places, circuit)?;
    place_gates(&mut places, circuit)?;
    Ok(places)
}

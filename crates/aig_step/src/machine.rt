//! A circuit in binary order that is kept to be run.
ghost use Rattle.std.specs.Prelude.{◌≡◌, ◌+◌, ◌≤◌, length, IfOk};
ghost use Rattle.aig_checked.specs.BinaryOrder.{IsInBinaryOrder};
ghost use Rattle.aig_circuit.specs.Wellformed.{IsWellFormed};
ghost use Rattle.aig_meaning.specs.Meaning.{MeansTheSame};
ghost use Rattle.aig_step.specs.Parts.Machines.{CanRun, ShowsBelow, circuit_of, parts_of};

use crate::evaluate::{Pair, pairs_of};
use aig_checked::{Checked, is_in_binary_order};
use aig_circuit::{Circuit, Justice, Listing, OutOfMemory, Symbols};
use aig_image::{Steps, binary_image};
use std::alloc::Global;
use std::marker::Model;

/// A circuit in binary order, without what no row shows, its gates as pairs of operands.
#[derive(Drop)]
pub struct Machine {
    /// The circuit without its gates.
    parts: Circuit,
    /// The operands of its gates.
    pairs: Vec<Pair>,
}

impl Model for Machine {
    ghost use Rattle.aig_circuit.specs.declared.circuit.Circuit.{Circuit as CircuitRecord};
    ghost use Rattle.aig_step.specs.Parts.Machines.{CanRun, circuit_of};

    ghost Value = { CircuitRecord };

    ghost view = { λ m. circuit_of m.parts m.pairs.items };

    ghost invariant = { λ m. CanRun m.parts m.pairs.items };
}

/// The sections of a circuit that rows show, in memory of their own.
fn copy_parts(alloc: Global, circuit: &Circuit) -> Result<Circuit, OutOfMemory>
    ensures { IfOk result (λ parts. parts ≡ parts_of circuit.now) }
{
    Ok(Circuit {
        max_var: circuit.max_var,
        inputs: circuit.inputs.copy(alloc)?,
        latches: circuit.latches.copy(alloc)?,
        outputs: circuit.outputs.copy(alloc)?,
        bad: circuit.bad.copy(alloc)?,
        constraints: circuit.constraints.copy(alloc)?,
        justice: Justice {
            sizes: Listing::new(alloc),
            literals: Listing::new(alloc),
        },
        fairness: Listing::new(alloc),
        gates: Listing::new(alloc),
        symbols: Symbols::new(alloc),
        comment: None,
    })
}

impl Machine {
    /// What runs a circuit in binary order. Its gates are read where they stand.
    fn of_ordered(alloc: Global, circuit: &Circuit) -> Result<Self, OutOfMemory>
        requires formed { IsWellFormed circuit.now }
        requires ordered { IsInBinaryOrder circuit.now }
        ensures { IfOk result (λ m. MeansTheSame circuit.now m) }
    {
        let parts = copy_parts(alloc, circuit)?;
        let Ok(pairs) = pairs_of(alloc, circuit.gates.as_slice()) else {
            drop(parts); // for the proof
            return Err(OutOfMemory);
        };
        Ok(Machine { parts, pairs })
    }

    /// What runs a circuit: the circuit itself where it is in binary order, and else its binary
    /// image.
    pub fn new(alloc: Global, checked: &Checked) -> Result<Self, OutOfMemory>
        ensures { IfOk result (λ m. MeansTheSame checked.now m) }
    {
        let circuit = checked.circuit();
        if is_in_binary_order(checked) {
            return Machine::of_ordered(alloc, circuit);
        }
        let image = binary_image(alloc, checked, &mut Steps::new())?;
        let made = Machine::of_ordered(alloc, image.as_checked().circuit());
        drop(image); // for the proof
        made
    }

    /// The circuit without its gates.
    pub fn parts(&self) -> &Circuit
        ensures max_var { result.now.max_var ≡ self.now.max_var }
        ensures inputs { result.now.inputs ≡ self.now.inputs }
        ensures latches { result.now.latches ≡ self.now.latches }
        ensures outputs { result.now.outputs ≡ self.now.outputs }
        ensures bad { result.now.bad ≡ self.now.bad }
        ensures constraints { result.now.constraints ≡ self.now.constraints }
        ensures below { ShowsBelow (1 + result.now.max_var) result.now }
        ensures room { length result.now.inputs + length result.now.latches ≤ result.now.max_var }
    {
        &self.parts
    }

    /// The operands of its gates.
    pub fn pairs(&self) -> &[Pair]
        ensures runs { CanRun self.now result.now }
        ensures is { circuit_of self.now result.now ≡ self.now }
    {
        &self.pairs
    }
}

//! How many inputs, latches and gates a set has.
ghost use Rattle.std.specs.Prelude.{◌≡◌};
ghost use Rattle.aig_cone.specs.Counts.{gates_in, inputs_in, latches_in};

use aig_circuit::{Gate, Latch, Var};
use aig_tables::VarSet;

/// How many of these inputs a set has.
pub fn count_inputs(variables: &VarSet, inputs: &[Var]) -> usize
    ensures { result ≡ inputs_in variables.now inputs.now }
{
    let mut count = 0;
    for input in inputs {
        if variables.contains(*input) {
            count += 1;
        }
    }
    count
}

/// How many of these latches a set has.
pub fn count_latches(variables: &VarSet, latches: &[Latch]) -> usize
    ensures { result ≡ latches_in variables.now latches.now }
{
    let mut count = 0;
    for latch in latches {
        if variables.contains(latch.var) {
            count += 1;
        }
    }
    count
}

/// How many of these gates a set has.
pub fn count_gates(variables: &VarSet, gates: &[Gate]) -> usize
    ensures { result ≡ gates_in variables.now gates.now }
{
    let mut count = 0;
    for gate in gates {
        if variables.contains(gate.var) {
            count += 1;
        }
    }
    count
}

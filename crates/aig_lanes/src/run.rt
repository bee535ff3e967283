//! Runs of a circuit from its reset state, and their traces.
ghost use Rattle.std.specs.Prelude.{◌↔◌, IsTrue};
ghost use Rattle.aig_lanes.specs.Runs.{IsRunOf};

use aig_checked::Checked;
use aig_circuit::{Listing, Val};

/// A run from the reset state: the values of the inputs in each step.
#[derive(Drop)]
pub struct Run {
    /// A vector of inputs for each step, with a value for each input in the circuit's order.
    pub steps: Listing<Listing<Val>>,
}

/// What can be seen of a step, list by list in the circuit's order: what a line of a trace shows.
#[derive(Drop)]
pub struct FullRow {
    /// The state before the step.
    pub state: Listing<Val>,
    /// The values of the inputs.
    pub inputs: Listing<Val>,
    /// The values of the outputs.
    pub outputs: Listing<Val>,
    /// The state after the step.
    pub next: Listing<Val>,
    /// The values of bad states.
    pub bad: Listing<Val>,
    /// The values of constraints.
    pub constraints: Listing<Val>,
}

/// What can be seen of a run.
#[derive(Drop)]
pub struct Trace {
    /// A row for each step.
    pub rows: Listing<FullRow>,
}

impl Run {
    /// Whether each vector of inputs has as many values as the circuit has inputs. A run of no
    /// steps fits any circuit.
    pub fn fits(&self, checked: &Checked) -> bool
        ensures { IsTrue result ↔ IsRunOf checked.now self.now }
    {
        let inputs = checked.circuit().inputs.len();
        for vector in self.steps.as_slice() {
            if vector.len() != inputs {
                return false;
            }
        }
        true
    }
}

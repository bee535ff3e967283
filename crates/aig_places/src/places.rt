//! Places of a table for the variables of a circuit.
ghost use Rattle.std.specs.Prelude.{◌≡◌, ◌+◌, ◌*◌, ℕ, List, length};
ghost use Rattle.std.specs.List.{All};
ghost use Rattle.aig_circuit.specs.declared.value.Val.{Val as Value};
ghost use Rattle.aig_places.specs.Lanes.{IsLane};
ghost use Rattle.aig_step.specs.Parts.Tables.{IsLiteralBelow};

use crate::lanes::{evaluate_gates, evaluate_lanes};
use crate::planes::Plane;
use aig_circuit::Gate;
use aig_step::Machine;

/// Where the values of variables stand in a table.
#[derive(Drop)]
pub struct Places {
    /// How many places there are.
    pub count: usize,
    /// The gates over places, in turn, where a place is used again once nothing reads its variable
    /// any more. Else each variable has the place of its number.
    pub(crate) gates: Option<Vec<Gate>>,
}

impl Places {
    ghost use Rattle.aig_places.specs.Places.{ArePlaces, StandFor, evaluated_in_turn};
    ghost use Rattle.aig_places.specs.Places.{gates_of};

    /// For each variable the place of its number.
    pub(crate) fn own(machine: &Machine) -> Places
        ensures places { ArePlaces machine.now result }
        ensures stand { (literals : List ℕ)
            → All (IsLiteralBelow (1 + machine.now.max_var)) literals
            → StandFor machine.now result literals literals }
    {
        let _pairs = machine.pairs(); // for the proof
        Places {
            count: 1 + machine.parts().max_var as usize,
            gates: None,
        }
    }

    /// Puts the value of each gate.
    pub(crate) fn evaluate(&self, machine: &Machine, table: &mut [Plane])
        requires places { ArePlaces machine.now self.now }
        requires room { length table.old ≡ 2 * self.now.count }
        ensures { (l : ℕ) (values : List Value) → IsLane l table.old values → IsLane l table.new
            (evaluated_in_turn (gates_of machine.now self.now) values) }
    {
        match &self.gates {
            Some(gates) => evaluate_gates(gates, table),
            None => evaluate_lanes(machine.pairs(), table),
        }
    }
}

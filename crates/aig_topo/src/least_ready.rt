//! The least ready order.
ghost use Rattle.std.specs.Prelude.{◌≡◌, ◌+◌, ◌*◌, ◌<◌, ◌≤◌, ℕ, length, slice_index, IfOk};
ghost use Rattle.aig_topo.specs.Order.{IsLeastReadyOrder, gate_operands, left_over, operands_over};
ghost use Rattle.aig_topo.specs.Lists.{AreNeedsOf};

use crate::least_ready::ready::Ready;
use crate::least_ready::taking::Search;
use crate::lists::GateNeeds;
use crate::order::Order;
use crate::steps::Steps;
use aig_circuit::{Circuit, LARGEST, OutOfMemory};
use std::alloc::Global;

mod ready;
mod taking;

/// The least ready order of a circuit's gates, by what they need. Each listed gate is one step, and
/// so is each operand over its variable; every gate still waits for its operands over gates that
/// are not listed.
pub fn order_by_needs(
    alloc: Global,
    circuit: &Circuit,
    needs: GateNeeds,
    steps: &mut Steps,
) -> Result<Order, OutOfMemory>
    requires few { length circuit.now.gates ≤ LARGEST }
    requires needs { AreNeedsOf circuit.now.gates needs }
    ensures least { IfOk result (λ order. IsLeastReadyOrder circuit.now order.list) }
    ensures as_many { IfOk result (λ order. length order.waiting ≡ length circuit.now.gates) }
    ensures waiting { IfOk result (λ order. (gate : ℕ) → gate < length circuit.now.gates
        → slice_index order.waiting gate
        ≡ left_over order.list (gate_operands circuit.now.gates gate)) }
    ensures steps { IfOk result (λ order. order.steps
        ≡ length order.list + operands_over circuit.now order.list) }
    ensures counted { IfOk result (λ order. steps.old.count + order.steps ≤ steps.new.count) }
    ensures few { steps.new.count ≤ steps.old.count + 3 * length circuit.now.gates }
{
    let lists = needs.lists;
    let order = Order::waiting_for(alloc, needs.counts, steps)?;
    let ready = Ready::new(alloc, circuit.gates.len() as u32)?;
    let mut search = Search {
        order,
        lists,
        ready,
        seen: 0,
    };
    search.look_at_all();
    Ok(search.order)
}

/// The least ready order of a circuit's gates. Each listed gate is one step, and so is each operand
/// over its variable; every gate still waits for its operands over gates that are not listed.
pub fn gate_order(alloc: Global, circuit: &Circuit, steps: &mut Steps) -> Result<Order, OutOfMemory>
    requires { length circuit.now.gates ≤ LARGEST }
    ensures least { IfOk result (λ order. IsLeastReadyOrder circuit.now order.list) }
    ensures as_many { IfOk result (λ order. length order.waiting ≡ length circuit.now.gates) }
    ensures waiting { IfOk result (λ order. (gate : ℕ) → gate < length circuit.now.gates
        → slice_index order.waiting gate
        ≡ left_over order.list (gate_operands circuit.now.gates gate)) }
    ensures steps { IfOk result (λ order. order.steps
        ≡ length order.list + operands_over circuit.now order.list) }
    ensures counted { IfOk result (λ order. steps.old.count + order.steps ≤ steps.new.count) }
    ensures few { steps.new.count ≤ steps.old.count + 3 * length circuit.now.gates }
{
    let needs = GateNeeds::new(alloc, circuit)?;
    order_by_needs(alloc, circuit, needs, steps)
}

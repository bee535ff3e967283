//! Orders of gates.
use crate::calls::circuit_of;
use crate::forms::numbers_of;
use aig_core::{Circuit, Gate, LARGEST, Listing, Lit, Order, Steps, gate_order};
use std::alloc::Global;
use std::test::Fail;

/// Gates, the positions of those in their order, and how many steps it takes.
const ORDERS: &str = "\
6 10 2,8 2 4,10 4 2:1 2 0 4;\
6 8 2,8 4 2,10 4 2:1 0 2 4;\
4 6 2,6 4 2:0;\
4 6 2,6 4 2,8 2 2,10 8 9:2 3 4";

fn gates_of(alloc: Global, row: &str) -> Result<Listing<Gate>, Fail> {
    let mut gates = Listing::new(alloc);
    for gate in row.split(',') {
        let numbers = numbers_of(alloc, gate)?;
        let [own, left, right] = *numbers.as_slice() else {
            return Err("a gate has three numbers")?;
        };
        gates.push(Gate {
            var: Lit(own).var(),
            left: Lit(left),
            right: Lit(right),
        })?;
    }
    Ok(gates)
}

/// A circuit of two inputs with these gates, which may lie on a cycle.
fn circuit_with(alloc: Global, gates: Listing<Gate>) -> Result<Circuit, Fail> {
    let mut circuit = circuit_of(alloc, "aag 5 2 0 0 0\n2\n4\n")?;
    circuit.gates = gates;
    Ok(circuit)
}

fn begins_empty(alloc: Global, circuit: &Circuit) -> bool {
    if circuit.gates.len() > LARGEST as usize {
        return false;
    }
    match Order::new(alloc, circuit, &mut Steps::new()) {
        Ok(begun) => begun.list().is_empty() && begun.steps() == 0,
        Err(_) => false,
    }
}

fn has_order(alloc: Global, circuit: &Circuit, list: &[u32], steps: u32) -> bool {
    if circuit.gates.len() > LARGEST as usize {
        return false;
    }
    match gate_order(alloc, circuit, &mut Steps::new()) {
        Ok(order) => order.list() == list && order.steps() == u64::from(steps),
        Err(_) => false,
    }
}

/// Whether a circuit's gates have the order of an answer, and none before.
fn has_answer(alloc: Global, circuit: &Circuit, answer: &[u32]) -> bool {
    let [list @ .., steps] = answer else {
        return false;
    };
    begins_empty(alloc, circuit) && has_order(alloc, circuit, list, *steps)
}

fn is_answered(alloc: Global, circuit: &Circuit, answer: &str) -> Result<bool, Fail> {
    let numbers = numbers_of(alloc, answer)?;
    Ok(has_answer(alloc, circuit, numbers.as_slice()))
}

#[test]
fn orders_of_gates(rt: HostRuntime) -> Result<(), Fail> {
    for row in ORDERS.split(';') {
        let (gates, answer) = row.split_once(':').unwrap_or((row, ""));
        let circuit = circuit_with(rt.alloc(), gates_of(rt.alloc(), gates)?)?;
        let is_answered = is_answered(rt.alloc(), &circuit, answer);
        drop(circuit); // for the proof
        assert!(rt; is_answered?, "{row}");
    }
    Ok(())
}

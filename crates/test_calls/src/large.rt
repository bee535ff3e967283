//! Calls over large circuits. What comes is in the contracts; that memory suffices is not.
use crate::calls::circuit_of;
use crate::copies::{checked_of, same_as_copy};
use aig_core::{Circuit, Gate, Keep, LARGEST, Lit, Order, Steps, Var, gate_order};
use aig_text::{Limits, read_ascii};
use std::alloc::{AllocError, AllocFailed, Global};
use std::test::Fail;

/// How many gates a circuit has, and how many bytes a comment.
const GATES: u32 = 1_000_000;

const BYTES: usize = 70_000_000;

/// Puts in gates, each before the one that it is over. The last is over the input.
fn push_chain(circuit: &mut Circuit) -> Result<(), AllocFailed<Gate>> {
    for behind in 0..GATES {
        circuit.gates.push(Gate {
            var: Var(GATES + 1 - behind),
            left: Lit(2 * (GATES - behind)),
            right: Lit(2),
        })?;
    }
    Ok(())
}

fn gate_chain(alloc: Global) -> Result<Circuit, Fail> {
    let mut circuit = circuit_of(alloc, "aag 1000001 1 0 0 0\n2\n")?;
    push_chain(&mut circuit)?;
    Ok(circuit)
}

/// Whether the gates have an order, with each of them.
fn has_order(alloc: Global, circuit: &Circuit) -> bool {
    if circuit.gates.len() > LARGEST as usize
        || Order::new(alloc, circuit, &mut Steps::new()).is_err()
    {
        return false;
    }
    gate_order(alloc, circuit, &mut Steps::new()).is_ok_and(|order| order.list().len()
        == circuit.gates.len())
}

#[test]
fn a_million_gates_have_an_order(rt: HostRuntime) -> Result<(), Fail> {
    let circuit = gate_chain(rt.alloc())?;
    let has_order = has_order(rt.alloc(), &circuit);
    drop(circuit); // for the proof
    assert!(rt; has_order);
    Ok(())
}

#[test]
fn a_million_gates_are_checked(rt: HostRuntime) -> Result<(), Fail> {
    let checked = checked_of(rt.alloc(), gate_chain(rt.alloc())?)?;
    let same = same_as_copy(rt.alloc(), &checked, &checked);
    drop(checked); // for the proof
    assert!(rt; same?);
    Ok(())
}

fn commented_text(alloc: Global) -> Result<Vec<u8>, AllocError> {
    let mut text = Vec::from_slice(alloc, b"aag 0 0 0 0 0\nc\n")?;
    let piece = vec![in alloc; b'c'; BYTES / 1_000]?;
    for _ in 0..1_000 {
        text.extend_from_slice(&piece)?;
    }
    Ok(text)
}

#[test]
fn a_large_file_is_read(rt: HostRuntime) -> Result<(), Fail> {
    let text = commented_text(rt.alloc())?;
    assert!(rt; read_ascii(rt.alloc(), &text, Limits::default(), Keep::Circuit).is_ok());
    Ok(())
}

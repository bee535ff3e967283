//! Steps of a simulator.
use crate::values::value_of;
use aig_core::{Keep, Val};
use aig_sim::Simulator;
use aig_text::{Limits, read_ascii};
use std::alloc::{AllocError, Global};

/// Circuits, and what their steps show, a line each: state, inputs, outputs, next state, bad states
/// and constraints. A line `.` is a reset.
const STEPS: &str = "\
aag 1 0 1 2 0
2 3
2
3
=0  01 1  
1  10 0  
.
0  01 1  
#aag 2 1 1 1 0 1 1
2
4 2 1
4
5
2
=1 0 1 0 0 0
0 x 0 x 1 x
x 1 x 1 x 1
.
1 1 1 1 0 1
#aag 3 1 1 1 1 1
2
4 6 4
6
4
6 4 3
=x 0 x x x 
x 1 0 0 x 
0 0 0 0 0 
.
x x x x x ";

fn values_of(alloc: Global, text: &str) -> Result<Vec<Val>, AllocError> {
    let mut values = Vec::new(alloc);
    for byte in text.as_bytes() {
        values.push(value_of(*byte))?;
    }
    Ok(values)
}

fn are(values: &[Val], text: &str) -> bool {
    let mut bytes = text.as_bytes();
    for value in values {
        let [byte, rest @ ..] = bytes else {
            return false;
        };
        if *value != value_of(*byte) {
            return false;
        }
        bytes = rest;
    }
    bytes.is_empty()
}

fn column(row: &str, at: usize) -> &str {
    row.split(' ').nth(at).unwrap_or("")
}

fn shows(simulator: &Simulator, row: &str) -> bool {
    match simulator.row() {
        Some(shown) => {
            are(shown.state, column(row, 0))
                && are(shown.outputs, column(row, 2))
                && are(shown.next, column(row, 3))
                && are(shown.bad, column(row, 4))
                && are(shown.constraints, column(row, 5))
        }
        None => false,
    }
}

fn simulator_of(alloc: Global, text: &str) -> Option<Simulator> {
    let circuit = read_ascii(alloc, text.as_bytes(), Limits::default(), Keep::Circuit).ok()?;
    let made = Simulator::new(alloc, &circuit);
    drop(circuit); // for the proof
    made.ok()
}

fn steps_to(simulator: &mut Simulator, given: &[Val], row: &str) -> bool {
    if given.len() != simulator.count_inputs() {
        return false;
    }
    simulator.step(given);
    shows(simulator, row)
}

/// Takes a step, or goes back to the reset state, and answers whether the row is shown then.
fn takes(alloc: Global, simulator: &mut Simulator, row: &str) -> bool {
    if row == "." {
        simulator.reset();
        return simulator.row().is_none();
    }
    match values_of(alloc, column(row, 1)) {
        Ok(given) => steps_to(simulator, given.as_slice(), row),
        Err(_) => false,
    }
}

/// The first row that is not shown after its step, if there is one.
fn first_wrong_row<'t>(alloc: Global, simulator: &mut Simulator, rows: &'t str) -> Option<&'t str> {
    if simulator.row().is_some() {
        return Some("a row before the first step");
    }
    for row in rows.lines() {
        if !takes(alloc, simulator, row) {
            return Some(row);
        }
    }
    None
}

fn first_wrong_of<'t>(alloc: Global, text: &str, rows: &'t str) -> Option<&'t str> {
    match simulator_of(alloc, text) {
        Some(mut simulator) => {
            let wrong = first_wrong_row(alloc, &mut simulator, rows);
            drop(simulator); // for the proof
            wrong
        }
        None => Some("no simulator"),
    }
}

#[test]
fn steps(rt: HostRuntime) {
    for table in STEPS.split('#') {
        let (text, rows) = table.split_once('=').unwrap_or((table, "no rows"));
        let wrong = first_wrong_of(rt.alloc(), text, rows);
        assert!(rt; wrong.is_none(), "{text}: {}", wrong.unwrap_or(""));
    }
}

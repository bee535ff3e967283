//! Engines over large files, whose requests are made here. What comes is in the contracts; that
//! memory suffices is not.
ghost use Rattle.std.specs.Prelude.{◌≡◌, false, IfSome};

use aig_core::{LARGEST, MemorySink, MemorySource};
use aig_tools::{
    BadStates, Sim, ToAig, Unroll, UnrolledForm, run_sim, run_toaig, run_unroll, run_witness,
};
use std::alloc::{AllocError, Global};

/// How many lines each section of a circuit has, how many bytes a comment, and how many frames and
/// runs there are.
const LINES: u32 = 5_000;

const BYTES: usize = 70_000_000;

const FRAMES: u32 = 1_000;

const RUNS: u32 = 1_000;

const TO_AIG: ToAig = ToAig {
    ascii: true,
    strip: false,
    keep_map: false,
    undo_map: false,
    bad_states: BadStates::Kept,
    simplify: false,
    max_var: LARGEST,
};

fn sim(witness: bool) -> Sim
    ensures asked { result.witness ≡ witness }
    ensures alone { (result.batch ≡ false) × (result.properties ≡ false) }
{
    Sim {
        batch: false,
        properties: false,
        witness,
        vcd: false,
        max_var: LARGEST,
    }
}

fn frames(frames: u32) -> Unroll
    ensures { result.frames ≡ frames }
{
    Unroll {
        frames,
        form: UnrolledForm::Ascii,
        simplify: false,
        max_var: LARGEST,
    }
}

/// Puts a line for each of so many variables from this one on: its literal and this end.
fn push_lines(alloc: Global, text: &mut Vec<u8>, first: u32, end: &str) -> Result<(), AllocError> {
    for place in 0..LINES {
        let literal = first.saturating_add(place).saturating_mul(2);
        let line = format!(in alloc; "{literal}{end}\n")?;
        text.extend_from_slice(line.as_bytes())?;
    }
    Ok(())
}

/// Puts the sections: inputs, latches of which each starts at 0 and is the first input then, and
/// all latches as outputs and as bad states.
fn put_circuit(alloc: Global, text: &mut Vec<u8>) -> Result<(), AllocError> {
    text.extend_from_slice(b"aag 10000 5000 5000 5000 0 5000\n")?;
    push_lines(alloc, text, 1, "")?;
    push_lines(alloc, text, LINES + 1, " 2")?;
    push_lines(alloc, text, LINES + 1, "")?;
    push_lines(alloc, text, LINES + 1, "")
}

fn push_comment(alloc: Global, text: &mut Vec<u8>) -> Result<(), AllocError> {
    let piece = vec![in alloc; b'c'; BYTES / 1_000]?;
    for _ in 0..1_000 {
        text.extend_from_slice(&piece)?;
    }
    Ok(())
}

/// Puts a line of ones, and so many lines with a dot.
fn push_runs(alloc: Global, text: &mut Vec<u8>) -> Result<(), AllocError> {
    text.extend_from_slice(&vec![in alloc; b'1'; LINES as usize]?)?;
    for _ in 0..RUNS {
        text.extend_from_slice(b"\n.")?;
    }
    Ok(())
}

/// Puts a witness, by which the last latch is 1 in the second step.
fn put_witness(alloc: Global, text: &mut Vec<u8>) -> Result<(), AllocError> {
    text.extend_from_slice(b"1\nb4999\n")?;
    text.extend_from_slice(&vec![in alloc; b'0'; LINES as usize]?)?;
    for _ in 0..2 {
        text.extend_from_slice(b"\n")?;
        text.extend_from_slice(&vec![in alloc; b'1'; LINES as usize]?)?;
    }
    text.extend_from_slice(b"\n.\n")
}

fn source_of(text: Vec<u8>) -> Option<MemorySource>
    ensures { IfSome result (λ source. source.history.failures ≡ 0) }
{
    if text.len() > 100_000_000 {
        return None;
    }
    Some(MemorySource::new(text, 30_000, 0))
}

fn circuit(alloc: Global) -> Option<MemorySource>
    ensures { IfSome result (λ source. source.history.failures ≡ 0) }
{
    let mut text = Vec::new(alloc);
    put_circuit(alloc, &mut text).ok()?;
    source_of(text)
}

fn converts(alloc: Global) -> Option<bool> {
    let mut text = Vec::from_slice(alloc, b"aag 0 0 0 0 0\nc\n").ok()?;
    push_comment(alloc, &mut text).ok()?;
    let mut source = source_of(text)?;
    let mut sink = MemorySink::new(alloc, 2 * BYTES, 30_000, 0).ok()?;
    Some(run_toaig(alloc, &TO_AIG, &mut source, &mut sink).is_ok())
}

#[test]
fn a_large_file_is_converted(rt: HostRuntime) {
    assert!(rt; converts(rt.alloc()) == Some(true));
}

/// Whether the circuit is unrolled over two frames.
fn unrolls(alloc: Global) -> Option<bool> {
    let mut source = circuit(alloc)?;
    let mut sink = MemorySink::new(alloc, 1_000_000, 30_000, 0).ok()?;
    Some(run_unroll(alloc, &frames(2), &mut source, &mut sink).is_ok())
}

/// Whether a latch with a gate is unrolled over many frames.
fn goes_on(alloc: Global) -> Option<bool> {
    let latch = b"aag 3 1 1 1 1\n2\n4 6 1\n4\n6 4 2\n";
    let mut source = source_of(Vec::from_slice(alloc, latch).ok()?)?;
    let mut sink = MemorySink::new(alloc, 1_000_000, 30_000, 0).ok()?;
    Some(run_unroll(alloc, &frames(FRAMES), &mut source, &mut sink).is_ok())
}

#[test]
fn a_large_file_is_unrolled(rt: HostRuntime) {
    assert!(rt; unrolls(rt.alloc()) == Some(true));
    assert!(rt; goes_on(rt.alloc()) == Some(true));
}

fn simulates(alloc: Global) -> Option<bool> {
    let mut model = circuit(alloc)?;
    let mut text = Vec::new(alloc);
    push_runs(alloc, &mut text).ok()?;
    let mut stimulus = source_of(text)?;
    let mut sink = MemorySink::new(alloc, 1_000_000, 30_000, 0).ok()?;
    Some(run_sim(alloc, &sim(false), &mut model, &mut stimulus, &mut sink).is_ok())
}

#[test]
fn many_runs_are_simulated(rt: HostRuntime) {
    assert!(rt; simulates(rt.alloc()) == Some(true));
}

/// Whether the witness is judged.
fn judges(alloc: Global) -> Option<bool> {
    let mut model = circuit(alloc)?;
    let mut text = Vec::new(alloc);
    put_witness(alloc, &mut text).ok()?;
    let mut witness = source_of(text)?;
    let mut sink = MemorySink::new(alloc, 100, 100, 0).ok()?;
    Some(run_witness(alloc, &sim(true), &mut model, &mut witness, &mut sink).is_ok())
}

#[test]
fn a_long_witness_is_judged(rt: HostRuntime) {
    assert!(rt; judges(rt.alloc()) == Some(true));
}

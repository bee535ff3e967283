//! Conversions whose requests are made here, without a command line.
use aig_core::{LARGEST, MemorySink, MemorySource};
use aig_tools::{BadStates, ToAig, run_toaig};
use std::alloc::Global;

/// A conversion to binary that leaves symbols and comment out.
const STRIP: ToAig = ToAig {
    ascii: false,
    strip: true,
    keep_map: false,
    undo_map: false,
    bad_states: BadStates::Kept,
    simplify: false,
    max_var: LARGEST,
};

/// A conversion to binary with fewer gates.
const SIMPLIFY: ToAig = ToAig {
    ascii: false,
    strip: false,
    keep_map: false,
    undo_map: false,
    bad_states: BadStates::Kept,
    simplify: true,
    max_var: LARGEST,
};

/// A text with names, and what is written of it without them.
const NAMED: &[u8] =
    b"aag 7 2 0 2 3\n2\n4\n6\n12\n6 13 15\n12 2 4\n14 3 5\ni0 x\ni1 y\no0 s\no1 c\nc\nhalf adder\n";

const STRIPPED: &str = "aig 5 2 0 2 3\n10\n6\n\u{2}\u{2}\u{3}\u{2}\u{1}\u{2}";

/// A gate that is its input, and one over it; and what is left.
const FOLDED: &[u8] = b"aag 3 1 0 1 2\n2\n6\n4 2 1\n6 4 3\no0 x\n";

const SIMPLE: &str = "aig 2 1 0 1 1\n4\n\u{1}\u{1}o0 x\n";

fn converts(alloc: Global) -> Option<bool> {
    let mut source = MemorySource::new(Vec::from_slice(alloc, NAMED).ok()?, 7, 0);
    let mut sink = MemorySink::new(alloc, 100, 7, 0).ok()?;
    let converted = run_toaig(alloc, &STRIP, &mut source, &mut sink).is_ok();
    Some(converted && sink.bytes() == STRIPPED.as_bytes())
}

fn simplifies(alloc: Global) -> Option<bool> {
    let mut source = MemorySource::new(Vec::from_slice(alloc, FOLDED).ok()?, 7, 0);
    let mut sink = MemorySink::new(alloc, 100, 7, 0).ok()?;
    let converted = run_toaig(alloc, &SIMPLIFY, &mut source, &mut sink).is_ok();
    Some(converted && sink.bytes() == SIMPLE.as_bytes())
}

#[test]
fn names_are_left_out(rt: HostRuntime) {
    assert!(rt; converts(rt.alloc()) == Some(true));
}

#[test]
fn gates_go(rt: HostRuntime) {
    assert!(rt; simplifies(rt.alloc()) == Some(true));
}

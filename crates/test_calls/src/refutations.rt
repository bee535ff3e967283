//! Refutations that are accepted and refused: that they are accepted no contract says.
use crate::calls::circuit_of;
use aig_core::{Circuit, MemorySource};
use aig_fault::Stopped;
use aig_refute::{RefutationFormat, check_refutation};
use std::alloc::Global;
use std::test::Fail;

/// The bad state is that of two inputs no pair of values is had.
const NO_PAIR: &str =
    "aag 9 2 0 0 7 1\n2\n4\n18\n6 3 5\n8 3 4\n10 2 5\n12 2 4\n14 7 9\n16 11 13\n18 14 16\n";

/// The bad state is an input and its negation: unit propagation refutes that.
const NOT_BOTH: &str = "aag 2 1 0 0 1 1\n2\n4\n4 2 3\n";

/// Refutations of `NO_PAIR` as a solver writes them and by hand, and what is said of them.
const REFUTATIONS: &str = "\
8 0\n9 0\n-4 0\n-5 0\n-6 0\n-7 0\n-3 0\n2 0\n0\n=refuted;\
a\x10\x00a\x12\x00a\x09\x00a\x0b\x00a\x0d\x00a\x0f\x00a\x07\x00a\x04\x00a\x00=refuted;\
d 8 -10 0\nc 9 0\n2 0=refuted;\
d\x10\x15\x00a\x04\x00=refuted;\
-2 0 d 2 3 0 4 0=refuted;\
2 0\nno line\n=refuted;\
=no refutation;\
8 0\n9 0\n=no refutation;\
8 0\nc\n1 0\n=line 3: does not follow;\
a\x10\x00a\x02\x00=line 2: does not follow;\
11 -2 -3 0\n-11 2 0\n-11 3 0\n-11 4 0\n8 0\n9 0\n-4 0\n-5 0\n-6 0\n-7 0\n-3 0\n2 0\n0\n=refuted;\
a\x16\x05\x07\x00a\x17\x04\x00=no refutation;\
8 0\n11 12 0\n-11 0\n=line 3: does not follow;\
-10 11 0\n=line 1: does not follow;\
8 0\n13 0\n=line 2: bad line;\
8 0\n9 -0\n=line 2: bad line;\
8 0\n9 x 0\n=line 2: bad line;\
a\x10\x00b\x02\x00=line 2: bad line;\
a\x18\x00=line 1: bad line;\
a\x10\x7f=line 1: bad line";

/// The same in LRAT: with right hints, with others and without, with deletions, and with bad lines.
const NUMBERED_REFUTATIONS: &str = "\
24 3 2 0 23 21 15 4 0\n25 2 0 23 21 14 15 7 4 0\n26 0 23 20 17 18 25 13 10 0\n=refuted;\
24 d 4 7 0\n24 3 2 0 15 4 0\r\nc 25\n24 d 24 0\n900 2 0 4 15 -7 0=refuted;\
7 3 2 0 0\n7 2 0 99 0=refuted;\
24 8 0 21 0 25 -3 0 99999999999999999999 0\n25 2 0 4 0\n=refuted;\
24 11 -2 -3 0 0\n25 -11 2 0 -24 0\n26 -11 3 0 -24 0\n27 2 0 0\n=refuted;\
24 3 2 0 23 21 15 4 0\n=no refutation;\
24 3 2 0 15 4 0\n25 2=no refutation;\
24 3 2 0=no refutation;\
24 8 0 21 0\n25 1 0 1 0\n=line 2: does not follow;\
24 0 23 20 0\n=line 1: does not follow;\
2 0\n0\n=line 2: does not follow;\
7 2 3 0 0\n0 2 0=line 2: bad line;\
0 2 0 0\n=line 1: bad line;\
-24 2 0 0\n=line 1: bad line;\
24 12 0 0\n=line 1: bad line;\
24 2 d 4 0\n=line 1: bad line;\
24 d -4 0\n=line 1: bad line;\
24 8 0 c 0\n=line 1: bad line;\
24 8 0 21 x=line 1: bad line;\
d 8 -10 0\n2 0=line 1: bad line;\
a\x10\x00a\x04\x00=line 1: bad line";

/// What is said of a refutation that comes in pieces of three bytes.
fn check_in_pieces(
    alloc: Global,
    format: RefutationFormat,
    circuit: &Circuit,
    refutation: &str,
    fails_at: u64,
) -> Option<Result<(), Stopped>> {
    let bytes = Vec::from_slice(alloc, refutation.as_bytes()).ok()?;
    if bytes.len() > 1000 {
        return None;
    }
    let mut source = MemorySource::new(bytes, 3, fails_at);
    Some(check_refutation(alloc, format, circuit, &mut source))
}

/// Whether this is said of it.
fn comes_to(
    alloc: Global,
    format: RefutationFormat,
    circuit: &Circuit,
    refutation: &str,
    fails_at: u64,
    said: &str,
) -> bool {
    match check_in_pieces(alloc, format, circuit, refutation, fails_at) {
        Some(Ok(())) => said == "refuted",
        Some(Err(stopped)) => match format!(in alloc; "{stopped}") {
            Ok(told) => told.as_str() == said,
            Err(_) => false,
        },
        None => false,
    }
}

#[test]
fn refutations(rt: HostRuntime) -> Result<(), Fail> {
    let format = RefutationFormat::Drat;
    for row in REFUTATIONS.split(';') {
        let (refutation, said) = row.split_once('=').unwrap_or((row, ""));
        let circuit = circuit_of(rt.alloc(), NO_PAIR)?;
        let is_said = comes_to(rt.alloc(), format, &circuit, refutation, 0, said);
        drop(circuit); // for the proof
        assert!(rt; is_said, "{refutation}{said}");
    }
    Ok(())
}

#[test]
fn numbered_refutations(rt: HostRuntime) -> Result<(), Fail> {
    let format = RefutationFormat::Lrat;
    for row in NUMBERED_REFUTATIONS.split(';') {
        let (refutation, said) = row.split_once('=').unwrap_or((row, ""));
        let circuit = circuit_of(rt.alloc(), NO_PAIR)?;
        let is_said = comes_to(rt.alloc(), format, &circuit, refutation, 0, said);
        drop(circuit); // for the proof
        assert!(rt; is_said, "{refutation}{said}");
    }
    Ok(())
}

/// A source that fails is told of; where the clauses need no refutation, it may say anything.
#[test]
fn refutations_unneeded(rt: HostRuntime) -> Result<(), Fail> {
    let format = RefutationFormat::Drat;
    let circuit = circuit_of(rt.alloc(), NO_PAIR)?;
    let fails = comes_to(rt.alloc(), format, &circuit, "8 0\n2 0\n", 2, "cannot read");
    drop(circuit); // for the proof
    let circuit = circuit_of(rt.alloc(), NOT_BOTH)?;
    let is_refuted = comes_to(rt.alloc(), format, &circuit, "no line", 0, "refuted");
    drop(circuit); // for the proof
    assert!(rt; fails && is_refuted);
    Ok(())
}

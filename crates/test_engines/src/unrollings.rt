//! Unrollings whose requests are made here, without a command line.
use aig_core::{LARGEST, MemorySink, MemorySource};
use aig_tools::{Unroll, UnrolledForm, run_unroll};
use std::alloc::Global;

/// An unrolling over three frames, in ASCII.
const THREE_FRAMES: Unroll = Unroll {
    frames: 3,
    form: UnrolledForm::Ascii,
    simplify: false,
    max_var: LARGEST,
};

/// The same, simplified.
const SIMPLY: Unroll = Unroll {
    frames: 3,
    form: UnrolledForm::Ascii,
    simplify: true,
    max_var: LARGEST,
};

const LATCH: &[u8] = b"aag 3 1 1 1 1\n2\n4 6 1\n4\n6 4 2\n";

const UNROLLED: &str = "aag 6 3 0 3 3\n2\n4\n6\n1\n8\n10\n8 2 1\n10 8 4\n12 10 6\n";

const SIMPLE: &str = "aag 4 3 0 3 1\n2\n4\n6\n1\n2\n8\n8 4 2\n";

fn unrolls(alloc: Global) -> Option<bool> {
    let mut source = MemorySource::new(Vec::from_slice(alloc, LATCH).ok()?, 7, 0);
    let mut sink = MemorySink::new(alloc, 100, 7, 0).ok()?;
    let unrolled = run_unroll(alloc, &THREE_FRAMES, &mut source, &mut sink).is_ok();
    Some(unrolled && sink.bytes() == UNROLLED.as_bytes())
}

fn simplifies(alloc: Global) -> Option<bool> {
    let mut source = MemorySource::new(Vec::from_slice(alloc, LATCH).ok()?, 7, 0);
    let mut sink = MemorySink::new(alloc, 100, 7, 0).ok()?;
    let unrolled = run_unroll(alloc, &SIMPLY, &mut source, &mut sink).is_ok();
    Some(unrolled && sink.bytes() == SIMPLE.as_bytes())
}

#[test]
fn latches_go_on(rt: HostRuntime) {
    assert!(rt; unrolls(rt.alloc()) == Some(true));
}

#[test]
fn resets_go_through(rt: HostRuntime) {
    assert!(rt; simplifies(rt.alloc()) == Some(true));
}

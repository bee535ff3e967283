//! Large circuits that are converted, undone and unrolled. What comes is in the contracts; that
//! memory suffices is not.
use aig_convert::{to_binary, to_binary_with_map, undo};
use aig_core::{Checked, Keep, Steps};
use aig_text::{Limits, read_ascii};
use aig_unroll::unroll;
use std::alloc::{AllocError, Global};
use std::test::Fail;

/// How many gates a circuit has, and over how many frames a latch is unrolled.
const GATES: u32 = 100_000;

const FRAMES: u32 = 1_000;

/// The text of gates, each before the one that it is over. The last is over the input.
fn chain_text(alloc: Global) -> Result<String, AllocError> {
    let mut text = format!(in alloc; "aag {} 1 0 0 {GATES}\n2\n", GATES + 1)?;
    for behind in 0..GATES {
        let below = 2 * (GATES - behind);
        let line = format!(in alloc; "{} {below} 2\n", below + 2)?;
        text.push_str(line.as_str())?;
    }
    Ok(text)
}

fn gate_chain(alloc: Global) -> Result<Checked, Fail> {
    let text = chain_text(alloc)?;
    let limits = Limits::default();
    let read = read_ascii(alloc, text.as_str().as_bytes(), limits, Keep::Circuit);
    drop(text); // for the proof
    Ok(read?)
}

fn comes_back(alloc: Global, checked: &Checked) -> Result<bool, Fail> {
    let image = to_binary_with_map(alloc, checked, &mut Steps::new())?;
    Ok(undo(alloc, image.into_checked()).is_ok())
}

#[test]
fn many_gates_are_put_in_order(rt: HostRuntime) -> Result<(), Fail> {
    let checked = gate_chain(rt.alloc())?;
    let has_image = to_binary(rt.alloc(), &checked, &mut Steps::new()).is_ok();
    let comes_back = comes_back(rt.alloc(), &checked);
    drop(checked); // for the proof
    assert!(rt; comes_back? && has_image);
    Ok(())
}

#[test]
fn many_frames_are_unrolled(rt: HostRuntime) -> Result<(), Fail> {
    let text = b"aag 3 1 1 1 1 1\n2\n4 6 1\n6\n7\n6 4 2\n";
    let checked = read_ascii(rt.alloc(), text, Limits::default(), Keep::Circuit)?;
    let is_unrolled = unroll(rt.alloc(), &checked, FRAMES).is_ok();
    drop(checked); // for the proof
    assert!(rt; is_unrolled);
    Ok(())
}

#[test]
fn many_gates_are_unrolled(rt: HostRuntime) -> Result<(), Fail> {
    let checked = gate_chain(rt.alloc())?;
    let is_unrolled = unroll(rt.alloc(), &checked, 2).is_ok();
    drop(checked); // for the proof
    assert!(rt; is_unrolled);
    Ok(())
}

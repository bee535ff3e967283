//! Circuits of one latch, and the verdicts on their runs.
use aig_core::Keep;
use aig_lasso::{HeldRun, LassoVerdict, judge_lasso};
use aig_text::{Limits, read_ascii};
use std::alloc::Global;

/// A latch that turns round; the goal is that it is 1.
const TURNS: &[u8] = b"aag 1 0 1 0 0 1\n2 3\n2\n";

/// A latch that is 1 from the second step on; the goal is that it is 1.
const STAYS: &[u8] = b"aag 1 0 1 0 0 1\n2 1\n2\n";

/// The verdict on so many steps from the state in which the latch is 0.
fn verdict(alloc: Global, circuit: &[u8], steps: u64) -> Option<LassoVerdict> {
    let goals = read_ascii(alloc, circuit, Limits::default(), Keep::Circuit).ok()?;
    let mut run = HeldRun::from_state(alloc, b"0", 0).ok()??;
    for _ in 0..steps {
        run.push_step(b"").ok()?;
    }
    judge_lasso(alloc, &goals, &run).ok()
}

#[test]
fn loops_are_confirmed(rt: HostRuntime) {
    assert!(rt; verdict(rt.alloc(), TURNS, 2) == Some(LassoVerdict::Confirmed(0)));
    assert!(rt; verdict(rt.alloc(), TURNS, 3) == Some(LassoVerdict::Confirmed(1)));
    assert!(rt; verdict(rt.alloc(), STAYS, 2) == Some(LassoVerdict::Confirmed(1)));
}

#[test]
fn open_runs_are_not(rt: HostRuntime) {
    assert!(rt; verdict(rt.alloc(), TURNS, 1) == Some(LassoVerdict::NotConfirmed));
    assert!(rt; verdict(rt.alloc(), STAYS, 0) == Some(LassoVerdict::NotConfirmed));
}

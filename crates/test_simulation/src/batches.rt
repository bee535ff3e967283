//! Many runs side by side. What comes is in the contract; that memory suffices is not.
ghost use Rattle.std.specs.Prelude.{◌≡◌, true};
ghost use Rattle.std.specs.List.{All};
ghost use Rattle.aig_sim.specs.Runs.{IsRunOf};

use aig_core::{Checked, Keep, Listing, Val};
use aig_sim::{Run, simulate_batch};
use aig_text::{Limits, read_ascii};
use std::alloc::Global;
use std::test::Fail;

/// A register: its next state is the input, and its output the state.
const REGISTER: &str = "aag 2 1 1 1 0\n2\n4 2\n4\n";

/// A run of so many steps.
fn run_of(alloc: Global, steps: usize) -> Option<Run> {
    let mut run = Run {
        steps: Listing::new(alloc),
    };
    for _ in 0..steps {
        let vector = Vec::from_slice(alloc, &[Val::One]).ok()?;
        run.steps.push(Listing::from_vec(vector)).ok()?;
    }
    Some(run)
}

/// So many runs, of 0 to 40 steps.
fn runs_of(alloc: Global, count: usize) -> Option<Vec<Run>> {
    let mut runs = Vec::new(alloc);
    for n in 0..count {
        runs.push(run_of(alloc, n % 41)?).ok()?;
    }
    Some(runs)
}

fn all_fit(circuit: &Checked, runs: &[Run]) -> bool
    ensures { result ≡ true → All (IsRunOf circuit.now) runs.now }
{
    runs.iter().all(|run| run.fits(circuit))
}

fn are_simulated(alloc: Global, circuit: &Checked, count: usize) -> bool {
    match runs_of(alloc, count) {
        Some(runs) => all_fit(circuit, &runs) && simulate_batch(alloc, circuit, &runs).is_ok(),
        None => false,
    }
}

fn first_refused(alloc: Global, circuit: &Checked, counts: &[usize]) -> Option<usize> {
    for count in counts {
        if !are_simulated(alloc, circuit, *count) {
            return Some(*count);
        }
    }
    None
}

#[test]
fn batches(rt: HostRuntime) -> Result<(), Fail> {
    let limits = Limits::default();
    let circuit = read_ascii(rt.alloc(), REGISTER.as_bytes(), limits, Keep::Circuit)?;
    let refused = first_refused(rt.alloc(), &circuit, &[0, 1, 255, 256, 257, 600, 1_000]);
    drop(circuit); // for the proof
    assert!(rt; refused.is_none(), "{} runs", refused.unwrap_or(0));
    Ok(())
}

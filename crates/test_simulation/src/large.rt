//! Many latches and inputs. What comes is in the contracts; that memory suffices is not.
ghost use Rattle.std.specs.Prelude.{◌≡◌, true};
ghost use Rattle.aig_sim.specs.Runs.{IsRunOf};

use aig_core::{Checked, Keep, Listing, Val};
use aig_sim::{Run, Simulator, simulate_batch};
use aig_text::{Limits, read_ascii};
use std::alloc::{AllocError, Global};
use std::test::Fail;

/// How many latches, inputs and outputs there are.
const WIDTH: u32 = 5_000;

/// Puts a line for each of so many variables from this one on: its literal and this end.
fn push_lines(alloc: Global, text: &mut String, first: u32, end: &str) -> Result<(), AllocError> {
    for place in 0..WIDTH {
        let literal = first.saturating_add(place).saturating_mul(2);
        let line = format!(in alloc; "{literal}{end}\n")?;
        text.push_str(line.as_str())?;
    }
    Ok(())
}

/// The text of latches, each of which is the first input then, and an output.
fn wide_text(alloc: Global) -> Result<String, AllocError> {
    let mut text = format!(in alloc; "aag {} {WIDTH} {WIDTH} {WIDTH} 0\n", 2 * WIDTH)?;
    push_lines(alloc, &mut text, 1, "")?;
    push_lines(alloc, &mut text, WIDTH + 1, " 2")?;
    push_lines(alloc, &mut text, WIDTH + 1, "")?;
    Ok(text)
}

fn wide(alloc: Global) -> Result<Checked, Fail> {
    let text = wide_text(alloc)?;
    let limits = Limits::default();
    let read = read_ascii(alloc, text.as_str().as_bytes(), limits, Keep::Circuit);
    drop(text); // for the proof
    Ok(read?)
}

fn run(alloc: Global) -> Result<Run, AllocError> {
    let mut steps = Listing::new(alloc);
    let values = vec![in alloc; Val::One; WIDTH as usize]?;
    steps.push(Listing::from_vec(values))?;
    Ok(Run { steps })
}

fn is_simulated(alloc: Global, circuit: &Checked) -> Result<bool, Fail> {
    let run = [run(alloc)?];
    let fits = run[0].fits(circuit);
    let simulated = fits && simulate_batch(alloc, circuit, &run).is_ok();
    drop(run); // for the proof
    Ok(simulated)
}

#[test]
fn many_latches_are_simulated(rt: HostRuntime) -> Result<(), Fail> {
    let circuit = wide(rt.alloc())?;
    let has_simulator = Simulator::new(rt.alloc(), &circuit).is_ok();
    let simulated = is_simulated(rt.alloc(), &circuit);
    drop(circuit); // for the proof
    assert!(rt; simulated? && has_simulator);
    Ok(())
}

//! What is counted of a circuit.
ghost use Rattle.std.specs.Prelude.{◌≡◌, IfOk};
ghost use Rattle.std.specs.List.{concat};
ghost use Rattle.aig_circuit.specs.Wellformed.{IsWellFormed, literal_lists};
ghost use Rattle.aig_cone.specs.Cone.{IsConeOf};
ghost use Rattle.aig_cone.specs.declared.search.Reach.TheVariants.{AllSteps};
ghost use Rattle.aig_info.specs.Info.{IsInfoOf, IsUsedOf, comment_size, counts_in, info_with, sizes_of};

use crate::counts::{count_ones, count_uninitialised, shown_literals};
use crate::levels::depth;
use aig_circuit::{Circuit, OutOfMemory};
use aig_cone::{Reach, cone_of, count_gates, count_inputs, count_latches};
use aig_tables::VarSet;
use std::alloc::Global;

/// The numbers of a file's header.
#[derive(Clone, Copy)]
pub struct Sizes {
    /// The largest variable index.
    pub max_var: u64,
    /// How many inputs there are, and so on.
    pub inputs: u64,
    pub latches: u64,
    pub outputs: u64,
    pub gates: u64,
    pub bad: u64,
    pub constraints: u64,
    /// How many justice properties there are.
    pub justice: u64,
    pub fairness: u64,
}

/// How many inputs, latches and gates something depends on that the circuit shows.
#[derive(Clone, Copy)]
pub struct Used {
    pub inputs: u64,
    pub latches: u64,
    pub gates: u64,
}

/// What is counted of a circuit.
#[derive(Clone, Copy)]
pub struct Info {
    pub sizes: Sizes,
    /// How many latches start at 1.
    pub ones: u64,
    /// How many latches may start at either.
    pub uninitialised: u64,
    pub symbols: u64,
    /// How many bytes the comment has.
    pub comment: u64,
    /// How many gates stand on the longest path.
    pub levels: u64,
    pub used: Used,
}

fn sizes_of(circuit: &Circuit) -> Sizes
    ensures { result ≡ sizes_of circuit.now }
{
    Sizes {
        max_var: u64::from(circuit.max_var),
        inputs: circuit.inputs.len() as u64,
        latches: circuit.latches.len() as u64,
        outputs: circuit.outputs.len() as u64,
        gates: circuit.gates.len() as u64,
        bad: circuit.bad.len() as u64,
        constraints: circuit.constraints.len() as u64,
        justice: circuit.justice.sizes.len() as u64,
        fairness: circuit.fairness.len() as u64,
    }
}

fn comment_size(circuit: &Circuit) -> usize
    ensures { result ≡ comment_size circuit.now.comment }
{
    match &circuit.comment {
        Some(comment) => comment.len(),
        None => 0,
    }
}

/// What a circuit shows depends on these, in some step.
fn cone_of_shown(alloc: Global, circuit: &Circuit) -> Result<VarSet, OutOfMemory>
    requires { IsWellFormed circuit.now }
    ensures { IfOk result (IsConeOf AllSteps circuit.now (concat (literal_lists circuit.now))) }
{
    let shown = shown_literals(alloc, circuit)?;
    cone_of(alloc, circuit, &shown, Reach::AllSteps)
}

fn counts_in(variables: &VarSet, circuit: &Circuit) -> Used
    ensures { result ≡ counts_in variables.now circuit.now }
{
    Used {
        inputs: count_inputs(variables, circuit.inputs.as_slice()) as u64,
        latches: count_latches(variables, circuit.latches.as_slice()) as u64,
        gates: count_gates(variables, circuit.gates.as_slice()) as u64,
    }
}

fn used_of(alloc: Global, circuit: &Circuit) -> Result<Used, OutOfMemory>
    requires { IsWellFormed circuit.now }
    ensures { IfOk result (IsUsedOf circuit.now) }
{
    let cone = cone_of_shown(alloc, circuit)?;
    Ok(counts_in(&cone, circuit))
}

/// What is counted, where there are so many levels and these are used.
fn info_with(circuit: &Circuit, levels: u32, used: Used) -> Info
    ensures { result ≡ info_with circuit.now levels used }
{
    Info {
        sizes: sizes_of(circuit),
        ones: count_ones(circuit.latches.as_slice()) as u64,
        uninitialised: count_uninitialised(circuit.latches.as_slice()) as u64,
        symbols: circuit.symbols.len() as u64,
        comment: comment_size(circuit) as u64,
        levels: u64::from(levels),
        used,
    }
}

/// Counts what a circuit has.
pub fn info_of(alloc: Global, circuit: &Circuit) -> Result<Info, OutOfMemory>
    requires { IsWellFormed circuit.now }
    ensures { IfOk result (IsInfoOf circuit.now) }
{
    let levels = depth(alloc, circuit)?;
    let used = used_of(alloc, circuit)?;
    Ok(info_with(circuit, levels, used))
}
